//! What a processor holds of an entry that it reads.

ghost use Rattle.std.specs.Prelude.{◌≡◌, ◌≤◌, IfSome, option_map};
ghost use Rattle.history_model.specs.CachedTranslations.{held_of};
ghost use Rattle.paging_model.specs.Entries.{entry_of};
ghost use Rattle.past_entries.specs.Fills.{FitsLevel, held_of_fill};

use entry_decode::{decode, join};
use paging_model::entries::{Bits, Entry};
use paging_model::registers::Settings;

/// What is held of an entry: the translation of a page, or the reference of a table.
#[derive(Clone, Copy, Debug, PartialEq, Eq)]
pub struct Fill {
    /// Whether it is the translation of a page.
    pub leaf: bool,
    /// The physical address of the page or of the table.
    pub frame: u64,
    /// The bits that were joined down to the entry.
    pub bits: Bits,
    /// A page's protection key; 0 of a table.
    pub key: u8,
    /// Whether it is a global translation.
    pub global: bool,
}

/// What is held of an entry of a level, 5 to 1, under the bits that were joined above it. `None` of an entry that isn't
/// present or has a reserved bit set, which isn't cached.
///
/// `pages_are_global` is CR4.PGE.
pub fn fill_of(
    level: u8,
    settings: &Settings,
    pages_are_global: bool,
    above: Bits,
    value: u64,
) -> Option<Fill>
    requires least { 1 ≤ level }
    requires most { level ≤ 5 }
    ensures made { option_map held_of_fill result ≡ held_of pages_are_global above
        (entry_of level settings.now value) }
    ensures fits { IfSome result (λ fill. FitsLevel level fill) }
{
    match decode(level, settings, value) {
        Entry::Absent | Entry::Reserved => None,
        Entry::Table { frame, bits } => Some(Fill {
            leaf: false,
            frame,
            bits: join(above, bits),
            key: 0,
            global: false,
        }),
        Entry::Leaf {
            frame,
            bits,
            key,
            global,
        } => Some(Fill {
            leaf: true,
            frame,
            bits: join(above, bits),
            key,
            global: global && pages_are_global,
        }),
    }
}
