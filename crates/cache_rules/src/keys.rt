//! What invalidations test of the key of an entry.

ghost use Rattle.std.specs.Prelude.{◌≡◌, ◌≤◌};
ghost use Rattle.history_model.specs.Invalidations.{is_global_leaf, is_of, key_covers};
ghost use Rattle.paging_model.specs.LinearAddress.{span};

use history_model::caches::CacheKey;

/// Whether an entry serves an address.
pub(crate) fn covers(key: &CacheKey, address: u64) -> bool
    requires least { 1 ≤ key.now.level }
    requires most { key.now.level ≤ 5 }
    ensures { result ≡ key_covers key.now address }
{
    key.prefix <= address && address - key.prefix < span(key.level)
}

/// Whether an entry is of a PCID, and no global translation.
pub(crate) fn is_of(pcid: u16, key: &CacheKey) -> bool
    ensures { result ≡ is_of pcid key.now }
{
    key.pcid == pcid && !is_global_leaf(key)
}

/// Whether an entry is a translation that may be used under every PCID.
pub(crate) fn is_global_leaf(key: &CacheKey) -> bool
    ensures { result ≡ is_global_leaf key.now }
{
    key.leaf && key.global
}

/// The length in bytes of the range that an entry of a level serves.
fn span(level: u8) -> u64
    requires least { 1 ≤ level }
    requires most { level ≤ 5 }
    ensures { result ≡ span level }
{
    1 << (12 + 9 * (level - 1))
}
