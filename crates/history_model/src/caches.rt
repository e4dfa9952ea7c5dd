//! Cached entries as invalidations test them, and what a point finds.

ghost use Rattle.std.specs.Prelude.{◌≡◌};

use paging_model::access_sets::Rights;
use std::marker::Model;

/// What an invalidation tests of one cached entry.
#[derive(Clone, Copy, Debug, PartialEq, Eq)]
pub struct CacheKey {
    /// The PCID under which the entry was made.
    pub pcid: u16,
    /// The entry's level, 5 to 1.
    pub level: u8,
    /// The first address that the entry serves.
    pub prefix: u64,
    /// Whether the entry maps a page: a translation of a TLB. Else it references a table, and is an entry of a
    /// paging-structure cache.
    pub leaf: bool,
    /// Whether it is a global translation.
    pub global: bool,
}

/// A translation that a processor may use and that its present tables don't justify.
#[derive(Clone, Copy, Debug, PartialEq, Eq)]
pub struct Finding {
    /// The processor's number.
    pub cpu: u32,
    /// The PCID under which it may be used.
    pub pcid: u16,
    /// The first address of the 4-KByte page.
    pub page: u64,
    /// The physical address to which the translation takes the page.
    pub frame: u64,
    /// The accesses that it grants and that the tables don't.
    pub excess: Rights,
}

/// Findings, ascending by processor and then by PCID.
#[derive(Debug, Drop)]
pub struct Findings {
    items: Vec<Finding>,
}

impl Model for Findings {
    ghost use Rattle.std.specs.Prelude.{List};
    ghost use Rattle.history_model.specs.declared.caches.Finding.{Finding};

    ghost Value = { List Finding };

    ghost view = { λ f. f.items.items };
}

impl Findings {
    /// Takes ownership of the findings.
    pub fn from_vec(items: Vec<Finding>) -> Findings
        ensures { result ≡ items.items }
    {
        Findings { items }
    }

    /// Borrows the findings.
    pub fn as_slice(&self) -> &[Finding]
        ensures { result.now ≡ self.now }
    {
        self.items.as_slice()
    }
}
