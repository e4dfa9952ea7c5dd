//! What a linear-address space maps, and the tables that it uses.

ghost use Rattle.std.specs.Prelude.{◌≡◌};

use crate::access_sets::Rights;
use crate::entries::Bits;
use crate::registers::Settings;
use std::marker::Model;

/// What a space is determined by, besides memory.
#[derive(Clone, Copy, Debug, PartialEq, Eq)]
pub struct SpaceKey {
    /// The physical address of the top table.
    pub root: u64,
    pub settings: Settings,
}

/// A range of pages whose frames follow one another and whose rights are equal.
#[derive(Clone, Copy, Debug, PartialEq, Eq)]
pub struct Area {
    /// The first byte of the range.
    pub first: u64,
    /// The last byte of the range.
    pub last: u64,
    /// The physical address of the first page.
    pub frame: u64,
    /// The accesses that are granted.
    pub rights: Rights,
}

/// A range of pages whose frames follow one another and whose joined bits and key are equal.
#[derive(Clone, Copy, Debug, PartialEq, Eq)]
pub struct Region {
    /// The first byte of the range.
    pub first: u64,
    /// The last byte of the range.
    pub last: u64,
    /// The physical address of the first page.
    pub frame: u64,
    /// The bits that were joined over all entries of the walk.
    pub bits: Bits,
    /// The protection key, under 16.
    pub key: u8,
}

/// A table, as it serves entries of one level for the addresses from a prefix on.
#[derive(Clone, Copy, Debug, PartialEq, Eq)]
pub struct TableUse {
    /// The level of the table's entries, 5 to 1.
    pub level: u8,
    /// The first address that the table serves; 0 for the top table, which serves the whole space.
    pub prefix: u64,
    /// The physical address of the table.
    pub frame: u64,
    /// The bits that were joined over the entries above the table.
    pub bits: Bits,
}

/// Areas, by ascending addresses.
#[derive(Debug, Drop)]
pub struct Areas {
    items: Vec<Area>,
}

impl Model for Areas {
    ghost use Rattle.std.specs.Prelude.{List};
    ghost use Rattle.paging_model.specs.declared.spaces.Area.{Area};

    ghost Value = { List Area };

    ghost view = { λ a. a.items.items };
}

impl Areas {
    /// Takes ownership of the areas.
    pub fn from_vec(items: Vec<Area>) -> Areas
        ensures { result ≡ items.items }
    {
        Areas { items }
    }

    /// Borrows the areas.
    pub fn as_slice(&self) -> &[Area]
        ensures { result.now ≡ self.now }
    {
        self.items.as_slice()
    }
}
