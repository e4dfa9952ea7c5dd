//! Sets of accesses.

ghost use Rattle.std.specs.Prelude.{◌≡◌, ◌≢◌, ℕ, ◌<◌, ◌&&◌, ◌||◌, not, false, true};
ghost use Rattle.paging_model.specs.AccessSets.{has, set_number, access_bit};
ghost use Rattle.paging_model.specs.declared.access.Access.{Access};

use crate::access::Access;
use std::marker::Model;

/// A set of accesses, which contracts see as its number: the sum of 2 to the i over its members, with `Ur` 0, `Uw` 1,
/// `Ux` 2, `Sr` 3, `Sw` 4, `Sx` 5, `Ir` 6 and `Iw` 7.
#[derive(Clone, Copy, Debug, PartialEq, Eq)]
pub struct Rights {
    number: u8,
}

impl Model for Rights {
    ghost use Rattle.std.specs.Prelude.{ℕ};

    ghost Value = { ℕ };

    ghost view = { λ r. r.number };

    ghost inverse = { λ n. record { number = n } };
}

impl Rights {
    /// The empty set.
    pub fn none() -> Rights
        ensures members { (access : Access) → has result access ≡ false }
        ensures number { result ≡ 0 }
    {
        Rights { number: 0 }
    }

    /// The set of a number.
    pub fn of_number(number: u8) -> Rights
        ensures { result ≡ number }
    {
        Rights { number }
    }

    /// The set with an access too.
    pub fn with(&self, access: Access) -> Rights
        ensures added { has result access ≡ true }
        ensures others { (other : Access) → other ≢ access → has result other ≡ has self.now other }
    {
        Rights {
            number: self.number | 1 << bit_index(access),
        }
    }

    /// Whether the access is in the set.
    pub fn has(&self, access: Access) -> bool
        ensures { result ≡ has self.now access }
    {
        (self.number >> bit_index(access)) & 1 == 1
    }

    /// The number of the set. Sets with the same members have the same number.
    pub fn number(&self) -> u8
        ensures value { result ≡ self.now }
        ensures sum { result ≡ set_number (has self.now) }
        ensures only { (other : ℕ) → other < 256
            → ((access : Access) → has other access ≡ has self.now access) → other ≡ result }
    {
        self.number
    }

    /// The accesses that are in this set and not in the other.
    pub fn minus(&self, other: &Rights) -> Rights
        ensures { (access : Access) →
            has result access ≡ (has self.now access && not (has other.now access)) }
    {
        Rights {
            number: self.number & !other.number,
        }
    }

    /// The accesses that are in both sets.
    pub fn meet(&self, other: &Rights) -> Rights
        ensures { (access : Access) →
            has result access ≡ (has self.now access && has other.now access) }
    {
        Rights {
            number: self.number & other.number,
        }
    }

    /// The accesses that are in one of the sets, or in both.
    pub fn join(&self, other: &Rights) -> Rights
        ensures { (access : Access) →
            has result access ≡ (has self.now access || has other.now access) }
    {
        Rights {
            number: self.number | other.number,
        }
    }
}

/// The bit of an access in the number of a set.
fn bit_index(access: Access) -> u8
    ensures value { result ≡ access_bit access }
    ensures below { result < 8 }
{
    access as u8
}
