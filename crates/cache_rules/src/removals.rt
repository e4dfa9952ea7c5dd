//! What events remove, with the registers before them taken in.

ghost use Rattle.std.specs.Prelude.{◌≡◌, ◌≤◌, map};
ghost use Rattle.cache_rules.specs.Removals.{AreAscending, IsNextTime, first_time, removal_takes, removed_in};
ghost use Rattle.cache_rules.specs.declared.removals.Removed.{Removed};

use crate::keys::{covers, is_global_leaf, is_of};
use history_model::caches::CacheKey;

/// What an event removes. A global translation is one of a page.
#[derive(Clone, Copy, Debug, PartialEq, Eq)]
pub enum Removal {
    /// The translations of an address, of a PCID or global, and each reference of a table of the PCID.
    Address { pcid: u16, address: u64 },
    /// What is of a PCID and serves an address, but no global translation.
    AddressOfPcid { pcid: u16, address: u64 },
    /// What is of a PCID, but no global translation.
    Pcid { pcid: u16 },
    /// What is of a PCID, its global translations too.
    PcidAndGlobal { pcid: u16 },
    /// All but global translations.
    AllButGlobal,
    /// Everything.
    Everything,
}

/// A removal, and the time to which its event led.
#[derive(Clone, Copy, Debug, PartialEq, Eq)]
pub struct Removed {
    pub time: u32,
    pub removal: Removal,
}

const _: () = prove!(size_of::<Removed>() <= 24);

impl Removal {
    /// Whether it takes what has a key.
    pub fn takes(self, key: &CacheKey) -> bool
        requires least { 1 ≤ key.now.level }
        requires most { key.now.level ≤ 5 }
        ensures { result ≡ removal_takes self key.now }
    {
        match self {
            Removal::Address { pcid, address } => {
                let own = key.pcid == pcid;
                if key.leaf {
                    covers(key, address) && (own || key.global)
                } else {
                    own
                }
            }
            Removal::AddressOfPcid { pcid, address } => is_of(pcid, key) && covers(key, address),
            Removal::Pcid { pcid } => is_of(pcid, key),
            Removal::PcidAndGlobal { pcid } => key.pcid == pcid,
            Removal::AllButGlobal => !is_global_leaf(key),
            Removal::Everything => true,
        }
    }
}

/// The time of the first removal after `t` that takes what has a key. Its place is found in logarithmic time.
pub(crate) fn next_after(removals: &[Removed], key: &CacheKey, t: u32) -> Option<u32>
    requires ascending { AreAscending 0 (map (λ (one : Removed). one.time) removals.now) }
    requires least { 1 ≤ key.now.level }
    requires most { key.now.level ≤ 5 }
    ensures { IsNextTime (removed_in removals.now key.now) t result }
{
    let later = removals.partition_point(|removed| removed.time <= t);
    first_time(&removals[later..], key)
}

/// The time of the first removal that takes what has a key.
fn first_time(removals: &[Removed], key: &CacheKey) -> Option<u32>
    requires least { 1 ≤ key.now.level }
    requires most { key.now.level ≤ 5 }
    ensures { result ≡ first_time removals.now key.now }
{
    for removed in removals {
        if removed.removal.takes(key) {
            return Some(removed.time);
        }
    }
    None
}
