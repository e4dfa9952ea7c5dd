//! The root that a processor had last in each PCID, ascending by PCID.

ghost use Rattle.std.specs.Prelude.{◌≡◌, ◌<◌, ◌≤◌, ℕ, OnOk, OnErr, length, map};
ghost use Rattle.std.specs.List.Sorted.{IsPartitionPoint};
ghost use Rattle.cache_rules.specs.Hosts.{root_in, with_home};
ghost use Rattle.cache_rules.specs.Removals.{AreAscending};

use std::alloc::AllocError;

/// The root of a PCID, found in logarithmic time.
pub(crate) fn root_in(homes: &[(u16, u64)], pcid: u16) -> Option<u64>
    requires { AreAscending 0 (map (λ (one : ℕ × ℕ). one.0) homes.now) }
    ensures { result ≡ root_in homes.now pcid }
{
    let home = homes.get(place_of(homes, pcid))?;
    if home.0 == pcid { Some(home.1) } else { None }
}

/// Gives a PCID a root. Its place is found in logarithmic time; a new one moves those after it.
pub(crate) fn set_root(homes: &mut Vec<(u16, u64)>, pcid: u16, root: u64) -> Result<(), AllocError>
    requires { AreAscending 0 (map (λ (one : ℕ × ℕ). one.0) homes.old.items) }
    ensures ok { OnOk result (homes.new.items ≡ with_home pcid root homes.old.items) }
    ensures err { OnErr result (homes.new.items ≡ homes.old.items) }
{
    let place = place_of(homes.as_slice(), pcid);
    if place < homes.len() && homes[place].0 == pcid {
        homes[place] = (pcid, root);
    } else {
        homes.insert(place, (pcid, root))?;
    }
    Ok(())
}

/// How many have a lesser PCID: where this one stands, or belongs.
fn place_of(homes: &[(u16, u64)], pcid: u16) -> usize
    requires { AreAscending 0 (map (λ (one : ℕ × ℕ). one.0) homes.now) }
    ensures within { result ≤ length homes.now }
    ensures point { IsPartitionPoint
        (λ (one : ℕ × ℕ). one.0 < pcid) (λ (one : ℕ × ℕ). pcid ≤ one.0) homes.now result }
{
    homes.partition_point(|home| home.0 < pcid)
}
