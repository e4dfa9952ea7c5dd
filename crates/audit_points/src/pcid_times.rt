//! When a processor was in a PCID, and under which roots.

ghost use Rattle.std.specs.Prelude.{◌≡◌, ℕ, IfOk};
ghost use Rattle.std.specs.List.{All};
ghost use Rattle.audit_points.specs.Audits.{AreTimesOf, IsAuditable, is_recent_stay, pcids_timed};
ghost use Rattle.audit_points.specs.StandingFacts.{with_nxe_in};
ghost use Rattle.cache_rules.specs.Hosts.{home_pcids};
ghost use Rattle.time_sets.specs.Sets.{has_time};

use cache_rules::Host;
use stay_times::{Wanted, roots_of, times_of};
use std::alloc::{AllocError, Global};
use std::collections::BTreeMap;
use time_sets::Times;

/// When a processor was in a PCID, from its horizon to now.
#[derive(Drop)]
pub(crate) struct PcidTimes {
    pub pcid: u16,
    /// When it was in the PCID with EFER.NXE 0.
    pub nxe_clear: Times,
    /// When it was in the PCID with EFER.NXE 1.
    pub nxe_set: Times,
    /// The roots that it had in the PCID, each with its times.
    pub roots: BTreeMap<u64, Times>,
}

/// The times of each PCID that a processor visited, ascending by PCID.
pub(crate) fn times_of_host(
    alloc: Global,
    host: &Host,
    now: u32,
) -> Result<Vec<PcidTimes>, AllocError>
    requires { IsAuditable host.now now }
    ensures pcids { IfOk result (λ times. pcids_timed times.items ≡ home_pcids host.now) }
    ensures times { IfOk result (λ times. All (AreTimesOf host.now now) times.items) }
{
    let mut times = Vec::new(alloc);
    for (pcid, _) in host.homes() {
        times.push(times_of_pcid(alloc, host, *pcid, now)?)?;
    }
    Ok(times)
}

/// The times of one PCID.
fn times_of_pcid(alloc: Global, host: &Host, pcid: u16, now: u32) -> Result<PcidTimes, AllocError>
    requires { IsAuditable host.now now }
    ensures pcid { IfOk result (λ times. times.pcid ≡ pcid) }
    ensures times { IfOk result (AreTimesOf host.now now) }
{
    Ok(PcidTimes {
        pcid,
        nxe_clear: times_with_nxe(alloc, host, pcid, false, now)?,
        nxe_set: times_with_nxe(alloc, host, pcid, true, now)?,
        roots: roots_of(alloc, host.past(), pcid, host.horizon(), now)?,
    })
}

/// When the processor was in a PCID with NXE as given.
fn times_with_nxe(
    alloc: Global,
    host: &Host,
    pcid: u16,
    nxe: bool,
    now: u32,
) -> Result<Times, AllocError>
    requires { IsAuditable host.now now }
    ensures { IfOk result (λ times. (t : ℕ) → has_time times t
        ≡ is_recent_stay host.now now (with_nxe_in pcid nxe) t) }
{
    let wanted = Wanted {
        pcid,
        nxe: Some(nxe),
        root: None,
    };
    times_of(alloc, host.past(), &wanted, host.horizon(), now)
}
