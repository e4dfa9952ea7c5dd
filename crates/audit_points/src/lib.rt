//! The audit of a point: for each processor and each PCID that is checked, the stale translation that comes first.
//!
//! A translation that a processor may use under a PCID is held under that PCID, or it is global and held under another
//! one that the processor visited. So for each visited PCID the times at which the processor was in it are found once,
//! and the descent of `stale_audit` is made for each pair of a PCID that is checked and one that was visited.
#![tactic(auto)]

mod audits;
mod host_audit;
pub mod laws;
mod pcid_times;

pub use audits::audit;

#[cfg(test)]
mod tests;
