//! The audit of all processors.

ghost use Rattle.std.specs.Prelude.{ℕ, IfOk};
ghost use Rattle.std.specs.List.{All};
ghost use Rattle.audit_points.specs.Audits.{IsAuditable, StandsForAudit};
ghost use Rattle.cache_rules.specs.Hosts.{Keeping};
ghost use Rattle.history_model.specs.History.{History};
ghost use Rattle.history_model.specs.StaleTranslations.{AreFindings, scope};

use crate::host_audit::HostAudit;
use cache_rules::Host;
use history_model::caches::Findings;
use paging_model::registers::Machine;
use phys_view::{Ledger, Steps, View};
use proc_regs::settings;
use std::alloc::{AllocError, Global};
use version_store::Store;

/// What is stale of what the processors may use: for each PCID that a processor has been in where `all` is true, else
/// for its current one, the stale translation that comes first. The findings ascend by processor and then by PCID.
///
/// # Errors
///
/// Out of memory.
pub fn audit<L: Ledger>(
    alloc: Global,
    view: &View<'_, L>,
    store: &Store,
    hosts: &[Host],
    machine: &Machine,
    now: u32,
    all: bool,
    steps: &mut Steps<L>,
) -> Result<Findings, AllocError>
    requires { All (λ (host : Keeping). IsAuditable host now) hosts.now }
    ensures { IfOk result (λ findings. (history : History) →
        StandsForAudit view.now store.now hosts.now machine.now now history
        → AreFindings history (scope history all) findings) }
{
    let mut findings = Vec::new(alloc);
    for host in hosts {
        let audit = HostAudit {
            alloc,
            view,
            store,
            host,
            settings: settings(host.regs(), machine),
            end: now,
        };
        audit.add_findings(all, &mut findings, steps)?;
    }
    Ok(Findings::from_vec(findings))
}
