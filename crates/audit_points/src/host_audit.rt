//! The audit of one processor under one PCID.

ghost use Rattle.std.specs.Prelude.{◌≡◌, ◌∷◌, [], true, IfOk, OnOk};
ghost use Rattle.std.specs.List.{All};
ghost use Rattle.audit_laws.specs.Firsts.{IsFirst, finding_at};
ghost use Rattle.audit_points.specs.Audits.{AddFindings, AreTimesOf, HostFactsStandFor, IsAuditable, IsStaleHeldFor, IsStaleHeldForSome, pair_of, pairs_of, pcids_timed};
ghost use Rattle.cache_rules.specs.Hosts.{home_pcids};
ghost use Rattle.history_model.specs.History.{History};
ghost use Rattle.paging_model.specs.Entries.{IsFrame};

use crate::pcid_times::{PcidTimes, times_of_host};
use audit_laws::stale_pages::StalePage;
use cache_rules::Host;
use history_model::caches::Finding;
use paging_model::registers::Settings;
use phys_view::{Ledger, Steps, View};
use proc_regs::pcid;
use stale_audit::{Point, audit_roots, first_of_two};
use std::alloc::{AllocError, Global};
use std::marker::Model;
use version_store::Store;

/// What the audit of one processor goes by.
#[derive(Drop)]
pub(crate) struct HostAudit<'a, 'b, L: Ledger> {
    /// Takes the audit's memory.
    pub alloc: Global,
    /// The present memory.
    pub view: &'a View<'b, L>,
    /// What memory held before.
    pub store: &'a Store,
    /// The processor.
    pub host: &'a Host,
    /// Its settings.
    pub settings: Settings,
    /// The present time.
    pub end: u32,
}

impl<'a, 'b, L: Ledger> Model for HostAudit<'a, 'b, L> {
    ghost use Rattle.audit_points.specs.Audits.{HostFacts};

    ghost Value = { HostFacts };

    ghost view = { λ audit. record {
      seen = audit.view.now;
      kept = audit.store.now;
      host = audit.host.now;
      settings = audit.settings;
      end = audit.end;
    } };
}

impl<'a, 'b, L: Ledger> HostAudit<'a, 'b, L> {
    /// Adds the first stale translation under each PCID that is checked: each that the processor visited, or its
    /// current one.
    pub(crate) fn add_findings(
        &self,
        all: bool,
        findings: &mut Vec<Finding>,
        steps: &mut Steps<L>,
    ) -> Result<(), AllocError>
        requires { IsAuditable self.now.host self.now.end }
        ensures { OnOk result (AddFindings self.now (pairs_of self.now.host all)
            findings.old.items findings.new.items) }
    {
        let times = times_of_host(self.alloc, self.host, self.end)?;
        if all {
            self.add_visited(times.as_slice(), findings, steps)
        } else {
            self.add_pcid(times.as_slice(), pcid(self.host.regs()), findings, steps)
        }
    }

    /// The same of each PCID that the processor visited.
    fn add_visited(
        &self,
        times: &[PcidTimes],
        findings: &mut Vec<Finding>,
        steps: &mut Steps<L>,
    ) -> Result<(), AllocError>
        requires auditable { IsAuditable self.now.host self.now.end }
        requires pcids { pcids_timed times.now ≡ home_pcids self.now.host }
        requires times { All (AreTimesOf self.now.host self.now.end) times.now }
        ensures { OnOk result (AddFindings self.now (pairs_of self.now.host true)
            findings.old.items findings.new.items) }
    {
        for one in times {
            self.add_pcid(times, one.pcid, findings, steps)?;
        }
        Ok(())
    }

    /// Adds the first stale translation under a PCID, where there is one.
    fn add_pcid(
        &self,
        times: &[PcidTimes],
        pcid: u16,
        findings: &mut Vec<Finding>,
        steps: &mut Steps<L>,
    ) -> Result<(), AllocError>
        requires auditable { IsAuditable self.now.host self.now.end }
        requires pcids { pcids_timed times.now ≡ home_pcids self.now.host }
        requires times { All (AreTimesOf self.now.host self.now.end) times.now }
        ensures { OnOk result (AddFindings self.now (pair_of self.now.host pcid ∷ [])
            findings.old.items findings.new.items) }
    {
        let Some(home) = self.host.home(pcid) else {
            return Ok(());
        };
        if let Some(first) = self.first_stale(times, pcid, home, steps)? {
            findings.push(finding_of(self.host.number(), pcid, first))?;
        }
        Ok(())
    }

    /// The first translation that is stale under a PCID, of those that are held under it, and of the global ones that
    /// are held under others. `home` is the root that justifies them.
    fn first_stale(
        &self,
        times: &[PcidTimes],
        pcid: u16,
        home: u64,
        steps: &mut Steps<L>,
    ) -> Result<Option<StalePage>, AllocError>
        requires auditable { IsAuditable self.now.host self.now.end }
        requires times { All (AreTimesOf self.now.host self.now.end) times.now }
        requires home { IsFrame home }
        ensures { IfOk result (λ first. (history : History) → HostFactsStandFor self.now history
            → IsFirst (IsStaleHeldForSome self.now history home pcid
            (pcids_timed times.now)) first) }
    {
        let mut first = None;
        for under in times {
            let found = self.first_stale_under(under, pcid, home, steps)?;
            first = first_of_two(first, found);
        }
        Ok(first)
    }

    /// The same of those that are held under one PCID.
    fn first_stale_under(
        &self,
        under: &PcidTimes,
        pcid: u16,
        home: u64,
        steps: &mut Steps<L>,
    ) -> Result<Option<StalePage>, AllocError>
        requires auditable { IsAuditable self.now.host self.now.end }
        requires times { AreTimesOf self.now.host self.now.end under.now }
        requires home { IsFrame home }
        ensures { IfOk result (λ first. (history : History) → HostFactsStandFor self.now history
            → IsFirst (IsStaleHeldFor self.now history home pcid under.now.pcid) first) }
    {
        if under.roots.len() == 0 {
            return Ok(None);
        }
        let point = Point {
            alloc: self.alloc,
            view: self.view,
            store: self.store,
            host: self.host,
            settings: self.settings,
            home,
            under: under.pcid,
            only_global: under.pcid != pcid,
            end: self.end,
            nxe_clear: &under.nxe_clear,
            nxe_set: &under.nxe_set,
        };
        audit_roots(&point, &under.roots, steps)
    }
}

/// The finding of a processor under a PCID.
fn finding_of(cpu: u32, pcid: u16, stale: StalePage) -> Finding
    ensures { result ≡ finding_at cpu pcid stale }
{
    Finding {
        cpu,
        pcid,
        page: stale.page,
        frame: stale.frame,
        excess: stale.excess,
    }
}
