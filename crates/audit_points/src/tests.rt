//! The example core, once the right to write is taken from a page of it.

ghost use Rattle.std.specs.Prelude.{IfOk, ⊤};
ghost use Rattle.audit_points.specs.Audits.{IsAuditable};

mod unchanged_tables;

use super::*;
use block_pool::Pool;
use cache_rules::Host;
use elf_core::{Segment, Segments};
use history_model::caches::{Finding, Findings};
use history_model::events::Event;
use paging_model::access_sets::Rights;
use paging_model::registers::Machine;
use phys_view::{Ledger, Reader, Steps, View, answer_of};
use std::alloc::{AllocError, Global};
use std::process::Abort;
use std::test::Fail;
use test_support::cores::{MEMORY, SIZE, example_core};
use test_support::registers::REGS;
use version_store::Store;

/// The processor, after INVLPG of the page where it executes it.
fn host(alloc: Global, invlpg: bool) -> Result<Host, AllocError>
    ensures { IfOk result (λ host. IsAuditable host 2) }
{
    let mut host = Host::new(alloc, 0, REGS, Machine::new(40, true))?;
    if invlpg {
        let event = Event::Invlpg { cpu: 0, address: 0 };
        host.note(2, &event, &REGS)?;
    }
    Ok(host)
}

/// Takes the right to write from the page at 0 and audits.
struct Audit<'a, A: Abort> {
    rt: &'a A,
    alloc: Global,
    segments: Segments<'a>,
    invlpg: bool,
    all: bool,
}

impl<'a, A: Abort> Reader for Audit<'a, A> {
    type Answer = Result<Findings, AllocError>;

    ghost gives = { λ _ _. ⊤ };

    fn read<L: Ledger>(self, steps: &mut Steps<L>) -> Result<Findings, AllocError> {
        let Audit {
            rt,
            alloc,
            segments,
            invlpg,
            all,
        } = self;
        let mut pool = Pool::new(alloc);
        let mut store = Store::new(alloc);
        let mut view: View<'_, L> = View::new(alloc, segments);
        store.note(&mut pool, 0x4000, 1, 0x5007)?;
        assert!(rt; view.write(&mut pool, 0x4000, &[0x05]).is_ok());
        let hosts = [host(alloc, invlpg)?];
        audit(
            alloc,
            &view,
            &store,
            &hosts,
            &Machine::new(40, true),
            2,
            all,
            steps,
        )
    }
}

/// What is found, after INVLPG of the page or without it.
fn found(
    rt: &impl Abort,
    alloc: Global,
    core: &[u8],
    invlpg: bool,
    all: bool,
) -> Result<Findings, AllocError> {
    assert!(rt; core.len() == SIZE);
    let mut segments = Segments::new(alloc);
    segments.push(Segment {
        phys: 0,
        bytes: &core[MEMORY..],
    })?;
    answer_of(Audit {
        rt,
        alloc,
        segments,
        invlpg,
        all,
    })
}

/// The translation with the accesses that were taken: `Uw`, `Sw` and `Iw`.
fn stale() -> Finding {
    Finding {
        cpu: 0,
        pcid: 0,
        page: 0,
        frame: 0x5000,
        excess: Rights::of_number(0x92),
    }
}

#[test]
fn a_right_that_was_taken_is_stale_until_invlpg(rt: HostRuntime) -> Result<(), Fail> {
    let alloc = rt.alloc();
    let core = example_core(alloc)?;
    for all in [false, true] {
        let findings = found(&rt, alloc, &core, false, all)?;
        assert_eq!(rt; findings.as_slice(), [stale()].as_slice());
        let findings = found(&rt, alloc, &core, true, all)?;
        assert!(rt; findings.as_slice().is_empty());
    }
    Ok(())
}
