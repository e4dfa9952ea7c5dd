//! The order of stale translations, and the audit of the example core's root once a right is taken from a page.

ghost use Rattle.std.specs.Prelude.{⊤};

use super::*;
use audit_laws::stale_pages::StalePage;
use block_pool::Pool;
use cache_rules::Host;
use elf_core::{Segment, Segments};
use paging_model::access_sets::Rights;
use paging_model::registers::{Machine, Settings};
use phys_view::{Ledger, Reader, Steps, View, answer_of};
use std::alloc::{AllocError, Global};
use std::collections::BTreeMap;
use std::process::Abort;
use std::test::Fail;
use test_support::cores::{MEMORY, SIZE, example_core};
use test_support::registers::REGS;
use time_sets::Times;
use version_store::Store;

/// A physical width of 40, with 1-GByte pages, 4 levels and execute-disable.
const SETTINGS: Settings = Settings {
    m: 40,
    big: true,
    la57: false,
    nxe: true,
};

fn stale(page: u64, frame: u64, excess: u8) -> Option<StalePage> {
    Some(StalePage {
        page,
        frame,
        excess: Rights::of_number(excess),
    })
}

/// The one that comes first in each comparison.
fn first() -> Option<StalePage> {
    stale(0x2000, 0x6000, 0x92)
}

#[test]
fn the_least_page_comes_first_then_the_least_frame_and_excess(rt: HostRuntime) {
    let later = [
        (0x3000, 0x5000, 0x10),
        (0x2000, 0x7000, 0x10),
        (0x2000, 0x6000, 0x93),
    ];
    for (page, frame, excess) in later {
        assert_eq!(rt; first_of_two(first(), stale(page, frame, excess)), first());
        assert_eq!(rt; first_of_two(stale(page, frame, excess), first()), first());
    }
    assert_eq!(rt; first_of_two(first(), None), first());
    assert_eq!(rt; first_of_two(None, first()), first());
    assert_eq!(rt; first_of_two(None, None), None);
}

/// Takes the right to write from the page at 0 at time 1, and audits a root that is in use up to then.
struct Audit<'a, A: Abort> {
    rt: &'a A,
    alloc: Global,
    segments: Segments<'a>,
    /// The first time at which the root is in use, 0 or 1.
    from: u32,
}

impl<'a, A: Abort> Reader for Audit<'a, A> {
    type Answer = Result<Option<StalePage>, AllocError>;

    ghost gives = { λ _ _. ⊤ };

    fn read<L: Ledger>(self, steps: &mut Steps<L>) -> Result<Option<StalePage>, AllocError> {
        let Audit {
            rt,
            alloc,
            segments,
            from,
        } = self;
        let mut pool = Pool::new(alloc);
        let mut store = Store::new(alloc);
        let mut view: View<'_, L> = View::new(alloc, segments);
        store.note(&mut pool, 0x4000, 1, 0x5007)?;
        assert!(rt; view.write(&mut pool, 0x4000, &[0x05]).is_ok());
        let host = Host::new(alloc, 0, REGS, Machine::new(40, true))?;
        let never = Times::new(alloc);
        let mut always = Times::new(alloc);
        always.add(0, 1)?;
        let mut in_use = Times::new(alloc);
        in_use.add(from.min(1), 1)?;
        let mut roots = BTreeMap::new(alloc);
        roots.insert(0x1000, in_use)?;
        let point = Point {
            alloc,
            view: &view,
            store: &store,
            host: &host,
            settings: SETTINGS,
            home: 0x1000,
            under: 0,
            only_global: false,
            end: 1,
            nxe_clear: &never,
            nxe_set: &always,
        };
        audit_roots(&point, &roots, steps)
    }
}

/// What is found of a root that is in use from a time on.
fn found(
    rt: &impl Abort,
    alloc: Global,
    core: &[u8],
    from: u32,
) -> Result<Option<StalePage>, AllocError> {
    assert!(rt; core.len() == SIZE);
    let mut segments = Segments::new(alloc);
    segments.push(Segment {
        phys: 0,
        bytes: &core[MEMORY..],
    })?;
    answer_of(Audit {
        rt,
        alloc,
        segments,
        from,
    })
}

#[test]
fn a_root_that_was_in_use_before_a_write_leads_to_a_stale_page(
    rt: HostRuntime,
) -> Result<(), Fail> {
    let alloc = rt.alloc();
    let core = example_core(alloc)?;
    // The accesses Uw, Sw and Iw.
    assert_eq!(rt; found(&rt, alloc, &core, 0)?, stale(0, 0x5000, 0x92));
    assert_eq!(rt; found(&rt, alloc, &core, 1)?, None);
    Ok(())
}
