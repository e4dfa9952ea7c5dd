//! The worked examples of translations that a processor may hold and use, and of stale ones.

use super::*;
use crate::findings::findings_among;
use crate::made_entries::held_entries;
use crate::moments::{machine, regs};
use crate::stale_pages::{stale_translations, usable_translations};
use crate::visits::{last_root, processors, scope, visited_pcids};
use std::process::Abort;
use std::test::Fail;

/// The tables above the last one: a PML4 at 0x1000, a PDPT at 0x2000 and a PD at 0x3000.
const UPPER: [(usize, u64); 3] = [(0x1000, 0x2007), (0x2000, 0x3007), (0x3000, 0x4007)];

/// The upper tables, and two entries of the PT at 0x4000.
fn tables(first: u64, second: u64) -> [(usize, u64); 5] {
    let [pml4, pdpt, pd] = UPPER;
    [pml4, pdpt, pd, (0x4000, first), (0x4008, second)]
}

/// Asserts which translations of a page processor 0 holds under PCID 0: their frames, each of level 1 with all rights.
fn check_held(
    rt: &impl Abort,
    alloc: Global,
    moment: &Moment,
    page: u64,
    frames: &[u64],
) -> Result<(), AllocError> {
    let mut found = Vec::new(alloc);
    for entry in &held_entries(alloc, moment, 0, 0, page)? {
        if entry.is_leaf() {
            assert_eq!(rt; entry.level(), 1);
            assert_eq!(rt; entry.bits(), ALL);
            assert_eq!(rt; entry.key(), 0);
            found.push(entry.frame())?;
        }
    }
    assert_eq!(rt; found.as_slice(), frames, "at {page:#x}");
    Ok(())
}

/// Asserts what a point finds at pages 0x0 and 0x1000: processor, page, frame and the number of the excess.
fn check_findings(
    rt: &impl Abort,
    alloc: Global,
    moment: &Moment,
    want: &[(u32, u64, u64, u8)],
) -> Result<(), AllocError> {
    let findings = findings_among(alloc, moment, false, &[0x1000, 0])?;
    assert_eq!(rt; findings.len(), want.len());
    for (found, &(cpu, page, frame, excess)) in findings.iter().zip(want) {
        assert_eq!(rt; found.cpu, cpu);
        assert_eq!(rt; found.pcid, 0);
        assert_eq!(rt; found.page, page);
        assert_eq!(rt; found.frame, frame);
        assert_eq!(rt; found.excess.number(), excess);
    }
    Ok(())
}

#[test]
fn holds_what_no_moment_maps(rt: HostRuntime) -> Result<(), Fail> {
    let alloc = rt.alloc();
    let empty = first(alloc, REGS, &UPPER)?;
    check_held(&rt, alloc, &empty, 0x2000, &[])?;
    let unlinked = after_write(alloc, empty, 0x3000, 0)?;
    let filled = after_write(alloc, unlinked, 0x4010, 0x7007)?;
    check_held(&rt, alloc, &filled, 0x2000, &[0x7000])?;
    // INVLPG of another page removes the references of tables, and so what is made below them later.
    let invlpg = Event::Invlpg {
        cpu: 0,
        address: 0x1000,
    };
    let invalidated = moment_after(alloc, filled, invlpg)?;
    check_held(&rt, alloc, &invalidated, 0x2000, &[0x7000])?;
    let changed = after_write(alloc, invalidated, 0x4010, 0x8007)?;
    check_held(&rt, alloc, &changed, 0x2000, &[0x7000])?;
    Ok(())
}

#[test]
fn uses_global_translations_everywhere(rt: HostRuntime) -> Result<(), Fail> {
    let alloc = rt.alloc();
    let with_pcids = Regs { cr4: CR4, ..REGS };
    let mapped = first(alloc, with_pcids, &tables(0x5107, 0x6007))?;
    let moment = after_set(alloc, mapped, 0, RegChange::Cr3(0x1001))?;
    assert_eq!(rt;
        visited_pcids(alloc, &moment, 0)?.as_slice(),
        [0, 1].as_slice()
    );
    assert_eq!(rt; scope(alloc, &moment, true)?.len(), 3);
    assert_eq!(rt; last_root(&moment, 0, 0), Some(0x1000));
    assert_eq!(rt; last_root(&moment, 1, 1), None);
    assert_eq!(rt; regs(&moment, 1), Some(with_pcids));
    assert_eq!(rt; machine(&moment).m, 40);
    assert_eq!(rt; processors(alloc, &moment)?.len(), 2);
    let unmapped = after_write(alloc, moment, 0x4000, 0)?;
    let both = after_write(alloc, unmapped, 0x4008, 0)?;
    for (pcid, page, count) in [(0, 0, 1), (1, 0, 1), (0, 0x1000, 1), (1, 0x1000, 1)] {
        let usable = usable_translations(alloc, &both, 0, pcid, page)?;
        assert_eq!(rt; usable.len(), count, "{page:#x} under {pcid}");
    }
    Ok(())
}

#[test]
fn finds_the_first_stale_page(rt: HostRuntime) -> Result<(), Fail> {
    let alloc = rt.alloc();
    let two_pages = first(alloc, REGS, &tables(0x5007, 0x6005))?;
    check_findings(&rt, alloc, &two_pages, &[])?;
    let read_only = after_write(alloc, two_pages, 0x4000, 0x5005)?;
    check_findings(
        &rt,
        alloc,
        &read_only,
        &[(0, 0, 0x5000, 146), (1, 0, 0x5000, 146)],
    )?;
    let elsewhere = after_write(alloc, read_only, 0x4000, 0x7007)?;
    check_findings(
        &rt,
        alloc,
        &elsewhere,
        &[(0, 0, 0x5000, 109), (1, 0, 0x5000, 109)],
    )?;
    let cleared = after_write(alloc, elsewhere, 0x4008, 0)?;
    assert_eq!(rt; stale_translations(alloc, &cleared, 0, 0, 0x1000)?.len(), 1);
    let invlpg = Event::Invlpg { cpu: 0, address: 0 };
    let invalidated = moment_after(alloc, cleared, invlpg)?;
    check_findings(
        &rt,
        alloc,
        &invalidated,
        &[(0, 0x1000, 0x6000, 109), (1, 0, 0x5000, 109)],
    )?;
    Ok(())
}
