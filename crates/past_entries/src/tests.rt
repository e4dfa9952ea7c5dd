//! Entries of a slot that had a few values.

use super::*;
use paging_model::entries::Bits;
use paging_model::registers::Settings;
use std::alloc::{AllocError, Global};
use std::process::Abort;
use std::test::Fail;
use time_sets::Times;

/// Settings of 4 levels without NXE.
const SETTINGS: Settings = Settings {
    m: 40,
    big: true,
    la57: false,
    nxe: false,
};

/// Everything is allowed.
const ALL: Bits = Bits {
    write: true,
    user: true,
    xd: false,
};

#[test]
fn a_value_comes_back(rt: HostRuntime) -> Result<(), Fail> {
    let entries = entries_of_a_slot(rt.alloc())?;
    assert!(rt; entries.len() == 2);
    assert_eq!(rt; entries[0].fill.frame, 0x2000);
    assert_eq!(rt; entries[0].times.intervals().len(), 2);
    assert!(rt; entries[0].times.has(3));
    assert!(rt; !entries[0].times.has(5));
    assert!(rt; entries[0].times.has(8));
    assert_eq!(rt; entries[1].fill.frame, 0x3000);
    assert_eq!(rt; entries[1].times.intervals().len(), 1);
    assert!(rt; entries[1].times.has(4));
    Ok(())
}

/// The slot has a value, another one, none that is present, and the first one again.
fn entries_of_a_slot(alloc: Global) -> Result<Vec<PastEntry>, AllocError> {
    let mut at = Times::new(alloc);
    at.add(2, 8)?;
    let spans = [
        (0, 3, 0x2007),
        (4, 4, 0x3007),
        (5, 5, 0x3006),
        (6, 9, 0x2007),
    ];
    entries_of(alloc, &spans, 1, &SETTINGS, false, ALL, &at)
}

#[test]
fn pages_are_global_with_pge_alone(rt: HostRuntime) {
    assert!(rt; fill_of(1, &SETTINGS, true, ALL, 0x2107).is_some_and(|fill| fill.global));
    assert!(rt; fill_of(1, &SETTINGS, false, ALL, 0x2107).is_some_and(|fill| !fill.global));
    assert!(rt; fill_of(1, &SETTINGS, true, ALL, 0x2106).is_none());
}
