//! Checks of cores, whose lines were worked out by hand.

use super::run_uncounted;
use outside::{MemShelf, MemSink};
use std::alloc::{AllocError, Global};
use std::test::Fail;
use test_support::cores::{BIG, CR3, example_core, example_core_with, foreign_core};

/// What a check of a core wrote, and its status.
fn outcome_of_check(alloc: Global, core: &[u8]) -> Result<(Vec<u8>, u8), AllocError> {
    let mut shelf = MemShelf::new(alloc);
    let mut out = MemSink::new(alloc);
    shelf.add("core", core)?;
    let status = run_uncounted(alloc, &["check", "core"], &mut shelf, &mut out);
    Ok((out.bytes().to_vec(alloc)?, status))
}

#[test]
fn a_check_says_what_a_core_states(rt: HostRuntime) -> Result<(), Fail> {
    let alloc = rt.alloc();
    let small_pages = example_core_with(alloc, &[(BIG, 4, 0)])?;
    let cases: [(Vec<u8>, &[u8]); 3] = [
        (
            example_core(alloc)?,
            b"core ok: segments 1, processors 1, machine 40 1\n",
        ),
        (
            small_pages,
            b"core ok: segments 1, processors 1, machine 40 0\n",
        ),
        // The notes of other owners state nothing, and a segment of no bytes is skipped.
        (
            foreign_core(alloc)?,
            b"core ok: segments 2, processors 0, machine 52 1\n",
        ),
    ];
    for (core, text) in cases {
        let (written, status) = outcome_of_check(alloc, &core)?;
        assert_eq!(rt; written.as_slice(), text);
        assert_eq!(rt; status, 0);
    }
    Ok(())
}

#[test]
fn a_check_ends_as_a_run_at_a_core_that_is_refused(rt: HostRuntime) -> Result<(), Fail> {
    let alloc = rt.alloc();
    let core = example_core_with(alloc, &[(CR3, 8, 0x0100_0000_1000)])?;
    let (written, status) = outcome_of_check(alloc, &core)?;
    assert_eq!(rt;
        written.as_slice(),
        b"core refused: note state 0 cr3-reserved\n".as_slice()
    );
    assert_eq!(rt; status, 3);
    let (written, status) = outcome_of_check(alloc, b"\x7fELF")?;
    assert_eq!(rt; written.as_slice(), b"core refused: short\n".as_slice());
    assert_eq!(rt; status, 3);
    Ok(())
}

#[test]
fn faults_end_a_check(rt: HostRuntime) -> Result<(), Fail> {
    let alloc = rt.alloc();
    let mut shelf = MemShelf::new(alloc);
    let mut out = MemSink::new(alloc);
    // The shelf has no file of the core; then a put fails that keeps seven bytes.
    assert_eq!(rt;
        run_uncounted(alloc, &["check", "core"], &mut shelf, &mut out),
        5
    );
    assert_eq!(rt; out.bytes(), b"".as_slice());
    shelf.add("core", &example_core(alloc)?)?;
    let mut out = MemSink::new(alloc);
    out.fail(1, 7)?;
    assert_eq!(rt;
        run_uncounted(alloc, &["check", "core"], &mut shelf, &mut out),
        6
    );
    assert_eq!(rt; out.bytes(), b"core ok".as_slice());
    Ok(())
}
