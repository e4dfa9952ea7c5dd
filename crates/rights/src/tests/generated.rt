//! Runs over generated logs.

use super::run_uncounted;
use outside::{MemShelf, MemSink};
use std::alloc::{AllocError, Global};
use std::test::Fail;

/// What a run over a generated log wrote, and its status.
fn outcome_of_gen(alloc: Global, seed: &str, count: &str) -> Result<(Vec<u8>, u8), AllocError> {
    let mut out = MemSink::new(alloc);
    let words = ["gen", seed, count];
    let status = run_uncounted(alloc, &words, &mut MemShelf::new(alloc), &mut out);
    Ok((out.bytes().to_vec(alloc)?, status))
}

#[test]
fn a_generated_log_is_summed_up(rt: HostRuntime) -> Result<(), Fail> {
    let alloc = rt.alloc();
    let cases: [(&str, &str, &[u8]); 2] = [
        (
            "7",
            "3",
            b"events 3\nwrites 0\nsets 0\ninvalidations 3\ngranted 0\ndenied 0\nareas 0\n\
              points yes 0\npoints no 0\n",
        ),
        (
            "0x7fffffff",
            "001",
            b"events 1\nwrites 0\nsets 0\ninvalidations 1\ngranted 0\ndenied 0\nareas 0\n\
              points yes 0\npoints no 0\n",
        ),
    ];
    for (seed, count, text) in cases {
        let (written, status) = outcome_of_gen(alloc, seed, count)?;
        assert_eq!(rt; written.as_slice(), text);
        assert_eq!(rt; status, 0);
    }
    Ok(())
}

#[test]
fn a_log_of_a_thousand_lines_has_one_summary(rt: HostRuntime) -> Result<(), Fail> {
    let alloc = rt.alloc();
    let (written, status) = outcome_of_gen(alloc, "7", "1000")?;
    assert!(rt; written.as_slice().starts_with(b"events 1000\n"));
    let (again, other) = outcome_of_gen(alloc, "7", "1000")?;
    assert_eq!(rt; written.as_slice(), again.as_slice());
    assert_eq!(rt; status, other);
    Ok(())
}

#[test]
fn seeds_and_counts_out_of_range_get_the_usage_line(rt: HostRuntime) -> Result<(), Fail> {
    let alloc = rt.alloc();
    for (seed, count) in [
        ("2147483648", "3"),
        ("0x80000000", "3"),
        ("7", "0"),
        ("7", "100001"),
        ("7", ""),
        ("-1", "3"),
        ("seven", "3"),
        ("00000000000000000000x", "3"),
        ("000000000000000000007", "3"),
    ] {
        let (written, status) = outcome_of_gen(alloc, seed, count)?;
        assert!(rt; written.as_slice().starts_with(b"usage: "));
        assert_eq!(rt; status, 2);
    }
    Ok(())
}

#[test]
fn a_failed_put_ends_a_generated_run(rt: HostRuntime) -> Result<(), Fail> {
    let alloc = rt.alloc();
    let mut out = MemSink::new(alloc);
    out.fail(2, 3)?;
    let words = ["gen", "7", "3"];
    let status = run_uncounted(alloc, &words, &mut MemShelf::new(alloc), &mut out);
    assert_eq!(rt; status, 6);
    assert_eq!(rt; out.bytes(), b"events 3\nwri".as_slice());
    Ok(())
}
