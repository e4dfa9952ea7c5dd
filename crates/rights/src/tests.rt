//! Runs over files in memory, whose outputs were worked out by hand.

mod checks;
mod generated;
mod points;

use super::*;
use outside::{Failed, MemShelf, MemSink, Shelf};
use std::alloc::{AllocError, Global};
use std::test::Fail;
use test_support::cores::{
    BIG, CR3, CR4, MEMORY, MEMORY_SIZE, example_core, example_core_with, foreign_core,
};
use test_support::fields::Field;

/// What the example core has in other places with five levels, of which its tables are the lower four.
const FIVE_LEVELS: [Field; 3] = [
    (CR3, 8, 0x7000),
    (CR4, 8, 0x1020),
    (MEMORY + 0x7000, 8, 0x1007),
];

/// What a run over a core and a log wrote, and its status.
fn outcome(alloc: Global, core: &[u8], log: &[u8]) -> Result<(Vec<u8>, u8), AllocError> {
    let mut shelf = MemShelf::new(alloc);
    let mut out = MemSink::new(alloc);
    shelf.add("core", core)?;
    shelf.add("log", log)?;
    let status = run_uncounted(alloc, &["run", "core", "log"], &mut shelf, &mut out);
    Ok((out.bytes().to_vec(alloc)?, status))
}

#[test]
fn lines_are_answered_or_refused(rt: HostRuntime) -> Result<(), Fail> {
    let core = example_core(rt.alloc())?;
    let cases: [(&[u8], &[u8], u8); 19] = [
        (
            b"ask 0 sr 0x1234\nask 0 sr 0x2000\nask 0 sr 0x200000\nask 0 sr 0x800000000000\n",
            b"granted 0x6234\ndenied absent 1\ndenied absent 2\ndenied not-canonical\n",
            0,
        ),
        (b"", b"", 0),
        (b"# note\n\nask 0 ur 0xfff", b"granted 0x5fff\n", 0),
        (b"ask 0x0 sr 4660\n", b"granted 0x6234\n", 0),
        (
            b"ask 0 ur 0x0\nask 0 ur 0x0\n",
            b"granted 0x5000\ngranted 0x5000\n",
            0,
        ),
        (b"ask 0 ur 0x800000000000\n", b"denied not-canonical\n", 0),
        (
            b"ask 0 sr 0x0\npoint current\nask 0 sr 0x0\n",
            b"granted 0x5000\npoint yes\ngranted 0x5000\n",
            0,
        ),
        (b"ask 0  ur 0x0\n", b"line 1 refused: syntax\n", 4),
        (b"ask 3 ur 0x0\n", b"line 1 refused: no processor 3\n", 4),
        (
            b"\n#\nask 0 sr 0x10000000000000000\n",
            b"line 3 refused: syntax\n",
            4,
        ),
        (
            b"invlpg 0 0x1000\ninvlpg 0 0x800000000000\ninvpcid 0 2 4095 0x800000000000\n\
            invpcid 0 3 1 0x800000000000\nask 0 ur 0x0\n",
            b"granted 0x5000\n",
            0,
        ),
        (
            b"set 0 cr4 0x20020\ninvpcid 0 0 1 0x1000\ninvpcid 0 1 4095 0x800000000000\n\
            ask 0 ur 0x0\n",
            b"granted 0x5000\n",
            0,
        ),
        (b"invlpg 1 0x0\n", b"line 1 refused: no processor 1\n", 4),
        (b"invpcid 0 4 4096 0x0\n", b"line 1 refused: bad type\n", 4),
        (
            b"invpcid 0 18446744073709551615 0 0x0\n",
            b"line 1 refused: bad type\n",
            4,
        ),
        (b"invpcid 0 1 1 0x0\n", b"line 1 refused: bad pcid\n", 4),
        (b"invpcid 0 3 4096 0x0\n", b"line 1 refused: bad pcid\n", 4),
        (
            b"invpcid 0 0 0 0x800000000000\n",
            b"line 1 refused: not canonical\n",
            4,
        ),
        (
            b"cpu 1 0x80010001 0x7000 0x1020 0xd00 0x2 0x0 0x0\ninvpcid 1 0 0 0x800000000000\n\
            invpcid 1 0 0 0x100000000000000\n",
            b"line 3 refused: not canonical\n",
            4,
        ),
    ];
    for (log, text, status) in cases {
        let (written, code) = outcome(rt.alloc(), &core, log)?;
        assert_eq!(rt; written.as_slice(), text);
        assert_eq!(rt; code, status);
    }
    Ok(())
}

#[test]
fn a_line_of_more_than_8300_bytes_is_refused(rt: HostRuntime) -> Result<(), Fail> {
    let core = example_core(rt.alloc())?;
    let mut log = vec![in rt.alloc(); b'#'; 8300]?;
    let (written, code) = outcome(rt.alloc(), &core, &log)?;
    assert_eq!(rt; written.as_slice(), b"".as_slice());
    assert_eq!(rt; code, 0);
    log.push(b'#')?;
    let (written, code) = outcome(rt.alloc(), &core, &log)?;
    assert_eq!(rt;
        written.as_slice(),
        b"line 1 refused: too long\n".as_slice()
    );
    assert_eq!(rt; code, 4);
    Ok(())
}

/// No contract says that memory suffices: for the longest line, a long log, the most processors and their numbers.
#[test]
fn a_write_of_4096_bytes_is_read(rt: HostRuntime) -> Result<(), Fail> {
    let core = example_core(rt.alloc())?;
    let mut digits = Vec::new(rt.alloc());
    for _ in 0..512u32 {
        digits.extend_from_slice(b"0760000000000000")?;
    }
    // Each entry of the page table, then all of memory's last page but its first byte, and one byte more.
    let mut log = b"write 0x4000 ".to_vec(rt.alloc())?;
    log.extend_from_slice(&digits)?;
    log.extend_from_slice(b"\nask 0 uw 0x0\nask 0 uw 0x1ff234\nwrite 0xf001 ")?;
    log.extend_from_slice(&digits)?;
    let (written, code) = outcome(rt.alloc(), &core, &log)?;
    assert_eq!(rt;
        written.as_slice(),
        b"granted 0x6000\ngranted 0x6234\nline 4 refused: unknown 0x10000\n".as_slice()
    );
    assert_eq!(rt; code, 4);
    Ok(())
}

#[test]
fn a_log_of_several_megabytes_is_answered(rt: HostRuntime) -> Result<(), Fail> {
    let core = example_core(rt.alloc())?;
    let mut log = vec![in rt.alloc(); b'\n'; 5_000_000]?;
    log.extend_from_slice(b"ask 0 sr 0x1234\nask\n")?;
    let (written, code) = outcome(rt.alloc(), &core, &log)?;
    assert_eq!(rt;
        written.as_slice(),
        b"granted 0x6234\nline 5000002 refused: syntax\n".as_slice()
    );
    assert_eq!(rt; code, 4);
    Ok(())
}

#[test]
fn sixty_four_processors_of_any_numbers_are_answered(rt: HostRuntime) -> Result<(), Fail> {
    let alloc = rt.alloc();
    let core = foreign_core(alloc)?;
    let mut numbers: Vec<u32> = (0..63u32).map(|index| index << 26).collect(alloc)?;
    numbers.push(u32::MAX)?;
    let mut log = Vec::new(alloc);
    let mut text = Vec::new(alloc);
    for number in &numbers {
        let line = format!(in alloc; "cpu {number} 0x80010001 0x1000 0x20 0xd00 0x2 0x0 0x0\n")?;
        log.extend_from_slice(line.as_bytes())?;
    }
    for number in &numbers {
        let line = format!(in alloc; "ask {number} ur 0x0\n")?;
        log.extend_from_slice(line.as_bytes())?;
        text.extend_from_slice(b"granted 0x5000\n")?;
    }
    let (written, code) = outcome(alloc, &core, &log)?;
    assert!(rt; written.as_slice() == text.as_slice());
    assert_eq!(rt; code, 0);
    Ok(())
}

#[test]
fn the_walk_reads_the_tables_of_the_core(rt: HostRuntime) -> Result<(), Fail> {
    let ask = b"ask 0 sr 0x1234\n".as_slice();
    let cases: [(&[Field], &[u8], &[u8], u8); 12] = [
        (&[(CR3, 8, 0x10000)], ask, b"denied unknown 4\n", 0),
        // Of the entry at 0x4000 the first four bytes are known.
        (
            &[(MEMORY_SIZE, 8, 0x4004)],
            b"ask 0 sr 0x0\n",
            b"denied unknown 1\n",
            0,
        ),
        // On both sides of the addresses that aren't canonical.
        (
            &[(MEMORY + 0x17f8, 8, 0x2007), (MEMORY + 0x1800, 8, 0x2007)],
            b"ask 0 sr 0x7f8000001fff\nask 0 sr 0x7fffffffffff\nask 0 sr 0x800000000000\n\
              ask 0 sr 0xffff7fffffffffff\nask 0 sr 0xffff800000000000\n",
            b"granted 0x6fff\ndenied absent 3\ndenied not-canonical\ndenied not-canonical\ngranted 0x5000\n",
            0,
        ),
        (
            &[(MEMORY + 0x3000, 8, 0x0040_20e7)],
            ask,
            b"denied reserved 2\n",
            0,
        ),
        (
            &[(MEMORY + 0x3000, 8, 0x0040_20e6)],
            ask,
            b"denied absent 2\n",
            0,
        ),
        (
            &[(MEMORY + 0x3000, 8, 0x0040_10e7)],
            ask,
            b"granted 0x401234\n",
            0,
        ),
        (
            &[(MEMORY + 0x3000, 8, 0x0040_00e7)],
            b"ask 0 sr 0x0\n",
            b"granted 0x400000\n",
            0,
        ),
        (
            &[(MEMORY + 0x2000, 8, 0x4000_00e7)],
            ask,
            b"granted 0x40001234\n",
            0,
        ),
        (
            &[(MEMORY + 0x2000, 8, 0x4000_00e7), (BIG, 4, 0)],
            ask,
            b"denied reserved 3\n",
            0,
        ),
        (
            &FIVE_LEVELS,
            b"ask 0 sr 0x800000000000\nask 0 sr 0x1234\n",
            b"denied absent 4\ngranted 0x6234\n",
            0,
        ),
        (&[(CR4, 8, 0x0020_0020)], ask, b"denied smap\n", 0),
        (
            &[(CR3, 8, 0x4000_0000_0000_1000)],
            ask,
            b"granted 0x6234\n",
            0,
        ),
    ];
    for (fields, log, text, status) in cases {
        let core = example_core_with(rt.alloc(), fields)?;
        let (written, code) = outcome(rt.alloc(), &core, log)?;
        assert_eq!(rt; written.as_slice(), text);
        assert_eq!(rt; code, status);
    }
    Ok(())
}

#[test]
fn writes_change_what_is_granted(rt: HostRuntime) -> Result<(), Fail> {
    let core = example_core(rt.alloc())?;
    let cases: [(&[u8], &[u8], u8); 4] = [
        // An entry of level 2: a large page with a reserved bit, one that isn't present, one at a multiple of its size.
        (
            b"write 0x3000 e720400000000000\nask 0 ur 0x1234\nwrite 0x3000 e620400000000000\n\
              ask 0 ur 0x1234\nwrite 0x3000 e710400000000000\nask 0 ur 0x1234\n",
            b"denied reserved 2\ndenied absent 2\ngranted 0x401234\n",
            0,
        ),
        // An entry of level 1: without U/S, then with XD, whose bit is reserved without NXE.
        (
            b"write 0x4000 0350000000000000\nask 0 ur 0x0\nask 0 sw 0x0\n\
              write 0x4000 0750000000000080\nask 0 ux 0x0\nask 0 uw 0x0\nset 0 efer 0x500\n\
              ask 0 ur 0x0\n",
            b"denied user\ngranted 0x5000\ndenied xd\ngranted 0x5000\ndenied reserved 1\n",
            0,
        ),
        (
            b"write 0x1ffc 0102030405060708\n",
            b"line 1 refused: crosses 0x2000\n",
            4,
        ),
        // That a byte isn't known comes before the second page.
        (
            b"write 0xfffc 0011223344556677\n",
            b"line 1 refused: unknown 0x10000\n",
            4,
        ),
    ];
    for (log, text, status) in cases {
        let (written, code) = outcome(rt.alloc(), &core, log)?;
        assert_eq!(rt; written.as_slice(), text);
        assert_eq!(rt; code, status);
    }
    Ok(())
}

/// The example core maps a page with all rights and one that isn't writable, both for users.
#[test]
fn lists_say_what_is_granted(rt: HostRuntime) -> Result<(), Fail> {
    let alloc = rt.alloc();
    let cases: [(&[Field], &[u8], &[u8], u8); 15] = [
        (
            &[],
            b"list 0\n",
            b"areas 2\n0x0 0xfff 0x5000 rwxrwxrw\n0x1000 0x1fff 0x6000 r-xr-xr-\n",
            0,
        ),
        // The second page gets R/W: its frame follows the first one's, and both are one area.
        (
            &[],
            b"write 0x4008 0760000000000000\nlist 0\n",
            b"areas 1\n0x0 0x1fff 0x5000 rwxrwxrw\n",
            0,
        ),
        // The same write twice.
        (
            &[],
            b"write 0x4008 0760000000000000\nwrite 0x4008 0760000000000000\nlist 0\n",
            b"areas 1\n0x0 0x1fff 0x5000 rwxrwxrw\n",
            0,
        ),
        // Without WP a supervisor writes to what isn't writable.
        (
            &[],
            b"set 0 cr0 0x80000001\nlist 0\n",
            b"areas 2\n0x0 0xfff 0x5000 rwxrwxrw\n0x1000 0x1fff 0x6000 r-xrwxrw\n",
            0,
        ),
        // SMEP and SMAP keep a supervisor from users' pages; with AC, its reads and writes pass that are explicit.
        (
            &[],
            b"set 0 cr4 0x300020\nlist 0\nset 0 ac 1\nlist 0\n",
            b"areas 2\n0x0 0xfff 0x5000 rwx-----\n0x1000 0x1fff 0x6000 r-x-----\n\
              areas 2\n0x0 0xfff 0x5000 rwxrw---\n0x1000 0x1fff 0x6000 r-xr----\n",
            0,
        ),
        // A key that disables accesses, and then only writes; without WP that isn't for supervisors.
        (
            &[],
            b"write 0x4000 0750000000000018\nset 0 cr4 0x400020\nset 0 pkru 0x40\nlist 0\n\
              set 0 pkru 0x80\nset 0 cr0 0x80000001\nask 0 uw 0x0\nask 0 sw 0x0\nlist 0\n",
            b"areas 2\n0x0 0xfff 0x5000 --x--x--\n0x1000 0x1fff 0x6000 r-xr-xr-\n\
              denied key\ngranted 0x5000\nareas 1\n0x0 0x1fff 0x5000 r-xrwxrw\n",
            0,
        ),
        // LASS keeps a supervisor from fetches in the lower half.
        (
            &[],
            b"set 0 cr4 0x8000020\nask 0 sx 0x0\nask 0 ux 0x0\nask 0 ur 0xffff800000000000\nlist 0\n",
            b"denied lass\ngranted 0x5000\ndenied lass\n\
              areas 2\n0x0 0xfff 0x5000 rwxrw-rw\n0x1000 0x1fff 0x6000 r-xr--r-\n",
            0,
        ),
        // Entry 256 of the PML4 references the PML4: each table below it is a page too. Then the PT is used twice.
        (
            &[],
            b"write 0x1800 0710000000000000\nlist 0\nwrite 0x3008 0740000000000000\nlist 0\n",
            b"areas 6\n0x0 0xfff 0x5000 rwxrwxrw\n0x1000 0x1fff 0x6000 r-xr-xr-\n\
              0xffff800000000000 0xffff800000000fff 0x4000 rwxrwxrw\n\
              0xffff804000000000 0xffff804000000fff 0x3000 rwxrwxrw\n\
              0xffff804020000000 0xffff804020000fff 0x2000 rwxrwxrw\n\
              0xffff804020100000 0xffff804020100fff 0x1000 rwxrwxrw\n\
              areas 9\n0x0 0xfff 0x5000 rwxrwxrw\n0x1000 0x1fff 0x6000 r-xr-xr-\n\
              0x200000 0x200fff 0x5000 rwxrwxrw\n0x201000 0x201fff 0x6000 r-xr-xr-\n\
              0xffff800000000000 0xffff800000000fff 0x4000 rwxrwxrw\n\
              0xffff800000001000 0xffff800000001fff 0x4000 rwxrwxrw\n\
              0xffff804000000000 0xffff804000000fff 0x3000 rwxrwxrw\n\
              0xffff804020000000 0xffff804020000fff 0x2000 rwxrwxrw\n\
              0xffff804020100000 0xffff804020100fff 0x1000 rwxrwxrw\n",
            0,
        ),
        // Five levels.
        (
            &FIVE_LEVELS,
            b"list 0\nask 0 ur 0x800000000000\nset 0 cr3 0x4000000000007000\n\
              ask 0 ur 0x800000000000\nask 0 ux 0x800000000000\n",
            b"areas 2\n0x0 0xfff 0x5000 rwxrwxrw\n0x1000 0x1fff 0x6000 r-xr-xr-\n\
              denied absent 4\ndenied not-canonical\ndenied absent 4\n",
            0,
        ),
        // A page of 1 GByte, on a machine with such pages and on one without.
        (
            &[],
            b"write 0x2000 e700004000000000\nlist 0\n",
            b"areas 1\n0x0 0x3fffffff 0x40000000 rwxrwxrw\n",
            0,
        ),
        (
            &[(BIG, 4, 0)],
            b"write 0x2000 e700004000000000\nask 0 ur 0x0\nlist 0\n",
            b"denied reserved 3\nareas 0\n",
            0,
        ),
        // A page of 2 MBytes, and one of 4 KBytes whose frame follows.
        (
            &[],
            b"write 0x3000 e700400000000000\nwrite 0x3008 0740000000000000\n\
              write 0x4000 0700600000000000\nlist 0\n",
            b"areas 2\n0x0 0x200fff 0x400000 rwxrwxrw\n0x201000 0x201fff 0x6000 r-xr-xr-\n",
            0,
        ),
        // An entry of level 2 without U/S.
        (
            &[],
            b"write 0x3000 0340000000000000\nlist 0\n",
            b"areas 2\n0x0 0xfff 0x5000 ---rwxrw\n0x1000 0x1fff 0x6000 ---r-xr-\n",
            0,
        ),
        // An ask, and then the list.
        (
            &[],
            b"ask 0 sr 0x0\nlist 0\n",
            b"granted 0x5000\nareas 2\n0x0 0xfff 0x5000 rwxrwxrw\n0x1000 0x1fff 0x6000 r-xr-xr-\n",
            0,
        ),
        (&[], b"list 3\n", b"line 1 refused: no processor 3\n", 4),
    ];
    for (fields, log, text, status) in cases {
        let core = example_core_with(alloc, fields)?;
        let (written, code) = outcome(alloc, &core, log)?;
        assert_eq!(rt; written.as_slice(), text);
        assert_eq!(rt; code, status);
    }
    // Each entry of the PML4 references the PML4.
    let mut fields = Vec::new(alloc);
    for slot in 0..512usize {
        fields.push((MEMORY + 0x1000 + 8 * slot, 8, 0x1007))?;
    }
    let core = example_core_with(alloc, &fields)?;
    let (written, code) = outcome(alloc, &core, b"list 0\nask 0 ur 0x0\n")?;
    assert_eq!(rt;
        written.as_slice(),
        b"areas too large\ngranted 0x1000\n".as_slice()
    );
    assert_eq!(rt; code, 0);
    Ok(())
}

#[test]
fn registers_change_what_is_granted(rt: HostRuntime) -> Result<(), Fail> {
    let cases: [(&[Field], &[u8], &[u8], u8); 4] = [
        // Masking of user pointers, from bit 48 and from bit 57 on; fetches aren't masked.
        (
            &[],
            b"set 0 cr3 0x4000000000001000\nask 0 ur 0x7fff000000000000\n\
              ask 0 ux 0x7fff000000000000\nset 0 cr3 0x2000000000001000\n\
              ask 0 ur 0x4000000000000\n",
            b"granted 0x5000\ndenied not-canonical\ndenied not-canonical\n",
            0,
        ),
        // LASS keeps each half from the accesses of the other.
        (
            &[],
            b"set 0 cr4 0x8000020\nask 0 sx 0x0\nask 0 ux 0x0\nask 0 ur 0xffff800000000000\n",
            b"denied lass\ngranted 0x5000\ndenied lass\n",
            0,
        ),
        (
            &[],
            b"set 0 cr3 0x1008\nset 0 cr4 0x20020\n",
            b"line 2 refused: illegal pcid-not-zero\n",
            4,
        ),
        (
            &[],
            b"ask 0 ur 0x0\ncpu 1 0x80010001 0x1000 0x20 0xd00 0x2 0x0 0x0\n",
            b"granted 0x5000\nline 2 refused: late state\n",
            4,
        ),
    ];
    for (fields, log, text, status) in cases {
        let core = example_core_with(rt.alloc(), fields)?;
        let (written, code) = outcome(rt.alloc(), &core, log)?;
        assert_eq!(rt; written.as_slice(), text);
        assert_eq!(rt; code, status);
    }
    Ok(())
}

#[test]
fn a_core_is_refused_at_its_first_fault(rt: HostRuntime) -> Result<(), Fail> {
    let core = example_core(rt.alloc())?;
    let cases: [(usize, &[u8]); 4] = [
        (0, b"core refused: short\n"),
        (63, b"core refused: short\n"),
        (100, b"core refused: header range\n"),
        (65_831, b"core refused: segment range 1\n"),
    ];
    for (len, text) in cases {
        let (written, code) = outcome(rt.alloc(), core.get(..len).unwrap_or(&[]), b"")?;
        assert_eq!(rt; written.as_slice(), text);
        assert_eq!(rt; code, 3);
    }
    let core = example_core_with(rt.alloc(), &[(CR3, 8, 0x0100_0000_1000)])?;
    let (written, code) = outcome(rt.alloc(), &core, b"")?;
    assert_eq!(rt;
        written.as_slice(),
        b"core refused: note state 0 cr3-reserved\n".as_slice()
    );
    assert_eq!(rt; code, 3);
    Ok(())
}

#[test]
fn state_lines_state_what_no_note_does(rt: HostRuntime) -> Result<(), Fail> {
    let core = foreign_core(rt.alloc())?;
    let cases: [(&[u8], &[u8], u8); 3] = [
        (b"", b"", 0),
        (
            b"machine 46 1\ncpu 0 0x80050033 0x1006 0x370ee0 0xd01 0x246 0x55555554 0x0\n\
              ask 0 ur 0x0\nask 0 sr 0x0\nlist 0\nset 0 cr3 0x8006\nask 0 ur 0x0\n",
            b"granted 0x5000\ndenied smap\nareas 2\n0x0 0xfff 0x5000 rwx-----\n\
              0x1000 0x1fff 0x6000 r-x-----\ndenied absent 4\n",
            0,
        ),
        (b"ask 0 sr 0x0\n", b"line 1 refused: no processor 0\n", 4),
    ];
    for (log, text, status) in cases {
        let (written, code) = outcome(rt.alloc(), &core, log)?;
        assert_eq!(rt; written.as_slice(), text);
        assert_eq!(rt; code, status);
    }
    Ok(())
}

#[test]
fn words_of_no_form_get_the_usage_line(rt: HostRuntime) -> Result<(), Fail> {
    let alloc = rt.alloc();
    for words in [
        [].as_slice(),
        &["run", "core"],
        &["walk", "core", "log"],
        &["run", "core", "log", "more"],
        &["check"],
        &["check", "core", "log"],
        &["gen", "7"],
    ] {
        let mut out = MemSink::new(alloc);
        let status = run_uncounted(alloc, words, &mut MemShelf::new(alloc), &mut out);
        assert_eq!(rt; status, 2);
        assert_eq!(rt;
            out.bytes(),
            b"usage: run CORE LOG | check CORE | gen SEED COUNT\n".as_slice()
        );
    }
    Ok(())
}

#[test]
fn faults_end_a_run(rt: HostRuntime) -> Result<(), Fail> {
    let alloc = rt.alloc();
    let core = example_core(alloc)?;
    let words = ["run", "core", "log"];
    let mut shelf = MemShelf::new(alloc);
    let mut out = MemSink::new(alloc);

    // The shelf has no file of the core, and then none of the log.
    assert_eq!(rt; run_uncounted(alloc, &words, &mut shelf, &mut out), 5);
    shelf.add("core", &core)?;
    assert_eq!(rt; run_uncounted(alloc, &words, &mut shelf, &mut out), 5);
    shelf.add("log", b"ask 0 sr 0x0\nask 0 sr 0x0\nask 0 sr 0x0\n")?;
    assert_eq!(rt; out.bytes(), b"".as_slice());

    // The third put keeps three bytes.
    out.fail(3, 3)?;
    assert_eq!(rt; run_uncounted(alloc, &words, &mut shelf, &mut out), 6);
    assert_eq!(rt;
        out.bytes(),
        b"granted 0x5000\ngranted 0x5000\ngra".as_slice()
    );

    // The first read fails.
    let mut shelf = MemShelf::new(alloc);
    let mut out = MemSink::new(alloc);
    shelf.add("core", &core)?;
    shelf.add("log", b"ask 0 sr 0x0\n")?;
    shelf.fail(1)?;
    assert_eq!(rt; run_uncounted(alloc, &words, &mut shelf, &mut out), 5);
    assert_eq!(rt; out.bytes(), b"".as_slice());
    assert_eq!(rt; run_uncounted(alloc, &words, &mut shelf, &mut out), 0);
    assert_eq!(rt; out.bytes(), b"granted 0x5000\n".as_slice());
    Ok(())
}

/// Each read fails in turn. What is written are the answers to the lines that end in what was read before.
#[test]
fn lines_are_answered_before_the_next_read(rt: HostRuntime) -> Result<(), Fail> {
    let alloc = rt.alloc();
    let core = example_core(alloc)?;
    let mut log = Vec::new(alloc);
    let mut text = Vec::new(alloc);
    for _ in 0..10_000u32 {
        log.extend_from_slice(b"ask 0 ur 0x0\n")?;
        text.extend_from_slice(b"granted 0x5000\n")?;
    }
    let mut counts = Vec::new(alloc);
    for call in 1..10u64 {
        let mut shelf = MemShelf::new(alloc);
        let mut out = MemSink::new(alloc);
        shelf.add("core", &core)?;
        shelf.add("log", &log)?;
        shelf.fail(call)?;
        let status = run_uncounted(alloc, &["run", "core", "log"], &mut shelf, &mut out);
        let written = out.bytes();
        assert!(rt; text.starts_with(written));
        counts.push((written.len() / b"granted 0x5000\n".len(), status))?;
    }
    // The core is read by three calls, and the log by three.
    assert!(rt;
        counts.as_slice()
            == [
                (0, 5),
                (0, 5),
                (0, 5),
                (0, 5),
                (5_041, 5),
                (10_000, 5),
                (10_000, 0),
                (10_000, 0),
                (10_000, 0),
            ]
            .as_slice()
    );
    Ok(())
}

#[test]
fn a_line_is_read_whole_where_a_piece_ends_in_it(rt: HostRuntime) -> Result<(), Fail> {
    let core = example_core(rt.alloc())?;
    // The first piece ends after 5,536 bytes of the comment.
    for (length, text, status) in [
        (8_300, b"granted 0x5000\n".as_slice(), 0),
        (8_301, b"line 60001 refused: too long\n".as_slice(), 4),
    ] {
        let mut log = vec![in rt.alloc(); b'\n'; 60_000]?;
        log.extend_from_slice(&vec![in rt.alloc(); b'#'; length]?)?;
        log.extend_from_slice(b"\nask 0 ur 0x0\n")?;
        let (written, code) = outcome(rt.alloc(), &core, &log)?;
        assert_eq!(rt; written.as_slice(), text);
        assert_eq!(rt; code, status);
    }
    Ok(())
}

/// A shelf whose log is another one from its second read on.
#[derive(Drop)]
struct ChangingShelf<'a> {
    core: &'a [u8],
    first: &'a [u8],
    later: &'a [u8],
    is_read: bool,
}

impl Shelf for ChangingShelf<'_> {
    ghost use Rattle.std.specs.Prelude.{◌≤◌, length, drop, IfOk, ◌≡◌};
    ghost use Rattle.std.proofs.Common.{rules};
    ghost use Rattle.outside.specs.Shelf.{unspecified};

    ghost known = { λ _ _. unspecified };

    ghost reach = { λ _ _. 0 };

    ghost faults = { λ _ _. 0 };

    ghost reach_within = { Prim.search rules };

    fn read_at(&mut self, name: &str, at: u64, into: &mut [u8]) -> Result<usize, Failed> {
        let bytes = match (name, self.is_read) {
            ("core", _) => self.core,
            (_, false) => self.first,
            (_, true) => self.later,
        };
        self.is_read |= name != "core";
        let left = bytes.get(at as usize..).unwrap_or(&[]);
        let count = left.len().min(into.len());
        into[..count].copy_from_slice(&left[..count]);
        Ok(count)
    }
}

#[test]
fn a_log_that_changes_is_answered_as_it_was_read(rt: HostRuntime) -> Result<(), Fail> {
    let alloc = rt.alloc();
    let core = example_core(alloc)?;
    let cases: [(&[u8], &[u8], &[u8], u8); 3] = [
        // It grows, and a line ends later.
        (
            b"ask 0 ur 0x0\nask 0 s",
            b"ask 0 ur 0x0\nask 0 sr 0x1234\nask 0 sr 0x0\n",
            b"granted 0x5000\ngranted 0x6234\ngranted 0x5000\n",
            0,
        ),
        // It shrinks, and the last line is what was read of it.
        (
            b"ask 0 ur 0x0\nask 0 sr 0x12",
            b"",
            b"granted 0x5000\ngranted 0x5012\n",
            0,
        ),
        (
            b"ask 0 ur 0x0\nask 0 sr",
            b"ask",
            b"granted 0x5000\nline 2 refused: syntax\n",
            4,
        ),
    ];
    for (first, later, text, status) in cases {
        let mut shelf = ChangingShelf {
            core: &core,
            first,
            later,
            is_read: false,
        };
        let mut out = MemSink::new(alloc);
        let code = run_uncounted(alloc, &["run", "core", "log"], &mut shelf, &mut out);
        assert_eq!(rt; out.bytes(), text);
        assert_eq!(rt; code, status);
    }
    Ok(())
}

#[test]
fn a_run_writes_all_that_was_put(rt: HostRuntime) -> Result<(), Fail> {
    let alloc = rt.alloc();
    let mut shelf = MemShelf::new(alloc);
    shelf.add("core", &example_core(alloc)?)?;
    shelf.add("log", b"ask 0 sr 0x0\nask 0 sr 0x1234\n")?;
    let mut written = Vec::new(alloc);
    let mut out = WriterSink::new(alloc, &mut written);
    let status = run_and_flush(alloc, &["run", "core", "log"], &mut shelf, &mut out);
    drop(out);
    assert_eq!(rt; status, 0);
    assert_eq!(rt;
        written.as_slice(),
        b"granted 0x5000\ngranted 0x6234\n".as_slice()
    );
    Ok(())
}
