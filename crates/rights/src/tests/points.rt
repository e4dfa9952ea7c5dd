//! Points over the example core, whose verdicts were worked out by hand.

use super::outcome;
use std::alloc::{AllocError, Global};
use std::test::Fail;
use test_support::cores::{MEMORY, example_core, example_core_with};

/// A log, what a run over it writes, and its status.
type Case = (&'static [u8], &'static [u8], u8);

/// One page is unmapped, by an entry of each level; one processor flushes it, or both; and SMEP, which flushes all.
const STALE: [Case; 6] = [
    (
        b"write 0x4000 0000000000000000\npoint current\ninvlpg 0 0x0\npoint current\n",
        b"point no 1\ncpu 0 pcid 0 page 0x0 frame 0x5000 rwxrwxrw\npoint yes\n",
        1,
    ),
    (
        b"cpu 1 0x80010001 0x1000 0x20 0xd00 0x2 0x0 0x0\nwrite 0x4000 0000000000000000\n\
        point current\ninvlpg 0 0x0\npoint current\n",
        b"point no 2\ncpu 0 pcid 0 page 0x0 frame 0x5000 rwxrwxrw\n\
        cpu 1 pcid 0 page 0x0 frame 0x5000 rwxrwxrw\n\
        point no 1\ncpu 1 pcid 0 page 0x0 frame 0x5000 rwxrwxrw\n",
        1,
    ),
    (
        b"write 0x3000 0000000000000000\ninvlpg 0 0x0\npoint current\n",
        b"point no 1\ncpu 0 pcid 0 page 0x1000 frame 0x6000 r-xr-xr-\n",
        1,
    ),
    (
        b"write 0x4000 0000000000000000\nset 0 cr4 0x100020\npoint current\n",
        b"point yes\n",
        0,
    ),
    // A global page: MOV to CR3 leaves it, and a change of PGE takes it.
    (
        b"set 0 cr4 0xa0\nwrite 0x4000 0751000000000000\nwrite 0x4000 0000000000000000\n\
        set 0 cr3 0x1000\npoint current\nset 0 cr4 0x20\npoint current\n",
        b"point no 1\ncpu 0 pcid 0 page 0x0 frame 0x5000 rwxrwxrw\npoint yes\n",
        1,
    ),
    // Three PCIDs, the last of another root; two of them are flushed in turn.
    (
        b"set 0 cr4 0x20020\nset 0 cr3 0x1001\nset 0 cr3 0x8000000000008002\n\
        write 0x4000 0000000000000000\npoint current\npoint all\n\
        invpcid 0 1 1 0x0\npoint all\ninvpcid 0 1 0 0x0\npoint all\n",
        b"point yes\npoint no 2\ncpu 0 pcid 0 page 0x0 frame 0x5000 rwxrwxrw\n\
        cpu 0 pcid 1 page 0x0 frame 0x5000 rwxrwxrw\n\
        point no 1\ncpu 0 pcid 0 page 0x0 frame 0x5000 rwxrwxrw\npoint yes\n",
        1,
    ),
];

/// The page table is taken out and then used again, under an entry that the processor may hold: the page was at no
/// moment mapped by a walk from the root.
const REUSED: Case = (
    b"write 0x3000 0000000000000000\nwrite 0x4010 0770000000000000\npoint current\n\
    invlpg 0 0x9000\npoint current\ninvlpg 0 0x2000\npoint current\n",
    b"point no 1\ncpu 0 pcid 0 page 0x2000 frame 0x7000 rwxrwxrw\n\
    point no 1\ncpu 0 pcid 0 page 0x2000 frame 0x7000 rwxrwxrw\npoint yes\n",
    1,
);

/// A run over a core and the log of a case ends as it says.
fn ends_so(alloc: Global, core: &[u8], case: &Case) -> Result<bool, AllocError> {
    let (log, text, status) = *case;
    let (written, code) = outcome(alloc, core, log)?;
    Ok(written.as_slice() == text && code == status)
}

#[test]
fn points_tell_what_is_stale(rt: HostRuntime) -> Result<(), Fail> {
    let core = example_core(rt.alloc())?;
    for case in &STALE {
        assert!(rt; ends_so(rt.alloc(), &core, case)?);
    }
    Ok(())
}

#[test]
fn a_table_used_again_is_found(rt: HostRuntime) -> Result<(), Fail> {
    let core = example_core_with(
        rt.alloc(),
        &[(MEMORY + 0x4000, 8, 0), (MEMORY + 0x4008, 8, 0)],
    )?;
    assert!(rt; ends_so(rt.alloc(), &core, &REUSED)?);
    Ok(())
}
