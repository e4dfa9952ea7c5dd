//! Views that are written to: what they show afterwards, and what is refused.

ghost use Rattle.std.specs.Prelude.{⊤};

use super::*;
use block_pool::Pool;
use elf_core::{Segment, Segments};
use std::alloc::Global;
use std::process::Abort;
use std::test::Fail;

/// Where physical memory ends.
const END: u64 = 1 << 52;

/// What is done with a view, and what has to come of it.
#[derive(Clone, Copy)]
enum Act<'a> {
    Write(u64, &'a [u8], Result<(), WriteFault>),
    Byte(u64, Option<u8>),
    Entry(u64, Option<u64>),
    Run(u64, usize, Option<&'a [u8]>),
    /// A read of entries that stand one after another.
    Entries(u64, &'a [Option<u64>]),
    /// A look at how many pages were written to, and how many blocks of the pool are in use.
    Overlaid(u64),
}

/// Acts on a view of these segments, one after another.
struct Acts<'a, A: Abort> {
    rt: &'a A,
    alloc: Global,
    segments: Segments<'a>,
    acts: &'a [Act<'a>],
}

impl<'a, A: Abort> Reader for Acts<'a, A> {
    type Answer = ();

    ghost gives = { λ _ _. ⊤ };

    fn read<L: Ledger>(self, steps: &mut Steps<L>) {
        let Acts {
            rt,
            alloc,
            segments,
            acts,
        } = self;
        let mut view: View<'_, L> = View::new(alloc, segments);
        let mut pool = Pool::new(alloc);
        for (index, act) in acts.iter().enumerate() {
            match *act {
                Act::Write(at, bytes, want) => {
                    assert!(rt; 1 <= bytes.len() && bytes.len() <= 4096);
                    assert_eq!(rt; view.write(&mut pool, at, bytes), want, "act {index}");
                }
                Act::Byte(at, want) => assert_eq!(rt; view.byte(at, steps), want, "act {index}"),
                Act::Entry(at, want) => {
                    assert!(rt; at % 8 == 0);
                    assert_eq!(rt; view.entry(at, steps), want, "act {index}");
                }
                Act::Run(at, len, want) => {
                    assert!(rt; 1 <= len && len <= 4096 && at % 4096 <= 4096 - len as u64);
                    assert_eq!(rt; view.run(at, len, steps), want, "act {index}");
                }
                Act::Entries(at, want) => {
                    let count = want.len();
                    assert!(rt;
                        at % 8 == 0 && count <= 512 && at % 4096 <= 4096 - 8 * count as u64
                    );
                    let entries = view.entries(at, count, steps);
                    for (place, want) in want.iter().enumerate() {
                        assert_eq!(rt; entries.get(place), *want, "act {index}");
                    }
                }
                Act::Overlaid(want) => {
                    assert_eq!(rt; (view.overlaid(), pool.live()), (want, want), "act {index}");
                }
            }
        }
    }
}

/// Acts on a view of the segments that begin at these addresses and have these bytes.
fn check(
    rt: &impl Abort,
    alloc: Global,
    segments: &[(u64, &[u8])],
    acts: &[Act<'_>],
) -> Result<(), Fail> {
    let mut known = Segments::new(alloc);
    for &(phys, bytes) in segments {
        assert!(rt; !bytes.is_empty() && bytes.len() as u64 <= END);
        assert!(rt; phys <= END - bytes.len() as u64);
        known.push(Segment { phys, bytes })?;
    }
    answer_of(Acts {
        rt,
        alloc,
        segments: known,
        acts,
    });
    Ok(())
}

#[test]
fn a_written_entry_stands_beside_another(rt: HostRuntime) -> Result<(), Fail> {
    const OLD: [u8; 16] = [0x07, 0x50, 0, 0, 0, 0, 0, 0, 0x05, 0x60, 0, 0, 0, 0, 0, 0];
    const NEW: [u8; 16] = [0x07, 0x50, 0, 0, 0, 0, 0, 0, 0x07, 0x60, 0, 0, 0, 0, 0, 0];
    let acts = [
        Act::Run(0x4000, 16, Some(&OLD)),
        Act::Write(0x4008, &[0x07, 0x60, 0, 0, 0, 0, 0, 0], Ok(())),
        Act::Run(0x4000, 16, Some(&NEW)),
        Act::Entry(0x4000, Some(0x5007)),
        Act::Entry(0x4008, Some(0x6007)),
        Act::Entries(0x4000, &[Some(0x5007), Some(0x6007)]),
    ];
    check(&rt, rt.alloc(), &[(0x4000, &OLD)], &acts)
}

#[test]
fn entries_stand_in_two_segments(rt: HostRuntime) -> Result<(), Fail> {
    let (first, second) = ([1; 12], [2; 16]);
    let acts = [Act::Entries(
        0x1000,
        &[
            Some(0x0101_0101_0101_0101),
            Some(0x0202_0202_0101_0101),
            Some(0x0202_0202_0202_0202),
            None,
        ],
    )];
    check(
        &rt,
        rt.alloc(),
        &[(0x1000, &first), (0x100c, &second)],
        &acts,
    )
}

#[test]
fn a_written_page_is_borrowed_over_two_segments(rt: HostRuntime) -> Result<(), Fail> {
    let (first, second) = ([1; 0x1800], [2; 0x1800]);
    let acts = [
        Act::Run(0x17f0, 32, None),
        Act::Write(0x1900, &[3], Ok(())),
        Act::Run(
            0x17f0,
            32,
            Some(&[
                1, 1, 1, 1, 1, 1, 1, 1, 1, 1, 1, 1, 1, 1, 1, 1, 2, 2, 2, 2, 2, 2, 2, 2, 2, 2, 2, 2,
                2, 2, 2, 2,
            ]),
        ),
        Act::Run(0x18ff, 3, Some(&[2, 3, 2])),
    ];
    check(&rt, rt.alloc(), &[(0, &first), (0x1800, &second)], &acts)
}

#[test]
fn a_page_has_one_block(rt: HostRuntime) -> Result<(), Fail> {
    let acts = [
        Act::Overlaid(0),
        Act::Write(0x1010, &[1], Ok(())),
        Act::Overlaid(1),
        Act::Write(0x1fff, &[2], Ok(())),
        Act::Overlaid(1),
        Act::Write(0x10, &[3], Ok(())),
        Act::Overlaid(2),
        Act::Byte(0x1010, Some(1)),
        Act::Byte(0x1fff, Some(2)),
        Act::Byte(0x10, Some(3)),
    ];
    check(&rt, rt.alloc(), &[(0, &[0; 0x2000])], &acts)
}

#[test]
fn a_write_ends_where_memory_does(rt: HostRuntime) -> Result<(), Fail> {
    let acts = [
        Act::Write(END - 1, &[1, 2], Err(WriteFault::Unknown(END))),
        Act::Write(
            u64::MAX - 1,
            &[1, 2],
            Err(WriteFault::Unknown(u64::MAX - 1)),
        ),
        Act::Write(u64::MAX, &[1], Err(WriteFault::Unknown(u64::MAX))),
        Act::Write(u64::MAX, &[1, 2], Err(WriteFault::Unknown(u64::MAX))),
        Act::Overlaid(0),
        Act::Run(END - 4, 4, Some(&[7, 7, 7, 7])),
        Act::Write(END - 2, &[1, 2], Ok(())),
        Act::Overlaid(1),
        Act::Run(END - 4, 4, Some(&[7, 7, 1, 2])),
        Act::Byte(END, None),
        Act::Byte(0, Some(9)),
    ];
    // Memory at address 0 isn't what follows the last address.
    check(&rt, rt.alloc(), &[(END - 4, &[7; 4]), (0, &[9; 4])], &acts)
}

#[test]
fn a_write_stays_in_its_page(rt: HostRuntime) -> Result<(), Fail> {
    let page = [5; 4096];
    let acts = [
        Act::Write(0xfff, &[1, 2], Err(WriteFault::Crosses(0x1000))),
        Act::Write(0x1, &page, Err(WriteFault::Crosses(0x1000))),
        Act::Write(0x1fff, &[1, 2], Err(WriteFault::Crosses(0x2000))),
        // The byte after them isn't known, and it lies in the next page.
        Act::Write(0x2fff, &[1, 2], Err(WriteFault::Unknown(0x3000))),
        Act::Overlaid(0),
        Act::Write(0x1000, &page, Ok(())),
        Act::Overlaid(1),
        Act::Run(0x1000, 4096, Some(&page)),
        // So it is where the page was written to.
        Act::Write(0x1fff, &[1, 2], Err(WriteFault::Crosses(0x2000))),
        Act::Overlaid(1),
        Act::Run(0x1000, 4096, Some(&page)),
        Act::Byte(0xfff, Some(0)),
        Act::Byte(0x2000, Some(0)),
    ];
    check(&rt, rt.alloc(), &[(0, &[0; 0x3000])], &acts)
}

#[test]
fn a_write_goes_over_a_seam_and_no_hole(rt: HostRuntime) -> Result<(), Fail> {
    let (first, second) = ([1; 8], [2; 8]);
    let touching = [
        Act::Write(0x1006, &[9, 9, 9, 9], Ok(())),
        Act::Run(
            0x1000,
            16,
            Some(&[1, 1, 1, 1, 1, 1, 9, 9, 9, 9, 2, 2, 2, 2, 2, 2]),
        ),
    ];
    check(
        &rt,
        rt.alloc(),
        &[(0x1000, &first), (0x1008, &second)],
        &touching,
    )?;
    // The first segment counts for the bytes that both have, in whatever order they lie.
    let overlapping = [
        Act::Write(0x1007, &[9, 9], Ok(())),
        Act::Run(0x1000, 12, Some(&[1, 1, 1, 1, 1, 1, 1, 9, 9, 2, 2, 2])),
    ];
    check(
        &rt,
        rt.alloc(),
        &[(0x1000, &first), (0x1004, &second)],
        &overlapping,
    )?;
    let turned = [
        Act::Write(0x1003, &[9, 9], Ok(())),
        Act::Run(0x1000, 12, Some(&[2, 2, 2, 9, 9, 1, 1, 1, 1, 1, 1, 1])),
    ];
    check(
        &rt,
        rt.alloc(),
        &[(0x1004, &first), (0x1000, &second)],
        &turned,
    )?;
    let apart = [
        Act::Write(0x1006, &[9, 9, 9, 9], Err(WriteFault::Unknown(0x1008))),
        Act::Overlaid(0),
        Act::Run(0x1000, 8, Some(&first)),
        Act::Run(0x1009, 8, Some(&second)),
    ];
    check(
        &rt,
        rt.alloc(),
        &[(0x1000, &first), (0x1009, &second)],
        &apart,
    )
}

#[test]
fn the_other_bytes_of_a_written_page_stay(rt: HostRuntime) -> Result<(), Fail> {
    let acts = [
        Act::Write(0x1006, &[9, 9], Ok(())),
        Act::Byte(0x1003, None),
        Act::Byte(0x1004, Some(1)),
        Act::Byte(0x1006, Some(9)),
        Act::Byte(0x100b, Some(1)),
        Act::Byte(0x100c, None),
        Act::Byte(0x1fff, Some(3)),
        Act::Entry(0x1000, None),
        Act::Entry(0x1008, None),
        Act::Entry(0x1010, Some(0x0202_0202_0202_0202)),
        Act::Run(0x1004, 8, Some(&[1, 1, 9, 9, 1, 1, 1, 1])),
        Act::Run(0x1003, 9, None),
        Act::Run(0x1004, 9, None),
        Act::Run(0x1004, 20, None),
        Act::Run(0x1010, 8, Some(&[2; 8])),
    ];
    // The bytes before 0x1004 aren't known, nor those from 0x100c to 0x100f and from 0x1018 to 0x1ffb.
    let segments: [(u64, &[u8]); 3] = [(0x1004, &[1; 8]), (0x1010, &[2; 8]), (0x1ffc, &[3; 4])];
    check(&rt, rt.alloc(), &segments, &acts)
}
