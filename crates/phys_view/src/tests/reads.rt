//! Two segments of which the second begins inside the first, and a reader of each kind of counter.
//!
//! The first has 0x10 + k at each address 0x1000 + k up to 0x100b, the second 0x20 + k from 0x1008 to 0x101b.

ghost use Rattle.std.specs.Prelude.{◌≡◌, ◌+◌, ◌%◌, ◌≤◌, ⊤};
ghost use Rattle.paging_model.specs.Memory.{byte_in, entry_at};
ghost use Rattle.phys_view.specs.Ranges.{slot_count};

use super::*;
use elf_core::{Segment, Segments};
use std::alloc::{AllocError, Global};
use std::marker::Brand;
use std::mem::size_of;

/// The bytes of the first segment.
const FIRST: [u8; 12] = [
    0x10, 0x11, 0x12, 0x13, 0x14, 0x15, 0x16, 0x17, 0x18, 0x19, 0x1a, 0x1b,
];

/// The bytes of the second segment.
const SECOND: [u8; 20] = [
    0x28, 0x29, 0x2a, 0x2b, 0x2c, 0x2d, 0x2e, 0x2f, 0x30, 0x31, 0x32, 0x33, 0x34, 0x35, 0x36, 0x37,
    0x38, 0x39, 0x3a, 0x3b,
];

/// The two segments.
fn overlapping<'a>(
    alloc: Global,
    first: &'a [u8; 12],
    second: &'a [u8; 20],
) -> Result<Segments<'a>, AllocError> {
    let items = vec![in alloc;
        Segment {
            phys: 0x1000,
            bytes: first
        },
        Segment {
            phys: 0x1008,
            bytes: second
        },
    ]?;
    Ok(Segments::from_vec(items))
}

/// A read of one entry.
struct EntryRead<'a> {
    alloc: Global,
    segments: Segments<'a>,
    at: u64,
    ghost aligned: { at % 8 ≡ 0 },
}

impl<'a> Reader for EntryRead<'a> {
    type Answer = Option<u64>;

    ghost gives = { λ reader answer. answer ≡ entry_at (byte_in reader.segments) reader.at };

    fn read<L: Ledger>(self, steps: &mut Steps<L>) -> Option<u64> {
        let EntryRead {
            alloc,
            segments,
            at,
        } = self;
        let view: View<'_, L> = View::new(alloc, segments);
        view.entry(at, steps)
    }
}

/// The entry at an address, read by a caller that counts nothing.
fn uncounted_entry(alloc: Global, segments: Segments<'_>, at: u64) -> Option<u64>
    requires { at % 8 ≡ 0 }
    ensures { result ≡ entry_at (byte_in segments.entry) at }
{
    answer_of(EntryRead {
        alloc,
        segments,
        at,
    })
}

/// What a view answers at an address.
#[derive(Clone, Copy, Debug, PartialEq)]
struct Answers {
    byte: Option<u8>,
    /// The entry that the address lies in.
    entry: Option<u64>,
    /// Whether the run from the address on is the one that was wanted.
    run: bool,
}

/// A read of a byte, of the entry that it lies in, and of a run that begins with it.
struct Reads<'a> {
    alloc: Global,
    segments: Segments<'a>,
    at: u64,
    want: Option<&'a [u8]>,
    len: usize,
    ghost some: { 1 ≤ len },
    ghost within: { at % 4096 + len ≤ 4096 },
}

impl<'a> Reader for Reads<'a> {
    type Answer = Answers;

    ghost gives = { λ _ _. ⊤ };

    fn read<L: Ledger>(self, steps: &mut Steps<L>) -> Answers
        ensures { steps.new ≡ steps.old + 2 + slot_count self.entry.at self.entry.len }
    {
        let Reads {
            alloc,
            segments,
            at,
            want,
            len,
        } = self;
        let view: View<'_, L> = View::new(alloc, segments);
        Answers {
            byte: view.byte(at, steps),
            entry: view.entry(at - at % 8, steps),
            run: view.run(at, len, steps) == want,
        }
    }
}

/// The answers, and the steps of the three reads together as a ledger counts them that really counts.
fn answers_and_steps(
    alloc: Global,
    segments: Segments<'_>,
    at: u64,
    want: Option<&[u8]>,
    len: usize,
) -> (Answers, u64)
    requires some { 1 ≤ len }
    requires within { at % 4096 + len ≤ 4096 }
{
    answer_and_steps(Reads {
        alloc,
        segments,
        at,
        want,
        len,
    })
}

#[test]
fn a_counter_of_a_caller_that_counts_nothing_takes_no_bytes(rt: HostRuntime) {
    assert_eq!(rt; size_of::<Steps<Uncounted<Brand>>>(), 0);
    let segments = overlapping(rt.alloc(), &FIRST, &SECOND).expect(&rt, "memory");
    assert_eq!(rt;
        uncounted_entry(rt.alloc(), segments, 0x1000),
        Some(0x1716_1514_1312_1110)
    );
}

#[test]
fn the_first_segment_in_order_counts(rt: HostRuntime) {
    let segments = overlapping(rt.alloc(), &FIRST, &SECOND).expect(&rt, "memory");
    // The entry lies across both segments.
    assert_eq!(rt;
        answers_and_steps(rt.alloc(), segments, 0x100a, Some(&[0x1a, 0x1b]), 2),
        (
            Answers {
                byte: Some(0x1a),
                entry: Some(0x2f2e_2d2c_1b1a_1918),
                run: true,
            },
            3
        )
    );
}

#[test]
fn a_run_over_two_segments_is_not_borrowed(rt: HostRuntime) {
    let segments = overlapping(rt.alloc(), &FIRST, &SECOND).expect(&rt, "memory");
    assert_eq!(rt;
        answers_and_steps(rt.alloc(), segments, 0x1001, None, 15),
        (
            Answers {
                byte: Some(0x11),
                entry: Some(0x1716_1514_1312_1110),
                run: true,
            },
            4
        )
    );
}

#[test]
fn the_second_segment_is_borrowed_from_where_the_first_ends(rt: HostRuntime) {
    let segments = overlapping(rt.alloc(), &FIRST, &SECOND).expect(&rt, "memory");
    assert_eq!(rt;
        answers_and_steps(rt.alloc(), segments, 0x100c, Some(&SECOND[4..]), 16),
        (
            Answers {
                byte: Some(0x2c),
                entry: Some(0x2f2e_2d2c_1b1a_1918),
                run: true,
            },
            5
        )
    );
}

#[test]
fn memory_is_unknown_outside_the_segments(rt: HostRuntime) {
    let segments = overlapping(rt.alloc(), &FIRST, &SECOND).expect(&rt, "memory");
    // The last known byte, and an entry that goes past it.
    assert_eq!(rt;
        answers_and_steps(rt.alloc(), segments, 0x101b, None, 2),
        (
            Answers {
                byte: Some(0x3b),
                entry: None,
                run: true,
            },
            3
        )
    );
    let unknown = Answers {
        byte: None,
        entry: None,
        run: true,
    };
    let segments = overlapping(rt.alloc(), &FIRST, &SECOND).expect(&rt, "memory");
    assert_eq!(rt;
        answers_and_steps(rt.alloc(), segments, 0x101c, None, 1),
        (unknown, 3)
    );
    let segments = overlapping(rt.alloc(), &FIRST, &SECOND).expect(&rt, "memory");
    assert_eq!(rt;
        answers_and_steps(rt.alloc(), segments, 0xfff, None, 1),
        (unknown, 3)
    );
}

#[test]
fn a_run_of_a_page_takes_a_step_for_each_slot(rt: HostRuntime) {
    let segments = overlapping(rt.alloc(), &FIRST, &SECOND).expect(&rt, "memory");
    assert_eq!(rt;
        answers_and_steps(rt.alloc(), segments, 0x1000, None, 4096),
        (
            Answers {
                byte: Some(0x10),
                entry: Some(0x1716_1514_1312_1110),
                run: true,
            },
            514
        )
    );
}
