//! Events one after another, over a core of two tables that map the first GByte to the second: a supervisor page with
//! R/W. Of the upper table one entry is known, and of the lower one two.

ghost use Rattle.std.specs.Prelude.{◌≤◌, length, ⊤};

mod random_lists;
mod random_points;

use super::*;
use elf_core::{Core, Processors, Segment, Segments, parse};
use history_model::answers::{Answer, Why};
use history_model::caches::Finding;
use history_model::events::Event;
use history_model::faults::StepFault;
use paging_model::access::{Access, Rule};
use paging_model::access_sets::Rights;
use paging_model::byte_strings::Payload;
use paging_model::registers::{Machine, RegChange, RegRule, Regs};
use paging_model::spaces::Area;
use phys_view::{Ledger, Reader, Steps, answer_and_steps};
use std::alloc::{AllocError, Global};
use std::test::Fail;
use test_support::cores::example_core;
use test_support::registers::REGS;

/// The first entry of the table at 0x1000, which references the table at 0x2000.
const TOP: [u8; 8] = [0x03, 0x20, 0, 0, 0, 0, 0, 0];

/// The first entries of the table at 0x2000: a page of 1 GByte, and none.
const LARGE: [u8; 16] = [0x83, 0, 0, 0x40, 0, 0, 0, 0, 0, 0, 0, 0, 0, 0, 0, 0];

/// CR4 without PAE.
const NO_PAE: RegChange = RegChange::Cr4(0);

/// CR4 with PAE, SMAP and LASS.
const SEPARATED: RegChange = RegChange::Cr4(0x820_0020);

/// The machine: a physical width of 40, and 1-GByte pages.
const MACHINE: Event = Event::Machine(Machine { m: 40, big: true });

/// A processor with the small registers.
const fn cpu(number: u32) -> Event {
    Event::Cpu(number, REGS)
}

/// A change of a register.
const fn set(cpu: u32, change: RegChange) -> Event {
    Event::Set { cpu, change }
}

/// A listing of a processor's space.
const fn list(cpu: u32) -> Event {
    Event::List { cpu }
}

/// A point for what the processors may use under their current PCIDs.
const POINT: Event = Event::Point { all: false };

/// A write to memory.
fn write(alloc: Global, at: u64, bytes: &[u8]) -> Result<Event, AllocError>
    requires some { 1 ≤ length bytes.now }
    requires few { length bytes.now ≤ 4096 }
{
    let bytes = Payload::from_vec(bytes.to_vec(alloc)?);
    Ok(Event::Write { at, bytes })
}

/// An access by a pointer.
const fn ask(cpu: u32, access: Access, pointer: u64) -> Event {
    Event::Ask {
        cpu,
        access,
        pointer,
    }
}

/// What comes of an event.
#[derive(Debug, Drop, PartialEq)]
enum Said {
    Nothing,
    Asked(Result<u64, Why>),
    Listed(Vec<Area>),
    Verdict(Vec<Finding>),
    Other,
    Refused(StepFault),
}

/// What comes of a step.
fn said_of(alloc: Global, step: &Result<Answer, StepFault>) -> Result<Said, AllocError> {
    Ok(match step {
        Ok(Answer::Nothing) => Said::Nothing,
        Ok(Answer::Asked(asked)) => Said::Asked(*asked),
        Ok(Answer::Listed(areas)) => Said::Listed(areas.as_slice().to_vec(alloc)?),
        Ok(Answer::Verdict(findings)) => Said::Verdict(findings.as_slice().to_vec(alloc)?),
        Ok(_) => Said::Other,
        Err(fault) => Said::Refused(*fault),
    })
}

/// What came of events, and how many blocks the session held after each; then its time and number of processors.
#[derive(Debug, Drop)]
struct Summary {
    said: Vec<Said>,
    blocks: Vec<u64>,
    now: u32,
    processors: u64,
}

/// The two tables in memory.
fn two_tables<'a>(
    alloc: Global,
    top: &'a [u8; 8],
    large: &'a [u8; 16],
) -> Result<Segments<'a>, AllocError> {
    Ok(Segments::from_vec(vec![in alloc;
        Segment {
            phys: 0x1000,
            bytes: top
        },
        Segment {
            phys: 0x2000,
            bytes: large
        },
    ]?))
}

/// Events that a new session over these segments steps through.
struct Steppings<'a> {
    alloc: Global,
    segments: Segments<'a>,
    events: &'a [Event],
}

impl<'a> Reader for Steppings<'a> {
    type Answer = Result<Summary, AllocError>;

    ghost gives = { λ _ _. ⊤ };

    fn read<L: Ledger>(self, steps: &mut Steps<L>) -> Result<Summary, AllocError> {
        let Steppings {
            alloc,
            segments,
            events,
        } = self;
        let core = Core {
            segments,
            stated: false,
            machine: Machine::new(52, true),
            processors: Processors::new(alloc),
        };
        let mut session: Session<'_, L> = Session::start(alloc, core)?;
        let mut said = Vec::new(alloc);
        let mut blocks = Vec::new(alloc);
        for event in events {
            if session.now() < u32::MAX {
                said.push(said_of(alloc, &session.step(event, steps))?)?;
                blocks.push(session.live_blocks())?;
            }
        }
        let (now, processors) = (session.now(), session.processors());
        Ok(Summary {
            said,
            blocks,
            now,
            processors,
        })
    }
}

/// What comes of events over the two tables, one after the other, and the steps that they took.
fn summary_of(alloc: Global, events: &[Event]) -> Result<(Summary, u64), AllocError> {
    summary_over(alloc, two_tables(alloc, &TOP, &LARGE)?, events)
}

/// The same over any segments.
fn summary_over(
    alloc: Global,
    segments: Segments<'_>,
    events: &[Event],
) -> Result<(Summary, u64), AllocError> {
    let (summary, steps) = answer_and_steps(Steppings {
        alloc,
        segments,
        events,
    });
    Ok((summary?, steps))
}

#[test]
fn accepted_events_are_answered(rt: HostRuntime) -> Result<(), Fail> {
    let (summary, steps) = summary_of(
        rt.alloc(),
        &[
            MACHINE,
            cpu(7),
            cpu(2),
            ask(7, Access::Sw, 0x1234),
            ask(7, Access::Ur, 0x1234),
            ask(2, Access::Sr, 0x80_0000_0000),
            ask(2, Access::Sr, 0x8000_0000_0000),
            set(2, SEPARATED),
            ask(2, Access::Sr, 0x1234),
            ask(7, Access::Sr, 0x1234),
        ],
    )?;
    assert_eq!(rt;
        summary.said.as_slice(),
        [
            Said::Nothing,
            Said::Nothing,
            Said::Nothing,
            Said::Asked(Ok(0x4000_1234)),
            Said::Asked(Err(Why::Denied(Rule::User))),
            Said::Asked(Err(Why::Unknown(4))),
            Said::Asked(Err(Why::NotCanonical)),
            Said::Nothing,
            Said::Asked(Err(Why::Lass)),
            Said::Asked(Ok(0x4000_1234)),
        ]
        .as_slice()
    );
    // State lines don't count. An ask that its pointer denies takes no step, and one walk ends at its first entry.
    assert_eq!(rt; (summary.now, summary.processors, steps), (7, 2, 7));
    Ok(())
}

#[test]
fn refused_events_change_nothing(rt: HostRuntime) -> Result<(), Fail> {
    let (summary, steps) = summary_of(
        rt.alloc(),
        &[
            MACHINE,
            MACHINE,
            cpu(0),
            MACHINE,
            cpu(0),
            ask(9, Access::Sr, 0),
            set(9, SEPARATED),
            ask(0, Access::Sr, 0x1234),
            MACHINE,
            cpu(1),
            set(0, NO_PAE),
            ask(0, Access::Sr, 0x1234),
        ],
    )?;
    assert_eq!(rt;
        summary.said.as_slice(),
        [
            Said::Nothing,
            Said::Refused(StepFault::LateState),
            Said::Nothing,
            Said::Refused(StepFault::LateState),
            Said::Refused(StepFault::DoubleProcessor(0)),
            Said::Refused(StepFault::NoProcessor(9)),
            Said::Refused(StepFault::NoProcessor(9)),
            Said::Asked(Ok(0x4000_1234)),
            Said::Refused(StepFault::LateState),
            Said::Refused(StepFault::LateState),
            Said::Refused(StepFault::Illegal(RegRule::NoPae)),
            Said::Asked(Ok(0x4000_1234)),
        ]
        .as_slice()
    );
    assert_eq!(rt; (summary.now, summary.processors, steps), (2, 1, 4));
    Ok(())
}

/// An entry is written, then a byte of each of two others. Of the first refused write all bytes but the last are known.
#[test]
fn writes_are_seen_by_later_asks(rt: HostRuntime) -> Result<(), Fail> {
    let alloc = rt.alloc();
    let (summary, steps) = summary_of(
        alloc,
        &[
            cpu(0),
            cpu(1),
            ask(0, Access::Sr, 0x4000_1234),
            write(alloc, 0x2008, &[0x83, 0, 0, 0x80])?,
            ask(0, Access::Sr, 0x4000_1234),
            ask(1, Access::Sr, 0x4000_1234),
            write(alloc, 0x2000, &[0x87])?,
            write(alloc, 0x1000, &[0x07])?,
            ask(1, Access::Ur, 0x1234),
            write(alloc, 0x2000, &[0; 17])?,
            write(alloc, 0x3000, &[0])?,
            ask(0, Access::Ur, 0x1234),
        ],
    )?;
    assert_eq!(rt;
        summary.said.as_slice(),
        [
            Said::Nothing,
            Said::Nothing,
            Said::Asked(Err(Why::Absent(3))),
            Said::Nothing,
            Said::Asked(Ok(0x8000_1234)),
            Said::Asked(Ok(0x8000_1234)),
            Said::Nothing,
            Said::Nothing,
            Said::Asked(Ok(0x4000_1234)),
            Said::Refused(StepFault::Unknown(0x2010)),
            Said::Refused(StepFault::Unknown(0x3000)),
            Said::Asked(Ok(0x4000_1234)),
        ]
        .as_slice()
    );
    assert_eq!(rt;
        summary.blocks.as_slice(),
        [0, 0, 0, 2, 2, 2, 2, 4, 4, 4, 4, 4].as_slice()
    );
    // A write takes a step for each slot that it touches, also where it is refused: here 7 in all.
    assert_eq!(rt; (summary.now, summary.processors, steps), (8, 2, 10 + 7));
    // Two entries of one page of the example core.
    let file = example_core(alloc)?;
    let events = [
        write(alloc, 0x4000, &[0x07, 0x60, 0, 0, 0, 0, 0, 0])?,
        write(alloc, 0x4008, &[0x07, 0x70, 0, 0, 0, 0, 0, 0])?,
    ];
    let (summary, _) = summary_over(alloc, parse(alloc, &file)?.segments, &events)?;
    assert_eq!(rt;
        summary.said.as_slice(),
        [Said::Nothing, Said::Nothing].as_slice()
    );
    assert_eq!(rt; summary.blocks.as_slice(), [2, 2].as_slice());
    Ok(())
}

/// A page that only a supervisor reaches; then one more, whose frame follows; then users reach the first of them.
#[test]
fn lists_go_by_what_was_written(rt: HostRuntime) -> Result<(), Fail> {
    let alloc = rt.alloc();
    let first = Area {
        first: 0,
        last: 0x3fff_ffff,
        frame: 0x4000_0000,
        rights: Rights::of_number(0b1111_1000),
    };
    let both = Area {
        last: 0x7fff_ffff,
        ..first
    };
    let users = Area {
        rights: Rights::of_number(0b1111_1111),
        ..first
    };
    let after_users = Area {
        first: 0x4000_0000,
        frame: 0x8000_0000,
        ..both
    };
    let (summary, steps) = summary_of(
        alloc,
        &[
            cpu(0),
            list(0),
            write(alloc, 0x2008, &[0x83, 0, 0, 0x80])?,
            list(0),
            list(1),
            write(alloc, 0x1000, &[0x07])?,
            write(alloc, 0x2000, &[0x87])?,
            list(0),
        ],
    )?;
    assert_eq!(rt;
        summary.said.as_slice(),
        [
            Said::Nothing,
            Said::Listed(vec![in alloc; first]?),
            Said::Nothing,
            Said::Listed(vec![in alloc; both]?),
            Said::Refused(StepFault::NoProcessor(1)),
            Said::Nothing,
            Said::Nothing,
            Said::Listed(vec![in alloc; users, after_users]?),
        ]
        .as_slice()
    );
    // The first list alone reads tables: two. A write reads its slot before it is made, and its entry after it; by the
    // entry at 0x1000 a table is read again.
    assert_eq!(rt; (summary.now, steps), (6, 2 * 512 + 2 + (2 + 512) + 2));
    Ok(())
}

/// The page of 1 GByte is made read-only, and one of two processors executes INVLPG, under WP.
#[test]
fn points_tell_what_is_stale(rt: HostRuntime) -> Result<(), Fail> {
    let alloc = rt.alloc();
    let of = |cpu: u32| Finding {
        cpu,
        pcid: 0,
        page: 0,
        frame: 0x4000_0000,
        excess: Rights::of_number(0b1001_0000),
    };
    let invlpg = |cpu: u32| Event::Invlpg { cpu, address: 0 };
    let events = [
        cpu(0),
        cpu(1),
        POINT,
        write(alloc, 0x2000, &[0x81])?,
        POINT,
        invlpg(0),
        Event::Point { all: true },
        invlpg(1),
        POINT,
    ];
    let (summary, _) = summary_of(alloc, &events)?;
    assert_eq!(rt;
        summary.said.as_slice(),
        [
            Said::Nothing,
            Said::Nothing,
            Said::Verdict(Vec::new(alloc)),
            Said::Nothing,
            Said::Verdict(vec![in alloc; of(0), of(1)]?),
            Said::Nothing,
            Said::Verdict(vec![in alloc; of(1)]?),
            Said::Nothing,
            Said::Verdict(Vec::new(alloc)),
        ]
        .as_slice()
    );
    assert_eq!(rt; summary.now, 7);
    Ok(())
}

#[test]
fn there_are_64_processors_at_most(rt: HostRuntime) -> Result<(), Fail> {
    let mut events = Vec::new(rt.alloc());
    for number in (0..65).rev() {
        events.push(cpu(number))?;
    }
    let (summary, steps) = summary_of(rt.alloc(), events.as_slice())?;
    assert_eq!(rt;
        summary.said.last(),
        Some(&Said::Refused(StepFault::TooManyProcessors))
    );
    assert_eq!(rt; (summary.now, summary.processors, steps), (0, 64, 0));
    Ok(())
}
