//! Each error prints itself as the program's line has it, one buffer takes the lines of one answer after another, and
//! the lines of a summary and of a core have all their counts.

use super::*;
use elf_core::{Core, CoreFault, NoteRule, Processors, Segment, Segments};
use history_model::answers::{Answer, Why};
use history_model::caches::{Finding, Findings};
use history_model::faults::StepFault;
use paging_model::access::Rule;
use paging_model::access_sets::Rights;
use paging_model::registers::{Machine, Processor, RegRule, Regs};
use paging_model::spaces::{Area, Areas};
use std::alloc::{AllocError, Global};
use std::process::Abort;
use std::test::Fail;

/// Every rule for registers.
const REGISTER_RULES: [RegRule; 7] = [
    RegRule::PagingOff,
    RegRule::NotLong,
    RegRule::NoPae,
    RegRule::La57Changed,
    RegRule::PcidNotZero,
    RegRule::KeepBitWithoutPcid,
    RegRule::Cr3Reserved,
];

/// Every other rule for state notes.
const NOTE_RULES: [NoteRule; 7] = [
    NoteRule::Kind,
    NoteRule::Size,
    NoteRule::Zero,
    NoteRule::Range,
    NoteRule::Late,
    NoteRule::Twice,
    NoteRule::TooMany,
];

/// Every other refusal of a core.
const CORE_FAULTS: [CoreFault; 12] = [
    CoreFault::Short,
    CoreFault::NotElf,
    CoreFault::Class,
    CoreFault::Encoding,
    CoreFault::FileType,
    CoreFault::FileMachine,
    CoreFault::HeaderSize,
    CoreFault::HeaderCount,
    CoreFault::HeaderRange,
    CoreFault::SegmentRange(7),
    CoreFault::SegmentAddress(65_533),
    CoreFault::NoteRange(0),
];

/// Every other refusal of an event.
const STEP_FAULTS: [StepFault; 10] = [
    StepFault::LateState,
    StepFault::DoubleProcessor(4_294_967_295),
    StepFault::TooManyProcessors,
    StepFault::NoProcessor(0),
    StepFault::BadType,
    StepFault::BadPcid,
    StepFault::NotCanonical,
    StepFault::Unknown(0x1000),
    StepFault::Crosses(0xf_ffff_ffff_f000),
    StepFault::OverlayFull,
];

#[test]
fn cores_are_refused_in_the_words_of_their_faults(rt: HostRuntime) -> Result<(), Fail> {
    for fault in CORE_FAULTS {
        refuses_core(&rt, rt.alloc(), fault)?;
    }
    for rule in NOTE_RULES {
        refuses_core(&rt, rt.alloc(), CoreFault::NoteState(2, rule))?;
    }
    for rule in REGISTER_RULES {
        refuses_core(
            &rt,
            rt.alloc(),
            CoreFault::NoteState(0, NoteRule::Regs(rule)),
        )?;
    }
    Ok(())
}

#[test]
fn lines_are_refused_in_the_words_of_their_faults(rt: HostRuntime) -> Result<(), Fail> {
    refuses_line(&rt, rt.alloc(), Cause::TooLong)?;
    refuses_line(&rt, rt.alloc(), Cause::Syntax)?;
    for fault in STEP_FAULTS {
        refuses_line(&rt, rt.alloc(), Cause::Step(fault))?;
    }
    for rule in REGISTER_RULES {
        refuses_line(&rt, rt.alloc(), Cause::Step(StepFault::Illegal(rule)))?;
    }
    Ok(())
}

#[test]
fn a_buffer_holds_the_last_line_alone(rt: HostRuntime) -> Result<(), Fail> {
    let mut buffer = LineBuffer::new();
    let granted = Answer::Asked(Ok(0x6234));
    let denied = Answer::Asked(Err(Why::Denied(Rule::Key)));
    let listed = two_areas(rt.alloc())?;
    let found = one_finding(rt.alloc())?;
    let right = Answer::Verdict(Findings::from_vec(Vec::new(rt.alloc())));
    let lines = [
        (&granted, 0, "granted 0x6234\n"),
        (
            &listed,
            2,
            "0xffff800000000000 0xffff8000001fffff 0x40000000 ---rw-rw\n",
        ),
        (&listed, 1, "0x0 0xfff 0x5000 rwxrwxrw\n"),
        (&listed, 0, "areas 2\n"),
        (
            &found,
            1,
            "cpu 4294967295 pcid 4095 page 0x7ffffffff000 frame 0x6000 -w-----w\n",
        ),
        (&found, 0, "point no 1\n"),
        (&Answer::ListTooLarge, 0, "areas too large\n"),
        (&denied, 0, "denied key\n"),
        (&right, 0, "point yes\n"),
    ];
    for (answer, i, expected) in lines {
        writes(&rt, rt.alloc(), &mut buffer, answer, i, expected)?;
    }
    Ok(())
}

#[test]
fn a_summary_has_a_line_for_each_count(rt: HostRuntime) -> Result<(), Fail> {
    let mut buffer = LineBuffer::new();
    let idle = [
        "events 3\n",
        "writes 0\n",
        "sets 0\n",
        "invalidations 3\n",
        "granted 0\n",
        "denied 0\n",
        "areas 0\n",
        "points yes 0\n",
        "points no 0\n",
    ];
    let summary = Summary {
        events: 3,
        invalidations: 3,
        ..Summary::default()
    };
    for index in 0..SUMMARY_LINES {
        write_summary_line(&mut buffer, &summary, index);
        assert_eq!(rt; buffer.bytes(), idle[index as usize].as_bytes());
    }
    let longest = Summary {
        invalidations: u64::MAX,
        ..summary
    };
    write_summary_line(&mut buffer, &longest, 3);
    let expected = "invalidations 18446744073709551615\n";
    assert_eq!(rt; buffer.bytes(), expected.as_bytes());
    Ok(())
}

#[test]
fn a_core_is_counted(rt: HostRuntime) -> Result<(), Fail> {
    let mut buffer = LineBuffer::new();
    let page = [0; 4096];
    let mut core = one_processor(rt.alloc(), &page)?;
    write_core_line(&mut buffer, &core);
    let expected = "core ok: segments 1, processors 1, machine 40 1\n";
    assert_eq!(rt; buffer.bytes(), expected.as_bytes());
    core.machine = Machine::new(52, false);
    core.processors = Processors::new(rt.alloc());
    write_core_line(&mut buffer, &core);
    let expected = "core ok: segments 1, processors 0, machine 52 0\n";
    assert_eq!(rt; buffer.bytes(), expected.as_bytes());
    Ok(())
}

/// A core with the first 4 KBytes of memory and a processor, whose machine has 40 bits and 1-GByte pages.
fn one_processor(alloc: Global, page: &[u8; 4096]) -> Result<Core<'_>, AllocError> {
    let bytes = page.as_slice();
    let segments = vec![in alloc; Segment { phys: 0, bytes }]?;
    let regs = Regs {
        cr0: 0x8000_0001,
        cr3: 0x1000,
        cr4: 0x20,
        efer: 0x500,
        ac: false,
        pkru: 0,
        pkrs: 0,
    };
    let processors = vec![in alloc; Processor { number: 0, regs }]?;
    Ok(Core {
        segments: Segments::from_vec(segments),
        stated: true,
        machine: Machine::new(40, true),
        processors: Processors::from_vec(processors),
    })
}

/// Two areas: a page that grants all, and 2 MBytes for reads and writes of the supervisor.
fn two_areas(alloc: Global) -> Result<Answer, AllocError> {
    let areas = vec![in alloc;
        Area {
            first: 0,
            last: 0xfff,
            frame: 0x5000,
            rights: Rights::of_number(255),
        },
        Area {
            first: 0xffff_8000_0000_0000,
            last: 0xffff_8000_001f_ffff,
            frame: 0x4000_0000,
            rights: Rights::of_number(216),
        },
    ]?;
    Ok(Answer::Listed(Areas::from_vec(areas)))
}

/// A finding, whose excess is writes of the user and implicit ones.
fn one_finding(alloc: Global) -> Result<Answer, AllocError> {
    let findings = vec![in alloc;
        Finding {
            cpu: u32::MAX,
            pcid: 4095,
            page: 0x7fff_ffff_f000,
            frame: 0x6000,
            excess: Rights::of_number(130),
        },
    ]?;
    Ok(Answer::Verdict(Findings::from_vec(findings)))
}

fn writes(
    rt: &impl Abort,
    alloc: Global,
    buffer: &mut LineBuffer,
    answer: &Answer,
    i: u64,
    expected: &str,
) -> Result<(), Fail> {
    assert!(rt; i < line_count(answer));
    write_line(buffer, answer, i);
    assert_eq!(rt; buffer.bytes(), expected.as_bytes());
    let fresh = line(alloc, answer, i)?;
    assert_eq!(rt; fresh.as_slice(), expected.as_bytes());
    Ok(())
}

fn refuses_core(rt: &impl Abort, alloc: Global, fault: CoreFault) -> Result<(), Fail> {
    let line = core_refusal(alloc, &fault)?;
    let printed = format!(in alloc; "core refused: {fault}\n")?;
    assert_eq!(rt; line.as_slice(), printed.as_bytes());
    Ok(())
}

fn refuses_line(rt: &impl Abort, alloc: Global, cause: Cause) -> Result<(), Fail> {
    let line = log_refusal(alloc, 12, &cause)?;
    let printed = format!(in alloc; "line 12 refused: {cause}\n")?;
    assert_eq!(rt; line.as_slice(), printed.as_bytes());
    Ok(())
}
