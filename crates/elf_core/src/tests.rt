//! Cores built by hand, field by field.

use super::*;
use crate::headers::ProgramHeader;
use crate::stretches::stretch_by_scan;
use paging_model::registers::{Machine, Processor, RegRule};
use std::alloc::{AllocError, Global};
use std::test::Fail;
use test_support::cores::{FILE_HEADER, example_core, example_core_with};
use test_support::fields::{put, put_all};
use test_support::registers::REGS;

/// Changes of one field after which the example core is refused: offset, size in bytes, value, and why.
const REFUSED: [(usize, usize, u64, CoreFault); 33] = [
    // The file header.
    (0, 1, 0x7e, CoreFault::NotElf),
    (3, 1, 0x47, CoreFault::NotElf),
    (4, 1, 1, CoreFault::Class),
    (5, 1, 2, CoreFault::Encoding),
    (16, 2, 3, CoreFault::FileType),
    (16, 2, 0x104, CoreFault::FileType),
    (18, 2, 3, CoreFault::FileMachine),
    (54, 2, 57, CoreFault::HeaderSize),
    (56, 2, 0xffff, CoreFault::HeaderCount),
    (56, 2, 0xfffe, CoreFault::HeaderRange),
    (32, 8, 65_721, CoreFault::HeaderRange),
    // A sum that 64 bits don't hold.
    (32, 8, 0xffff_ffff_ffff_ff90, CoreFault::HeaderRange),
    // The program header of the segment.
    (128, 8, 297, CoreFault::SegmentRange(1)),
    (128, 8, 0xffff_ffff_ffff_0000, CoreFault::SegmentRange(1)),
    (144, 8, 0xf_ffff_ffff_0001, CoreFault::SegmentAddress(1)),
    (144, 8, 0xffff_ffff_ffff_fffe, CoreFault::SegmentAddress(1)),
    // The program header of the notes.
    (72, 8, 65_713, CoreFault::NoteRange(0)),
    (72, 8, 0xffff_ffff_ffff_ffff, CoreFault::NoteRange(0)),
    // The note of the machine.
    (176, 4, 109, CoreFault::NoteRange(0)),
    (180, 4, 97, CoreFault::NoteRange(0)),
    (180, 4, 96, CoreFault::NoteState(0, NoteRule::Size)),
    (184, 4, 3, CoreFault::NoteState(0, NoteRule::Kind)),
    (200, 4, 31, CoreFault::NoteState(0, NoteRule::Range)),
    (200, 4, 53, CoreFault::NoteState(0, NoteRule::Range)),
    (204, 4, 2, CoreFault::NoteState(0, NoteRule::Range)),
    // The note of the processor.
    (212, 4, 60, CoreFault::NoteState(0, NoteRule::Size)),
    (236, 4, 1, CoreFault::NoteState(0, NoteRule::Zero)),
    (295, 1, 1, CoreFault::NoteState(0, NoteRule::Zero)),
    (
        240,
        8,
        1,
        CoreFault::NoteState(0, NoteRule::Regs(RegRule::PagingOff)),
    ),
    (
        264,
        8,
        0x100,
        CoreFault::NoteState(0, NoteRule::Regs(RegRule::NotLong)),
    ),
    (
        256,
        8,
        0,
        CoreFault::NoteState(0, NoteRule::Regs(RegRule::NoPae)),
    ),
    (
        248,
        8,
        1 << 40,
        CoreFault::NoteState(0, NoteRule::Regs(RegRule::Cr3Reserved)),
    ),
    (
        248,
        8,
        1 << 63,
        CoreFault::NoteState(0, NoteRule::Regs(RegRule::Cr3Reserved)),
    ),
];

/// Changes of one byte in fields that aren't checked: e_entry, p_flags, p_memsz, p_align, padding, RFLAGS.CF, CR4.PGE.
const NOT_CHECKED: [(usize, u64); 9] = [
    (6, 1),
    (24, 1),
    (68, 7),
    (160, 7),
    (168, 7),
    (198, 7),
    (231, 7),
    (272, 0x3),
    (256, 0xa0),
];

/// A file of these program headers from 64 on, and of these bytes after them.
fn file_of(alloc: Global, headers: &[ProgramHeader], bytes: &[u8]) -> Result<Vec<u8>, AllocError> {
    let mut file = vec![in alloc; 0; 64]?;
    put_all(&mut file, &FILE_HEADER);
    put(&mut file, (56, 2, headers.len() as u64));
    for header in headers {
        let mut fields = [0; 56];
        put(&mut fields, (0, 4, header.kind as u64));
        put(&mut fields, (8, 8, header.offset));
        put(&mut fields, (24, 8, header.physical));
        put(&mut fields, (32, 8, header.file_size));
        file.extend_from_slice(&fields)?;
    }
    file.extend_from_slice(bytes)?;
    Ok(file)
}

/// A file of these notes alone, under its only program header.
fn file_of_notes(alloc: Global, notes: &[u8]) -> Result<Vec<u8>, AllocError> {
    let header = ProgramHeader {
        kind: 4,
        offset: 120,
        physical: 0,
        file_size: notes.len() as u64,
    };
    file_of(alloc, &[header], notes)
}

/// Adds a note, with padding after its name and its description.
fn add_note(
    notes: &mut Vec<u8>,
    name: &[u8],
    kind: u64,
    description: &[u8],
) -> Result<(), AllocError> {
    let mut fields = [0; 12];
    put(&mut fields, (0, 4, name.len() as u64));
    put(&mut fields, (4, 4, description.len() as u64));
    put(&mut fields, (8, 4, kind));
    notes.extend_from_slice(&fields)?;
    for part in [name, description] {
        notes.extend_from_slice(part)?;
        notes.extend_from_slice(&[0; 3][(part.len() + 3) % 4..])?;
    }
    Ok(())
}

/// Adds a state note of a machine.
fn add_machine(notes: &mut Vec<u8>, m: u64, big: u64) -> Result<(), AllocError> {
    let mut description = [0; 8];
    put(&mut description, (0, 4, m));
    put(&mut description, (4, 4, big));
    add_note(notes, b"X86RIGHTS\0", 1, &description)
}

/// Adds a state note of a processor.
fn add_processor(notes: &mut Vec<u8>, number: u64, cr3: u64) -> Result<(), AllocError> {
    let mut description = [0; 64];
    put(&mut description, (0, 4, number));
    put(&mut description, (8, 8, REGS.cr0));
    put(&mut description, (16, 8, cr3));
    put(&mut description, (24, 8, REGS.cr4));
    put(&mut description, (32, 8, REGS.efer));
    add_note(notes, b"X86RIGHTS\0", 2, &description)
}

#[test]
fn reads_the_example(rt: HostRuntime) -> Result<(), Fail> {
    let file = example_core(rt.alloc())?;
    let core = parse(rt.alloc(), &file)?;
    assert!(rt; core.stated);
    assert_eq!(rt; core.machine, Machine { m: 40, big: true });
    assert_eq!(rt;
        core.processors.as_slice(),
        [Processor {
            number: 0,
            regs: REGS
        }]
        .as_slice()
    );
    let segments = core.segments.as_slice();
    assert_eq!(rt; segments.len(), 1);
    assert_eq!(rt; segments[0].phys, 0);
    assert_eq!(rt; segments[0].bytes.len(), 65_536);
    assert_eq!(rt; segments[0].bytes[0x1000], 0x07);
    assert_eq!(rt; segments[0].bytes[0x1001], 0x20);
    assert_eq!(rt; segments[0].bytes[0x4008], 0x05);
    Ok(())
}

#[test]
fn keeps_each_register(rt: HostRuntime) -> Result<(), Fail> {
    let mut file = example_core_with(
        rt.alloc(),
        &[
            (144, 8, 0xf_ffff_ffff_0000),
            (200, 8, 52),
            (240, 8, 0xffff_ffff_8000_0001),
            (248, 8, 0x6fff_ffff_ffff_ffff),
            (256, 8, 0xffff_ffff_ffff_ffff),
            (264, 8, 0x500),
            (272, 8, 0x4_0000),
            (280, 8, 0x0000_0002_0000_0001),
        ],
    )?;
    let core = parse(rt.alloc(), &file);
    assert_eq!(rt;
        core.err(),
        Some(CoreFault::NoteState(0, NoteRule::Regs(RegRule::Cr3Reserved)))
    );
    put(&mut file, (248, 8, 0x600f_ffff_ffff_ffff));
    let core = parse(rt.alloc(), &file)?;
    assert_eq!(rt; core.machine, Machine { m: 52, big: false });
    let processors = core.processors.as_slice();
    assert_eq!(rt; processors.len(), 1);
    let regs = processors[0].regs;
    assert_eq!(rt; regs.cr0, 0xffff_ffff_8000_0001);
    assert_eq!(rt; regs.cr3, 0x600f_ffff_ffff_ffff);
    assert_eq!(rt; regs.cr4, 0xffff_ffff_ffff_ffff);
    assert_eq!(rt; regs.efer, 0x500);
    assert!(rt; regs.ac);
    assert_eq!(rt; (regs.pkru, regs.pkrs), (1, 2));
    let segments = core.segments.as_slice();
    assert_eq!(rt; segments.len(), 1);
    assert_eq!(rt; segments[0].phys, 0xf_ffff_ffff_0000);
    Ok(())
}

#[test]
fn refuses_by_the_first_rule(rt: HostRuntime) -> Result<(), Fail> {
    for (offset, size, value, fault) in REFUSED {
        let file = example_core_with(rt.alloc(), &[(offset, size, value)])?;
        let refusal = parse(rt.alloc(), &file).err();
        assert_eq!(rt; refusal, Some(fault), "{value:#x} at {offset}");
    }
    for (offset, value) in NOT_CHECKED {
        let file = example_core_with(rt.alloc(), &[(offset, 1, value)])?;
        let refusal = parse(rt.alloc(), &file).err();
        assert_eq!(rt; refusal, None, "{value:#x} at {offset}");
    }
    // The segment is out of both ranges.
    let file = example_core_with(rt.alloc(), &[(128, 8, 297), (144, 8, 1 << 52)])?;
    assert_eq!(rt;
        parse(rt.alloc(), &file).err(),
        Some(CoreFault::SegmentRange(1))
    );
    Ok(())
}

#[test]
fn refuses_truncated_files(rt: HostRuntime) -> Result<(), Fail> {
    for (length, fault) in [
        (0, CoreFault::Short),
        (63, CoreFault::Short),
        (100, CoreFault::HeaderRange),
        (175, CoreFault::HeaderRange),
        (176, CoreFault::NoteRange(0)),
        (65_831, CoreFault::SegmentRange(1)),
    ] {
        let mut file = example_core(rt.alloc())?;
        file.truncate(length);
        let refusal = parse(rt.alloc(), &file).err();
        assert_eq!(rt; refusal, Some(fault), "{length} bytes");
    }
    Ok(())
}

#[test]
fn skips_what_says_nothing(rt: HostRuntime) -> Result<(), Fail> {
    let mut bytes = Vec::new(rt.alloc());
    add_note(&mut bytes, b"CORE\0", 1, &[0; 8])?;
    add_note(&mut bytes, b"QEMU\0", 0, &[0; 8])?;
    assert_eq!(rt; bytes.len(), 56);
    for value in [0, 0xff] {
        let memory = vec![in rt.alloc(); value; 65_536]?;
        bytes.extend_from_slice(&memory)?;
    }
    let notes = ProgramHeader {
        kind: 4,
        offset: 288,
        physical: 0,
        file_size: 56,
    };
    let first = ProgramHeader {
        kind: 1,
        offset: 344,
        physical: 0,
        file_size: 65_536,
    };
    let second = ProgramHeader {
        kind: 1,
        offset: 65_880,
        physical: 0x8000,
        file_size: 65_536,
    };
    let without_bytes = ProgramHeader {
        kind: 1,
        offset: u64::MAX,
        physical: 0x10_0000,
        file_size: 0,
    };
    let without_address = ProgramHeader {
        kind: 1,
        offset: u64::MAX,
        physical: u64::MAX,
        file_size: 1,
    };
    let without_notes = ProgramHeader {
        kind: 4,
        offset: u64::MAX,
        physical: 0,
        file_size: 0,
    };
    let foreign = ProgramHeader {
        kind: 6,
        offset: u64::MAX,
        physical: 0,
        file_size: 1,
    };
    let mut file = file_of(rt.alloc(), &[notes, first, second, without_bytes], &bytes)?;
    put(&mut file, (64 + 3 * 56 + 40, 8, 0x1000));
    let core = parse(rt.alloc(), &file)?;
    assert!(rt; !core.stated);
    assert_eq!(rt; core.machine, Machine { m: 52, big: true });
    assert!(rt; core.processors.as_slice().is_empty());
    let segments = core.segments.as_slice();
    assert_eq!(rt; segments.len(), 2);
    assert_eq!(rt; (segments[0].phys, segments[1].phys), (0, 0x8000));
    assert_eq!(rt;
        (segments[0].bytes.len(), segments[1].bytes.len()),
        (65_536, 65_536)
    );
    assert_eq!(rt; (segments[0].bytes[0], segments[0].bytes[65_535]), (0, 0));
    assert_eq!(rt;
        (segments[1].bytes[0], segments[1].bytes[65_535]),
        (0xff, 0xff)
    );
    let file = file_of(rt.alloc(), &[without_address, without_notes, foreign], &[])?;
    let core = parse(rt.alloc(), &file)?;
    assert!(rt; core.segments.as_slice().is_empty());
    Ok(())
}

#[test]
fn reads_notes_to_their_end(rt: HostRuntime) -> Result<(), Fail> {
    // A name of six bytes, without a description and with less padding than it should have.
    let mut notes = Vec::new(rt.alloc());
    add_machine(&mut notes, 46, 0)?;
    add_note(&mut notes, b"VMCORE", 0, &[])?;
    notes.truncate(51);
    let file = file_of_notes(rt.alloc(), &notes)?;
    let core = parse(rt.alloc(), &file)?;
    assert_eq!(rt; core.machine, Machine { m: 46, big: false });
    // One byte of the name is missing.
    notes.truncate(49);
    let file = file_of_notes(rt.alloc(), &notes)?;
    assert_eq!(rt;
        parse(rt.alloc(), &file).err(),
        Some(CoreFault::NoteRange(0))
    );
    // Fewer bytes than the fields of a note.
    notes.truncate(43);
    let file = file_of_notes(rt.alloc(), &notes)?;
    assert_eq!(rt; parse(rt.alloc(), &file).err(), None);
    // Owners whose name begins alike, or lacks its NUL.
    let mut notes = Vec::new(rt.alloc());
    add_note(&mut notes, b"X86RIGHTS", 3, &[])?;
    add_note(&mut notes, b"X86RIGHTS\0\0", 3, &[1, 2, 3])?;
    add_note(&mut notes, b"", 3, &[1])?;
    add_processor(&mut notes, 7, 0x1000)?;
    let file = file_of_notes(rt.alloc(), &notes)?;
    let core = parse(rt.alloc(), &file)?;
    assert_eq!(rt;
        core.processors.as_slice(),
        [Processor {
            number: 7,
            regs: REGS
        }]
        .as_slice()
    );
    Ok(())
}

#[test]
fn states_each_thing_once(rt: HostRuntime) -> Result<(), Fail> {
    let mut notes = Vec::new(rt.alloc());
    add_machine(&mut notes, 40, 1)?;
    add_machine(&mut notes, 40, 1)?;
    let file = file_of_notes(rt.alloc(), &notes)?;
    let refusal = parse(rt.alloc(), &file).err();
    assert_eq!(rt; refusal, Some(CoreFault::NoteState(0, NoteRule::Twice)));
    let mut notes = Vec::new(rt.alloc());
    add_processor(&mut notes, 5, 0xf_ffff_ffff_f000)?;
    add_processor(&mut notes, 4, 0x1000)?;
    let file = file_of_notes(rt.alloc(), &notes)?;
    let core = parse(rt.alloc(), &file)?;
    assert_eq!(rt; core.stated, false);
    let processors = core.processors.as_slice();
    assert_eq!(rt; processors.len(), 2);
    assert_eq!(rt; (processors[0].number, processors[1].number), (5, 4));
    let mut late = notes.clone()?;
    add_machine(&mut late, 40, 1)?;
    let file = file_of_notes(rt.alloc(), &late)?;
    let refusal = parse(rt.alloc(), &file).err();
    assert_eq!(rt; refusal, Some(CoreFault::NoteState(0, NoteRule::Late)));
    add_processor(&mut notes, 5, 0)?;
    let file = file_of_notes(rt.alloc(), &notes)?;
    let refusal = parse(rt.alloc(), &file).err();
    assert_eq!(rt; refusal, Some(CoreFault::NoteState(0, NoteRule::Twice)));
    Ok(())
}

#[test]
fn takes_64_processors(rt: HostRuntime) -> Result<(), Fail> {
    let mut notes = Vec::new(rt.alloc());
    for number in 0..64 {
        add_processor(&mut notes, 1000 - number, 0x1000)?;
    }
    let file = file_of_notes(rt.alloc(), &notes)?;
    let core = parse(rt.alloc(), &file)?;
    assert_eq!(rt; core.processors.as_slice().len(), 64);
    // The 65th is refused after its number is checked, and before its registers.
    let mut one_more = notes.clone()?;
    add_processor(&mut one_more, 0, 1 << 60)?;
    let file = file_of_notes(rt.alloc(), &one_more)?;
    let refusal = parse(rt.alloc(), &file).err();
    assert_eq!(rt; refusal, Some(CoreFault::NoteState(0, NoteRule::TooMany)));
    add_processor(&mut notes, 1000, 0x1000)?;
    let file = file_of_notes(rt.alloc(), &notes)?;
    let refusal = parse(rt.alloc(), &file).err();
    assert_eq!(rt; refusal, Some(CoreFault::NoteState(0, NoteRule::Twice)));
    Ok(())
}

#[test]
fn reads_as_many_headers_as_there_may_be(rt: HostRuntime) -> Result<(), Fail> {
    let header = ProgramHeader {
        kind: 1,
        offset: 0,
        physical: 0x1000,
        file_size: 64,
    };
    let mut headers = vec![in rt.alloc(); header; 65_534]?;
    let file = file_of(rt.alloc(), &headers, &[])?;
    let core = parse(rt.alloc(), &file)?;
    assert_eq!(rt; core.segments.as_slice().len(), 65_534);
    headers.pop();
    headers.push(ProgramHeader {
        offset: u64::MAX,
        ..header
    })?;
    let file = file_of(rt.alloc(), &headers, &[])?;
    let refusal = parse(rt.alloc(), &file).err();
    assert_eq!(rt; refusal, Some(CoreFault::SegmentRange(65_533)));
    Ok(())
}

/// Segments that nest, touch, are equal and leave holes, in no order: too many to look at each.
#[test]
fn finds_stretches_as_a_scan_does(rt: HostRuntime) -> Result<(), Fail> {
    let mut headers = Vec::new(rt.alloc());
    let mut bytes = Vec::new(rt.alloc());
    for number in 0..200 {
        headers.push(ProgramHeader {
            kind: 1,
            offset: 64 + 200 * 56 + number,
            physical: number % 100 * 7919 % 1999,
            file_size: 1 + number % 100 % 23,
        })?;
        bytes.push(number as u8)?;
    }
    bytes.extend_from_slice(&[0xff; 23])?;
    let file = file_of(rt.alloc(), &headers, &bytes)?;
    let core = parse(rt.alloc(), &file)?;
    for at in 0..2100 {
        let found = core.segments.stretch(at);
        let scanned = stretch_by_scan(core.segments.as_slice(), at);
        let found = format!(in rt.alloc(); "{found:?}")?;
        assert_eq!(rt; found, format!(in rt.alloc(); "{scanned:?}")?);
    }
    Ok(())
}
