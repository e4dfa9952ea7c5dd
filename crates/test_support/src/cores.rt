//! Example cores, field by field.

use crate::fields::{Field, put_all};
use std::alloc::{AllocError, Global};

/// The length of the example core.
pub const SIZE: usize = 65_832;

/// The offset of the size of the machine's largest pages: 1 for 1-GByte pages.
pub const BIG: usize = 204;

/// The offset of CR3 in the note of the processor.
pub const CR3: usize = 248;

/// The offset of CR4 in the note of the processor.
pub const CR4: usize = 256;

/// The offset of the size of the segment.
pub const MEMORY_SIZE: usize = 152;

/// The offset of the segment, which has the bytes of memory from physical address 0 on.
pub const MEMORY: usize = 296;

/// The first eight bytes of a state note's owner, `X86RIGHT`.
const OWNER: u64 = 0x5448_4749_5236_3858;

/// The fields of a file header that aren't 0, of two program headers.
pub const FILE_HEADER: [Field; 8] = [
    (0, 4, 0x464c_457f),
    (4, 1, 2),
    (5, 1, 1),
    (16, 2, 4),
    (18, 2, 62),
    (32, 8, 64),
    (54, 2, 56),
    (56, 2, 2),
];

/// The fields of the example core after its file header that aren't 0.
const STATED: [Field; 23] = [
    // The program header of the notes.
    (64, 4, 4),
    (72, 8, 176),
    (96, 8, 120),
    // The program header of the segment.
    (120, 4, 1),
    (128, 8, MEMORY as u64),
    (MEMORY_SIZE, 8, 65_536),
    // The note of the machine.
    (176, 4, 10),
    (180, 4, 8),
    (184, 4, 1),
    (188, 8, OWNER),
    (196, 1, 0x53),
    (200, 4, 40),
    (BIG, 4, 1),
    // The note of the processor.
    (208, 4, 10),
    (212, 4, 64),
    (216, 4, 2),
    (220, 8, OWNER),
    (228, 1, 0x53),
    (240, 8, 0x8001_0001),
    (CR3, 8, 0x1000),
    (CR4, 8, 0x20),
    (264, 8, 0xd00),
    (272, 8, 0x2),
];

/// Page tables by physical address: they map the page 0x0 to 0x5000 and the page 0x1000 to 0x6000.
const TABLES: [Field; 5] = [
    (0x1000, 8, 0x2007),
    (0x2000, 8, 0x3007),
    (0x3000, 8, 0x4007),
    (0x4000, 8, 0x5007),
    (0x4008, 8, 0x6005),
];

/// The fields of the foreign core that aren't 0, but for its memory.
const FOREIGN: [Field; 22] = [
    (56, 2, 4),
    // The program header of the notes.
    (64, 4, 4),
    (72, 8, 288),
    (96, 8, 56),
    // The program header of the memory from 0 on.
    (120, 4, 1),
    (128, 8, 344),
    (152, 8, 65_536),
    // The program header of memory that overlaps it.
    (176, 4, 1),
    (184, 8, 65_880),
    (200, 8, 0x8000),
    (208, 8, 65_536),
    // The program header of memory without bytes.
    (232, 4, 1),
    (240, 8, u64::MAX),
    (256, 8, 0x10_0000),
    (272, 8, 0x1000),
    // A note of the owner `CORE`.
    (288, 4, 5),
    (292, 4, 8),
    (296, 4, 1),
    (300, 4, 0x4552_4f43),
    // A note of the owner `QEMU`.
    (316, 4, 5),
    (320, 4, 8),
    (328, 4, 0x554d_4551),
];

/// The example core: its notes state a machine of 40 bits with 1-GByte pages and processor 0, and its segment has page
/// tables.
pub fn example_core(alloc: Global) -> Result<Vec<u8>, AllocError> {
    example_core_with(alloc, &[])
}

/// The example core with other values of these fields.
pub fn example_core_with(alloc: Global, fields: &[Field]) -> Result<Vec<u8>, AllocError> {
    let mut core = vec![in alloc; 0; SIZE]?;
    put_all(&mut core, &FILE_HEADER);
    put_all(&mut core, &STATED);
    put_all(&mut core[MEMORY..], &TABLES);
    put_all(&mut core, fields);
    Ok(core)
}

/// A core that states nothing, of four program headers: foreign notes, the example's memory, memory of ones that
/// overlaps it, and memory without bytes.
pub fn foreign_core(alloc: Global) -> Result<Vec<u8>, AllocError> {
    let mut core = vec![in alloc; 0; 131_416]?;
    put_all(&mut core, &FILE_HEADER);
    put_all(&mut core, &FOREIGN);
    put_all(&mut core[344..65_880], &TABLES);
    core[65_880..].fill(0xff);
    Ok(core)
}
