//! The bytes of the core, field by field. Numbers are little-endian.

ghost use Rattle.std.specs.Prelude.{◌≡◌, ◌++◌, IfOk, OnOk, length};
ghost use Rattle.elf_core.specs.StateNotes.{owner};
ghost use Rattle.image_gen.specs.GeneratedCore.{file_header, generated_core, half, headers, machine_description, memory_bytes, processor_description, program_header_bytes, stands_at, state_note, word, xword, zero_bytes};

use crate::tables::{PAGE_SIZE, ROOT, open_entry, page, table};
use std::alloc::{AllocError, Global};

/// The bytes of memory, from physical address 0 on.
const MEMORY_SIZE: u64 = 0x10_0000;
/// The bytes of an entry, and of a slot of memory.
const SLOT_SIZE: u64 = 8;
/// The name of the owner of state notes.
const OWNER: [u8; 10] = *b"X86RIGHTS\0";

/// The file of the core.
pub(crate) fn core_bytes(alloc: Global) -> Result<Vec<u8>, AllocError>
    ensures { IfOk result (λ bytes. bytes.items ≡ generated_core) }
{
    let mut bytes = Vec::new(alloc);
    add_headers(&mut bytes)?;
    add_memory(&mut bytes)?;
    Ok(bytes)
}

/// Adds all that stands before memory.
fn add_headers(bytes: &mut Vec<u8>) -> Result<(), AllocError>
    ensures { OnOk result (bytes.new.items ≡ bytes.old.items ++ headers) }
{
    add_file_header(bytes)?;
    add_program_header(bytes, 4, 176, 208)?;
    add_program_header(bytes, 1, 384, MEMORY_SIZE)?;
    add_machine(bytes)?;
    add_processor(bytes, 0)?;
    add_processor(bytes, 1)
}

/// Adds the file header of a core with two program headers, from 64 on.
fn add_file_header(bytes: &mut Vec<u8>) -> Result<(), AllocError>
    ensures { OnOk result (bytes.new.items ≡ bytes.old.items ++ file_header) }
{
    bytes.extend_from_slice(b"\x7fELF\x02\x01")?;
    add_zeros(bytes, 10)?;
    add_half(bytes, 4)?;
    add_half(bytes, 62)?;
    add_zeros(bytes, 12)?;
    add_xword(bytes, 64)?;
    add_zeros(bytes, 14)?;
    add_half(bytes, 56)?;
    add_half(bytes, 2)?;
    add_zeros(bytes, 6)
}

/// Adds a program header: its type, and where its bytes stand in the file.
fn add_program_header(
    bytes: &mut Vec<u8>,
    kind: u32,
    offset: u64,
    size: u64,
) -> Result<(), AllocError>
    ensures { OnOk result
        (bytes.new.items ≡ bytes.old.items ++ program_header_bytes kind offset size) }
{
    add_word(bytes, kind)?;
    add_zeros(bytes, 4)?;
    add_xword(bytes, offset)?;
    add_zeros(bytes, 16)?;
    add_xword(bytes, size)?;
    add_zeros(bytes, 16)?;
    Ok(())
}

/// Adds what a state note has before its description: its type, and the length of the description.
fn add_note_header(bytes: &mut Vec<u8>, kind: u32, size: u32) -> Result<(), AllocError>
    ensures { OnOk result (bytes.new.items
        ≡ bytes.old.items
        ++ (word (length owner) ++ word size ++ word kind ++ owner ++ zero_bytes 2)) }
{
    add_word(bytes, OWNER.len() as u32)?;
    add_word(bytes, size)?;
    add_word(bytes, kind)?;
    bytes.extend_from_slice(&OWNER)?;
    add_zeros(bytes, 2)?;
    Ok(())
}

/// Adds the note of the machine: physical addresses of 40 bits, and pages of 1 GByte.
fn add_machine(bytes: &mut Vec<u8>) -> Result<(), AllocError>
    ensures { OnOk result (bytes.new.items ≡ bytes.old.items ++ state_note 1 machine_description) }
{
    add_note_header(bytes, 1, 8)?;
    add_word(bytes, 40)?;
    add_word(bytes, 1)
}

/// Adds the note of a processor, by its number: paging of four levels, and no PCIDs.
fn add_processor(bytes: &mut Vec<u8>, number: u32) -> Result<(), AllocError>
    ensures { OnOk result
        (bytes.new.items ≡ bytes.old.items ++ state_note 2 (processor_description number)) }
{
    add_note_header(bytes, 2, 64)?;
    add_word(bytes, number)?;
    add_zeros(bytes, 4)?;
    add_xword(bytes, 0x8001_0001)?;
    add_xword(bytes, ROOT)?;
    add_xword(bytes, 0x20)?;
    add_xword(bytes, 0xd00)?;
    add_xword(bytes, 0x2)?;
    add_word(bytes, 0)?;
    add_word(bytes, 0)?;
    add_zeros(bytes, 8)
}

/// Adds the bytes of memory.
fn add_memory(bytes: &mut Vec<u8>) -> Result<(), AllocError>
    ensures { OnOk result (bytes.new.items ≡ bytes.old.items ++ memory_bytes) }
{
    for index in 0..MEMORY_SIZE / SLOT_SIZE {
        add_xword(bytes, stands_at(SLOT_SIZE * index))?;
    }
    Ok(())
}

/// What a slot of memory holds, by its address: an entry, or zeros.
fn stands_at(address: u64) -> u64
    ensures { result ≡ stands_at address }
{
    match address {
        ROOT => open_entry(0x2000),
        0x2000 => open_entry(0x3000),
        0x3000..=0x307f => open_entry(table(((address - 0x3000) / SLOT_SIZE) as u32)),
        0x1_0000..=0x1_ffff => {
            let i = (address - 0x1_0000) / PAGE_SIZE;
            let j = address % PAGE_SIZE / SLOT_SIZE;
            open_entry(page(i as u32, j as u32))
        }
        _ => 0,
    }
}

/// Adds a field of 2 bytes.
fn add_half(bytes: &mut Vec<u8>, number: u16) -> Result<(), AllocError>
    ensures { OnOk result (bytes.new.items ≡ bytes.old.items ++ half number) }
{
    bytes.extend_from_slice(&number.to_le_bytes())
}

/// Adds a field of 4 bytes.
fn add_word(bytes: &mut Vec<u8>, number: u32) -> Result<(), AllocError>
    ensures { OnOk result (bytes.new.items ≡ bytes.old.items ++ word number) }
{
    bytes.extend_from_slice(&number.to_le_bytes())
}

/// Adds a field of 8 bytes.
fn add_xword(bytes: &mut Vec<u8>, number: u64) -> Result<(), AllocError>
    ensures { OnOk result (bytes.new.items ≡ bytes.old.items ++ xword number) }
{
    bytes.extend_from_slice(&number.to_le_bytes())
}

/// Adds so many bytes that are 0.
fn add_zeros(bytes: &mut Vec<u8>, count: u8) -> Result<(), AllocError>
    ensures { OnOk result (bytes.new.items ≡ bytes.old.items ++ zero_bytes count) }
{
    let length = bytes.len() + usize::from(count);
    bytes.resize(length, 0)
}
