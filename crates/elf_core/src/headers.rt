//! The file header and the program headers.

ghost use Rattle.std.specs.Prelude.{◌≡◌, ◌+◌, ◌*◌, ◌<◌, ◌≤◌, length, option_map, IsTrue, ◌↔◌, OnOk, IfOk, IfErr, IfSome, Result, Ok, Err};
ghost use Rattle.paging_model.specs.Memory.{IsPlaced};
ghost use Rattle.elf_core.specs.Extents.{extent};
ghost use Rattle.elf_core.specs.FileHeader.{kind_check, table_check, file_header_check, e_phoff, e_phnum};
ghost use Rattle.elf_core.specs.ProgramHeaders.{program_header_at, program_header, is_skipped_header, is_in_file, is_below_the_width, contents, segment_of, notes_of};

use crate::faults::CoreFault;
use crate::fields::{half_at, word_at, xword_at};
use crate::segment::Segment;

/// The bytes of the file header.
const FILE_HEADER_SIZE: usize = 64;
/// The bytes of one program header.
const PROGRAM_HEADER_SIZE: u16 = 56;

/// The offset of the class in the file header.
const EI_CLASS: usize = 4;
/// The offset of the data encoding in the file header.
const EI_DATA: usize = 5;
/// The offset of the type in the file header.
const E_TYPE: usize = 16;
/// The offset of the machine in the file header.
const E_MACHINE: usize = 18;
/// The offset, in the file header, of the file offset of the program headers.
const E_PHOFF: usize = 32;
/// The offset of the size of a program header in the file header.
const E_PHENTSIZE: usize = 54;
/// The offset of the count of program headers in the file header.
const E_PHNUM: usize = 56;

/// The offset of the type in a program header.
const P_TYPE: usize = 0;
/// The offset, in a program header, of the file offset of its bytes.
const P_OFFSET: usize = 8;
/// The offset of the physical address in a program header.
const P_PADDR: usize = 24;
/// The offset, in a program header, of the count of its bytes in the file.
const P_FILESZ: usize = 32;

/// The first bytes of every ELF file.
const MAGIC: [u8; 4] = *b"\x7fELF";
/// The 64-bit class.
const CLASS_64: u8 = 2;
/// Little-endian.
const LITTLE_ENDIAN: u8 = 1;
/// e_type of a core.
const TYPE_CORE: u16 = 4;
/// e_machine of x86-64.
const MACHINE_X86_64: u16 = 62;
/// e_phnum where the count of program headers stands elsewhere.
const COUNT_ELSEWHERE: u16 = 0xffff;
/// p_type of memory.
pub const PT_LOAD: u32 = 1;
/// p_type of notes.
pub const PT_NOTE: u32 = 4;
/// p_paddr where there is no physical address.
const NO_ADDRESS: u64 = u64::MAX;
/// The end of physical memory at the greatest width.
const MEMORY_END: u64 = 1 << 52;

/// Whether a range of so many items from a start on ends at an end or before it.
fn ends_within(end: u64, start: u64, size: u64) -> bool
    ensures { IsTrue result ↔ (start + size ≤ end) }
{
    start <= end && size <= end - start
}

/// Whether the file is a little-endian core of a 64-bit x86 machine.
#[tactic(auto, unfolding(crate::specs::FileHeader::kind_check))]
fn check_kind(bytes: &[u8]) -> Result<(), CoreFault>
    ensures value { result ≡ kind_check bytes.now }
    ensures long { OnOk result (64 ≤ length bytes.now) }
{
    if bytes.len() < FILE_HEADER_SIZE {
        return Err(CoreFault::Short);
    }
    if !bytes.starts_with(&MAGIC) {
        return Err(CoreFault::NotElf);
    }
    if bytes[EI_CLASS] != CLASS_64 {
        return Err(CoreFault::Class);
    }
    if bytes[EI_DATA] != LITTLE_ENDIAN {
        return Err(CoreFault::Encoding);
    }
    if half_at(bytes, E_TYPE) != TYPE_CORE {
        return Err(CoreFault::FileType);
    }
    if half_at(bytes, E_MACHINE) != MACHINE_X86_64 {
        return Err(CoreFault::FileMachine);
    }
    Ok(())
}

/// Whether the program headers lie in the file.
#[tactic(auto, unfolding(crate::specs::FileHeader::table_check))]
fn check_table(bytes: &[u8]) -> Result<(), CoreFault>
    requires { 64 ≤ length bytes.now }
    ensures value { result ≡ table_check bytes.now }
    ensures headers { OnOk result (e_phoff bytes.now + 56 * e_phnum bytes.now ≤ length bytes.now) }
{
    if half_at(bytes, E_PHENTSIZE) != PROGRAM_HEADER_SIZE {
        return Err(CoreFault::HeaderSize);
    }
    let count = half_at(bytes, E_PHNUM);
    if count == COUNT_ELSEWHERE {
        return Err(CoreFault::HeaderCount);
    }
    let size = PROGRAM_HEADER_SIZE as u64 * count as u64;
    if !ends_within(bytes.len() as u64, xword_at(bytes, E_PHOFF), size) {
        return Err(CoreFault::HeaderRange);
    }
    Ok(())
}

/// Whether the file header is that of a little-endian core of a 64-bit x86 machine, with its program headers in the
/// file.
///
/// # Errors
///
/// The first rule that the header breaks.
#[tactic(auto, unfolding(crate::specs::FileHeader::file_header_check))]
pub fn check_file_header(bytes: &[u8]) -> Result<(), CoreFault>
    ensures value { result ≡ file_header_check bytes.now }
    ensures long { OnOk result (64 ≤ length bytes.now) }
    ensures headers { OnOk result (e_phoff bytes.now + 56 * e_phnum bytes.now ≤ length bytes.now) }
{
    check_kind(bytes)?;
    check_table(bytes)
}

/// How many program headers there are by the file header.
pub fn header_count(bytes: &[u8]) -> u16
    requires { 64 ≤ length bytes.now }
    ensures { result ≡ e_phnum bytes.now }
{
    half_at(bytes, E_PHNUM)
}

/// What is read of a program header.
#[derive(Clone, Copy, Debug, PartialEq, Eq)]
pub struct ProgramHeader {
    /// p_type.
    pub kind: u32,
    /// p_offset: the offset of its bytes in the file.
    pub offset: u64,
    /// p_paddr: the physical address of its first byte.
    pub physical: u64,
    /// p_filesz: how many bytes it has in the file.
    pub file_size: u64,
}

/// Reads the program header at an offset.
fn program_header_at(bytes: &[u8], offset: usize) -> ProgramHeader
    requires { offset + 56 ≤ length bytes.now }
    ensures { result ≡ program_header_at bytes.now offset }
{
    ProgramHeader {
        kind: word_at(bytes, offset + P_TYPE),
        offset: xword_at(bytes, offset + P_OFFSET),
        physical: xword_at(bytes, offset + P_PADDR),
        file_size: xword_at(bytes, offset + P_FILESZ),
    }
}

/// Reads the program header of an index, from 0 on.
pub fn program_header(bytes: &[u8], index: u16) -> ProgramHeader
    requires long { 64 ≤ length bytes.now }
    requires headers { e_phoff bytes.now + 56 * e_phnum bytes.now ≤ length bytes.now }
    requires index { index < e_phnum bytes.now }
    ensures { result ≡ program_header bytes.now index }
{
    let table = xword_at(bytes, E_PHOFF) as usize;
    program_header_at(bytes, table + PROGRAM_HEADER_SIZE as usize * index as usize)
}

impl ProgramHeader {
    /// Whether the header is one of memory that says nothing: without bytes in the file, or without an address.
    fn is_skipped(&self) -> bool
        ensures { result ≡ is_skipped_header self.now }
    {
        self.file_size == 0 || self.physical == NO_ADDRESS
    }

    /// Whether all bytes of the header lie in the file.
    fn is_in_file(&self, bytes: &[u8]) -> bool
        ensures { result ≡ is_in_file bytes.now self.now }
    {
        ends_within(bytes.len() as u64, self.offset, self.file_size)
    }

    /// Whether the memory that the header places ends within the greatest physical width, of 52 bits.
    fn is_below_the_width(&self) -> bool
        ensures { result ≡ is_below_the_width self.now }
    {
        ends_within(MEMORY_END, self.physical, self.file_size)
    }

    /// The header's bytes, borrowed from the file's.
    fn contents<'a>(&self, bytes: &'a [u8]) -> &'a [u8]
        requires { self.now.offset + self.now.file_size ≤ length bytes.now }
        ensures { result.now ≡ contents bytes.now self.now }
    {
        let start = self.offset as usize;
        &bytes[start..start + self.file_size as usize]
    }

    /// The segment of memory that the header places. There is none where it is skipped.
    ///
    /// # Errors
    ///
    /// The segment passes the end of the file, or else the greatest physical width.
    #[tactic(auto, unfolding(crate::specs::ProgramHeaders::segment_of))]
    pub fn segment<'a>(&self, bytes: &'a [u8], index: u16) -> Result<Option<Segment<'a>>, CoreFault>
        ensures ok { IfOk result (λ segment.
            segment_of bytes.now index self.now ≡ Ok (option_map extent segment)) }
        ensures refused { IfErr result (λ fault. segment_of bytes.now index self.now ≡ Err fault) }
        ensures placed { IfOk result
            (λ segment. IfSome segment (λ segment. IsPlaced (extent segment))) }
    {
        if self.is_skipped() {
            return Ok(None);
        }
        if !self.is_in_file(bytes) {
            return Err(CoreFault::SegmentRange(index));
        }
        if !self.is_below_the_width() {
            return Err(CoreFault::SegmentAddress(index));
        }
        Ok(Some(Segment {
            phys: self.physical,
            bytes: self.contents(bytes),
        }))
    }

    /// The bytes of the notes that the header names.
    ///
    /// # Errors
    ///
    /// They pass the end of the file.
    #[tactic(auto, unfolding(crate::specs::ProgramHeaders::notes_of))]
    pub fn notes<'a>(&self, bytes: &'a [u8], index: u16) -> Result<&'a [u8], CoreFault>
        ensures ok { IfOk result (λ notes. notes_of bytes.now index self.now ≡ Ok notes.now) }
        ensures refused { IfErr result (λ fault. notes_of bytes.now index self.now ≡ Err fault) }
    {
        if self.file_size == 0 {
            return Ok(&[]);
        }
        if !self.is_in_file(bytes) {
            return Err(CoreFault::NoteRange(index));
        }
        Ok(self.contents(bytes))
    }
}
