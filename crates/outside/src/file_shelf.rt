//! A shelf over files that are opened by name.

ghost use Rattle.std.specs.Prelude.{◌≡◌, ◌≢◌, ◌≤◌, ℕ, List, length, drop, IfOk, OnErr, IsTrue, string_bytes};
ghost use Rattle.outside.specs.Count.{Rose, faults_after};
ghost use Rattle.outside.specs.Shelf.{has_bytes, Reads, reach_after};

use crate::opener::Opener;
use crate::shelf::{Failed, Shelf};
use std::alloc::Global;

/// The most bytes that a read gives: as many as the buffer has.
const PART: usize = 65_536;

/// Reads the files of an opener.
///
/// The file of the last name stays open until another is read. A read gives 65,536 bytes at most, by way of a buffer
/// that stands in the shelf.
#[derive(Drop)]
pub struct FileShelf<O: Opener> {
    alloc: Global,
    opener: O,
    open: Option<OpenFile<O>>,
    buffer: [u8; PART],
    faults: u64,
}

/// An open file and its name.
#[derive(Drop)]
struct OpenFile<O: Opener> {
    name: String,
    file: O::File,
    ghost matches: { IsTrue (O.is_named file (string_bytes name)) },
}

impl<O: Opener> FileShelf<O> {
    ghost use Rattle.outside.specs.FileShelf.{known_on, reach_on, read_fault_count};

    /// A shelf with no file open and no faults yet.
    pub fn new(alloc: Global, opener: O) -> FileShelf<O>
        ensures known { (n : List ℕ) → known_on result n ≡ O.known opener n }
        ensures reach { (n : List ℕ) → reach_on result n ≡ O.reach opener n }
        ensures faults { read_fault_count result ≡ 0 }
    {
        FileShelf {
            alloc,
            opener,
            open: None,
            buffer: [0; PART],
            faults: 0,
        }
    }

    /// Reads by the open file where it has this name, and else opens the file.
    ///
    /// Out of memory for the name, the file isn't kept open, and the next read opens it again.
    fn read_file(&mut self, name: &str, at: u64, into: &mut [u8]) -> Result<usize, Failed>
        ensures within { IfOk result (λ count. count ≤ length into.new) }
        ensures rest { IfOk result (λ count. drop count into.new ≡ drop count into.old) }
        ensures content { Reads (known_on self.old name.now) at result into.new }
        ensures known { (n : List ℕ) → known_on self.new n ≡ known_on self.old n }
        ensures reach { (bytes : List ℕ) → known_on self.old name.now ≡ has_bytes bytes
            → reach_on self.new name.now ≡ reach_after (reach_on self.old name.now) at result }
        ensures others { (n : List ℕ) → n ≢ name.now → reach_on self.new n ≡ reach_on self.old n }
        ensures faults { read_fault_count self.new ≡ read_fault_count self.old }
    {
        if let Some(open) = &self.open
            && open.name.as_str() == name
        {
            return read_part(&mut self.opener, &open.file, at, &mut self.buffer, into);
        }
        let file = self.opener.open(name)?;
        let count = read_part(&mut self.opener, &file, at, &mut self.buffer, into)?;
        if let Ok(name) = String::from_str(self.alloc, name) {
            self.open = Some(OpenFile { name, file });
        }
        Ok(count)
    }
}

/// Reads a file by way of a buffer: what the opener did to the rest of the buffer is unknown.
fn read_part<O: Opener>(
    opener: &mut O,
    file: &O::File,
    at: u64,
    buffer: &mut [u8; PART],
    into: &mut [u8],
) -> Result<usize, Failed>
    ensures within { IfOk result (λ count. count ≤ length into.new) }
    ensures rest { IfOk result (λ count. drop count into.new ≡ drop count into.old) }
    ensures content { (n : List ℕ) → IsTrue (O.is_named file.now n)
        → Reads (O.known opener.old n) at result into.new }
    ensures known { (n : List ℕ) → O.known opener.new n ≡ O.known opener.old n }
    ensures reach { (n bytes : List ℕ) → IsTrue (O.is_named file.now n)
        → O.known opener.old n ≡ has_bytes bytes
        → O.reach opener.new n ≡ reach_after (O.reach opener.old n) at result }
    ensures others { (n other : List ℕ) → IsTrue (O.is_named file.now n) → other ≢ n
        → O.reach opener.new other ≡ O.reach opener.old other }
{
    let room = buffer.len().min(into.len());
    let count = opener.read_at(file, at, &mut buffer[..room])?;
    into[..count].copy_from_slice(&buffer[..count]);
    Ok(count)
}

impl<O: Opener> Shelf for FileShelf<O> {
    ghost use Rattle.outside.specs.FileShelf.{known_on, reach_on, read_fault_count};

    ghost known = { known_on };

    ghost reach = { reach_on };

    ghost faults = { λ shelf _. read_fault_count shelf };

    ghost reach_within = { λ shelf. O.reach_within shelf.opener };

    fn read_at(&mut self, name: &str, at: u64, into: &mut [u8]) -> Result<usize, Failed>
        ensures within { IfOk result (λ count. count ≤ length into.new) }
        ensures rest { IfOk result (λ count. drop count into.new ≡ drop count into.old) }
        ensures content { Reads (known_on self.old name.now) at result into.new }
        ensures known { (n : List ℕ) → known_on self.new n ≡ known_on self.old n }
        ensures reach { (bytes : List ℕ) → known_on self.old name.now ≡ has_bytes bytes
            → reach_on self.new name.now ≡ reach_after (reach_on self.old name.now) at result }
        ensures others { (n : List ℕ) → n ≢ name.now → reach_on self.new n ≡ reach_on self.old n }
        ensures count { read_fault_count self.old ≤ read_fault_count self.new }
        ensures cause { OnErr result
            (Rose (read_fault_count self.old) (read_fault_count self.new)) }

        // One count serves every name, and moves at failures alone.
        ensures faults { read_fault_count self.new
            ≡ faults_after (read_fault_count self.old) result }
    {
        let result = self.read_file(name, at, into);
        if result.is_err() {
            self.faults = self.faults.saturating_add(1);
        }
        result
    }
}
