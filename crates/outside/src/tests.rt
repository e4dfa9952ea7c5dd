//! What no clause says: that calls succeed, and what the host's files and output do.

use crate::buffered::Buffered;
use crate::{
    Failed, FileShelf, HostFiles, MemShelf, MemSink, Opener, ReadFault, Shelf, Sink, WriterSink,
    read_all,
};
use std::alloc::{AllocError, Global};
use std::test::Fail;
use std::{fs, io};

/// A file that a test writes.
const PATH: &str = "outside-test-file";

/// A file with a name as long as that of `OTHER`.
const FIRST: &str = "outside-test-first";

/// A file with a name as long as that of `FIRST`.
const OTHER: &str = "outside-test-other";

/// More bytes than one piece of `read_all` has.
const TWO_PIECES: u32 = 300_000;

/// The most bytes that a read of a file gives.
const PART: usize = 65_536;

/// Files in memory, whose bytes are known.
#[derive(Drop)]
struct MemFiles {
    alloc: Global,
    shelf: MemShelf,
}

impl Opener for MemFiles {
    ghost use Rattle.std.specs.Prelude.{string_bytes};
    ghost use Rattle.std.specs.Str.{bytes_eq};
    ghost use Rattle.std.proofs.Common.{rules};
    ghost use Rattle.outside.specs.MemShelf.{known_in, reach_in};

    type File = String;

    ghost known = { λ files. known_in files.shelf };

    ghost reach = { λ files. reach_in files.shelf };

    ghost is_named = { λ file name. bytes_eq (string_bytes file) name };

    ghost reach_within = { Prim.search rules };

    fn open(&self, name: &str) -> Result<String, Failed> {
        String::from_str(self.alloc, name).map_err(|_| Failed)
    }

    fn read_at(&mut self, file: &String, at: u64, into: &mut [u8]) -> Result<usize, Failed> {
        self.shelf.read_at(file.as_str(), at, into)
    }
}

/// Bytes that repeat after a prime number of them.
fn pattern(alloc: Global, len: u32) -> Result<Vec<u8>, AllocError> {
    (0..len).map(|index| (index % 251) as u8).collect(alloc)
}

#[test]
fn reads_memory(rt: HostRuntime) -> Result<(), Fail> {
    let mut shelf = MemShelf::new(rt.alloc());
    shelf.add("core", &[1, 2, 3, 4, 5])?;
    let mut into = [9u8; 3];
    assert_eq!(rt; shelf.read_at("core", 1, &mut into), Ok(3));
    assert_eq!(rt; into, [2, 3, 4]);
    assert_eq!(rt; shelf.read_at("core", 4, &mut into), Ok(1));
    assert_eq!(rt; into, [5, 3, 4]);
    assert_eq!(rt; shelf.read_at("core", 5, &mut into), Ok(0));
    assert_eq!(rt; shelf.read_at("core", u64::MAX, &mut into), Ok(0));
    assert_eq!(rt; shelf.read_at("log", 0, &mut into), Err(Failed));
    shelf.add("core", &[6])?;
    assert_eq!(rt; shelf.read_at("core", 0, &mut into), Ok(1));
    assert_eq!(rt; into, [6, 3, 4]);
    Ok(())
}

#[test]
fn fails_listed_reads(rt: HostRuntime) -> Result<(), Fail> {
    let mut shelf = MemShelf::new(rt.alloc());
    shelf.add("core", &[1, 2])?;
    shelf.fail(2)?;
    let mut into = [0u8; 2];
    assert_eq!(rt; shelf.read_at("core", 0, &mut into), Ok(2));
    assert_eq!(rt; shelf.read_at("core", 0, &mut into), Err(Failed));
    assert_eq!(rt; shelf.read_at("core", 0, &mut into), Ok(2));
    Ok(())
}

#[test]
fn keeps_pieces(rt: HostRuntime) -> Result<(), Fail> {
    let mut sink = MemSink::new(rt.alloc());
    sink.fail(2, 2)?;
    sink.fail(2, 4)?;
    sink.fail(4, 9)?;
    assert_eq!(rt; sink.put(b"ab"), Ok(()));
    assert_eq!(rt; sink.put(b"cdef"), Err(Failed));
    assert_eq!(rt; sink.put(b"gh"), Ok(()));
    assert_eq!(rt; sink.put(b"ij"), Err(Failed));
    assert_eq!(rt; sink.bytes(), b"abcdghij".as_slice());
    Ok(())
}

#[test]
fn keeps_a_piece_of_4096_bytes(rt: HostRuntime) -> Result<(), Fail> {
    let piece = pattern(rt.alloc(), 4_096)?;
    let mut sink = MemSink::new(rt.alloc());
    assert_eq!(rt; sink.put(&piece), Ok(()));
    assert!(rt; sink.bytes() == piece.as_slice());
    Ok(())
}

#[test]
fn reads_up_to_a_limit(rt: HostRuntime) -> Result<(), Fail> {
    let content = [1u8, 2, 3, 4, 5, 6, 7, 8];
    let mut shelf = MemShelf::new(rt.alloc());
    shelf.add("log", &content)?;
    for (limit, len, cut) in [(0, 0, true), (7, 7, true), (8, 8, false), (9, 8, false)] {
        let whole = read_all(rt.alloc(), &mut shelf, "log", limit)?;
        assert!(rt; len <= 8);
        assert_eq!(rt; whole.bytes.as_slice(), &content[..len], "at {limit}");
        assert_eq!(rt; whole.cut, cut, "at {limit}");
    }
    let missing = read_all(rt.alloc(), &mut shelf, "core", 9);
    assert_eq!(rt; missing.err(), Some(ReadFault::Device));
    Ok(())
}

#[test]
fn fails_in_the_second_piece(rt: HostRuntime) -> Result<(), Fail> {
    let content = pattern(rt.alloc(), TWO_PIECES)?;
    let mut shelf = MemShelf::new(rt.alloc());
    shelf.add("core", &content)?;
    shelf.fail(2)?;
    let failed = read_all(rt.alloc(), &mut shelf, "core", u64::MAX);
    assert_eq!(rt; failed.err(), Some(ReadFault::Device));
    let whole = read_all(rt.alloc(), &mut shelf, "core", u64::MAX)?;
    assert!(rt; whole.bytes.as_slice() == content.as_slice());
    Ok(())
}

#[test]
fn reads_files(rt: HostRuntime) -> Result<(), Fail> {
    let content = pattern(rt.alloc(), TWO_PIECES)?;
    fs::write(&rt, PATH, content.as_slice())?;
    let mut shelf = FileShelf::new(rt.alloc(), HostFiles::new(rt));
    let whole = read_all(rt.alloc(), &mut shelf, PATH, u64::MAX)?;
    assert!(rt; whole.bytes.as_slice() == content.as_slice());
    assert!(rt; !whole.cut);
    let prefix = read_all(rt.alloc(), &mut shelf, PATH, 70_000)?;
    assert_eq!(rt; (prefix.bytes.len(), prefix.cut), (70_000, true));
    fs::remove_file(&rt, PATH)?;
    let missing = read_all(rt.alloc(), &mut shelf, "no/such/file", 1);
    assert_eq!(rt; missing.err(), Some(ReadFault::Device));
    let folder = read_all(rt.alloc(), &mut shelf, ".", 1);
    assert_eq!(rt; folder.err(), Some(ReadFault::Device));
    Ok(())
}

#[test]
fn reads_files_in_turn(rt: HostRuntime) -> Result<(), Fail> {
    let content = pattern(rt.alloc(), TWO_PIECES)?;
    let skipped = content.get(7..).unwrap_or(&[]);
    fs::write(&rt, FIRST, content.as_slice())?;
    fs::write(&rt, OTHER, skipped)?;
    let mut shelf = FileShelf::new(rt.alloc(), HostFiles::new(rt));
    let mut into = vec![in rt.alloc(); 0; 140_000]?;
    for (path, bytes, at) in [
        (FIRST, content.as_slice(), 0),
        (OTHER, skipped, 0),
        (FIRST, content.as_slice(), 100),
        (FIRST, content.as_slice(), 65_535),
        (OTHER, skipped, 65_536),
        (OTHER, skipped, 70_001),
        (FIRST, content.as_slice(), 299_990),
        (OTHER, skipped, 299_993),
    ] {
        let rest = bytes.get(at..).unwrap_or(&[]);
        let count = rest.len().min(PART);
        assert_eq!(rt;
            shelf.read_at(path, at as u64, &mut into),
            Ok(count),
            "{path} at {at}"
        );
        assert!(rt; into.get(..count) == rest.get(..count), "{path} at {at}");
    }
    fs::remove_file(&rt, FIRST)?;
    fs::remove_file(&rt, OTHER)?;
    Ok(())
}

#[test]
fn reads_an_openers_files_in_turn(rt: HostRuntime) -> Result<(), Fail> {
    let alloc = rt.alloc();
    let content = pattern(alloc, TWO_PIECES)?;
    let skipped = content.get(7..).unwrap_or(&[]);
    let mut shelf = MemShelf::new(alloc);
    shelf.add(FIRST, &content)?;
    shelf.add(OTHER, skipped)?;
    shelf.fail(3)?;
    let mut shelf = FileShelf::new(alloc, MemFiles { alloc, shelf });
    let first = read_all(alloc, &mut shelf, FIRST, 9)?;
    assert!(rt; Some(first.bytes.as_slice()) == content.get(..9));
    let failed = read_all(alloc, &mut shelf, OTHER, u64::MAX);
    assert_eq!(rt; failed.err(), Some(ReadFault::Device));
    let other = read_all(alloc, &mut shelf, OTHER, u64::MAX)?;
    assert!(rt; other.bytes.as_slice() == skipped);
    let missing = read_all(alloc, &mut shelf, PATH, 1);
    assert_eq!(rt; missing.err(), Some(ReadFault::Device));
    Ok(())
}

#[test]
fn buffers_pieces(rt: HostRuntime) -> Result<(), Fail> {
    let piece = pattern(rt.alloc(), 40_000)?;
    let mut written = Vec::new(rt.alloc());
    let mut buffered = Buffered::new(rt.alloc());
    for (piece, len) in [
        (piece.as_slice(), 0),
        (piece.as_slice(), 80_000),
        (b"end", 80_000),
    ] {
        assert_eq!(rt; buffered.add(piece, &mut written), Ok(()));
        assert_eq!(rt; written.len(), len);
    }
    assert_eq!(rt; buffered.write(&mut written), Ok(()));
    assert_eq!(rt; written.len(), 80_003);
    Ok(())
}

#[test]
fn writes_what_was_put(rt: HostRuntime) -> Result<(), Fail> {
    let piece = pattern(rt.alloc(), 65_537)?;
    let mut written = Vec::new(rt.alloc());
    let mut sink = WriterSink::new(rt.alloc(), &mut written);
    for len in [0, 1, 15, 16, 65_535, 65_536, 65_537] {
        assert_eq!(rt; sink.put(piece.get(..len).unwrap_or(&[])), Ok(()));
    }
    assert_eq!(rt; sink.flush(), Ok(()));
    assert_eq!(rt; sink.flush(), Ok(()));
    drop(sink);
    assert_eq!(rt; written.len(), 32 + 3 * 65_536);
    Ok(())
}

#[test]
fn puts_nothing(rt: HostRuntime) {
    let mut sink = WriterSink::new(rt.alloc(), io::writer(&rt));
    assert_eq!(rt; sink.put(b""), Ok(()));
    assert_eq!(rt; sink.flush(), Ok(()));
}
