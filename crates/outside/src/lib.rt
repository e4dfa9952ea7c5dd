//! The outside as a program sees it: names whose bytes are read, and an output that takes pieces.
//!
//! [`Shelf`] and [`Sink`] say what a program may rely on. [`MemShelf`] and [`MemSink`] keep all in memory and fail at
//! listed calls. [`FileShelf`] reads the files of an [`Opener`], as of the host's [`HostFiles`], and [`WriterSink`]
//! writes to a writer, as [`StreamSink`] to standard output. [`read_all`] reads all bytes of a name, up to a limit.
#![tactic(auto)]

mod buffered;
mod file_shelf;
mod host_files;
mod mem_shelf;
mod mem_sink;
mod named_bytes;
mod opener;
mod reading;
mod shelf;
mod sink;
mod writer_sink;

pub use file_shelf::FileShelf;
pub use host_files::{HostFiles, StreamSink};
pub use mem_shelf::MemShelf;
pub use mem_sink::MemSink;
pub use opener::Opener;
pub use reading::{ReadFault, Whole, read_all};
pub use shelf::{Failed, Shelf};
pub use sink::Sink;
pub use writer_sink::WriterSink;

#[cfg(test)]
mod tests;
