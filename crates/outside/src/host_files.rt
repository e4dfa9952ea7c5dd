//! The host's files and standard output, at the trusted edge: their bytes are unknown.

use crate::opener::Opener;
use crate::shelf::Failed;
use crate::writer_sink::WriterSink;
use std::fs;
use std::fs::File;
use std::io::Printer;
use std::os::unix::fs::FileExt;

/// The host's files: a name is a path.
///
/// Nothing is known of them, so any file may be the one of a name.
#[derive(Drop)]
pub struct HostFiles {
    rt: HostRuntime,
}

impl HostFiles {
    /// The files of a host.
    pub fn new(rt: HostRuntime) -> HostFiles {
        HostFiles { rt }
    }
}

impl Opener for HostFiles {
    ghost use Rattle.std.specs.Prelude.{true};
    ghost use Rattle.std.proofs.Common.{rules};
    ghost use Rattle.outside.specs.Shelf.{unspecified};

    type File = File;

    ghost known = { λ _ _. unspecified };

    ghost reach = { λ _ _. 0 };

    ghost is_named = { λ _ _. true };

    ghost reach_within = { Prim.search rules };

    fn open(&self, name: &str) -> Result<File, Failed> {
        fs::open(&self.rt, name).map_err(|_| Failed)
    }

    fn read_at(&mut self, file: &File, at: u64, into: &mut [u8]) -> Result<usize, Failed> {
        file.read_at(into, at).map_err(|_| Failed)
    }
}

/// A sink over the host's standard output.
pub type StreamSink<'a> = WriterSink<Printer<'a, HostRuntime>>;
