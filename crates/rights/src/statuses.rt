//! How a run ends.

ghost use Rattle.std.specs.Prelude.{◌≡◌};

/// How a run ends.
#[derive(Clone, Copy, Debug, PartialEq, Eq)]
pub enum Status {
    /// The log was read to its end and each line was answered.
    Answered,
    /// The log was read to its end, each line was answered, and some point found a stale translation.
    Stale,
    /// The arguments have no known form.
    Usage,
    /// The core is refused.
    CoreRefused,
    /// A line of the log, or the log's length, is refused.
    LogRefused,
    /// A read failed.
    ReadFailed,
    /// A write failed.
    WriteFailed,
    /// Out of memory.
    OutOfMemory,
}

impl Status {
    ghost use Rattle.rights.specs.Statuses.{code_of};

    /// The program's exit status.
    pub fn code(self) -> u8
        ensures { result ≡ code_of self }
    {
        match self {
            Status::Answered => 0,
            Status::Stale => 1,
            Status::Usage => 2,
            Status::CoreRefused => 3,
            Status::LogRefused => 4,
            Status::ReadFailed => 5,
            Status::WriteFailed => 6,
            Status::OutOfMemory => 7,
        }
    }
}
