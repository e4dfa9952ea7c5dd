//! Which frames may have a use.

ghost use Rattle.std.specs.Prelude.{◌≡◌, ℕ, ◌/◌, ◌%◌, true, OnOk};
ghost use Rattle.frame_index.specs.FrameFlags.{frame_flag};

use std::alloc::{AllocError, Global};

/// The length of a frame in bytes.
const FRAME_LEN: u64 = 4096;

/// How many flags there are at most: one for each frame of 256 MiB.
const FLAGS: u64 = 65_536;

/// A flag for the frames whose numbers leave the same remainder. Once it is set, it stays.
#[derive(Debug, Drop)]
pub(crate) struct FrameFilter {
    /// Up to the last that was set.
    pub flags: Vec<bool>,
}

impl FrameFilter {
    /// No flag is set. It takes no memory.
    pub(crate) fn new(alloc: Global) -> FrameFilter {
        FrameFilter {
            flags: Vec::new(alloc),
        }
    }

    /// Whether the flag of a frame is set. Where it isn't, the frame never had a use.
    pub(crate) fn has(&self, frame: u64) -> bool
        ensures { result ≡ frame_flag self.now.flags.items frame }
    {
        match self.flags.get(flag_place(frame)) {
            Some(flag) => *flag,
            None => false,
        }
    }

    /// Sets the flag of a frame. Out of memory, it may not be set.
    pub(crate) fn set(&mut self, frame: u64) -> Result<(), AllocError>
        ensures set { OnOk result (frame_flag self.new.flags.items frame ≡ true) }
        ensures others { (other : ℕ) → frame_flag self.old.flags.items other ≡ true
            → frame_flag self.new.flags.items other ≡ true }
    {
        let place = flag_place(frame);
        while self.flags.len() <= place {
            self.flags.push(false)?;
        }
        self.flags[place] = true;
        Ok(())
    }
}

/// The place of a frame's flag.
fn flag_place(frame: u64) -> usize
    ensures { result ≡ frame / 4096 % 65536 }
{
    (frame / FRAME_LEN % FLAGS) as usize
}
