//! The core and the log as files.

ghost use Rattle.std.specs.Prelude.{◌≡◌, ◌<◌, ◌≤◌, ◌^◌, IfOk};
ghost use Rattle.image_gen.specs.GeneratedCore.{generated_core};
ghost use Rattle.image_gen.specs.LineTexts.{generated_log};

use crate::core_bytes::core_bytes;
use crate::drawing::Generator;
use crate::texts::add_line;
use std::alloc::{AllocError, Global};

/// A core, and a log about it.
#[derive(Debug, Drop)]
pub struct Generated {
    /// The bytes of the core's file. They are the same for each seed.
    pub core: Vec<u8>,
    /// The bytes of the log.
    pub log: Vec<u8>,
}

/// Makes the core, and a log of so many lines, at most 100,000, that are drawn from a seed below 2 to the 31.
///
/// # Errors
///
/// Memory ran out.
pub fn make(alloc: Global, seed: u32, count: u32) -> Result<Generated, AllocError>
    requires seed { seed < 2 ^ 31 }
    requires count { (1 ≤ count) × (count ≤ 100000) }
    ensures core { IfOk result (λ made. made.core.items ≡ generated_core) }
    ensures log { IfOk result (λ made. made.log.items ≡ generated_log seed count) }
{
    let core = core_bytes(alloc)?;
    let log = log_bytes(alloc, seed, count)?;
    Ok(Generated { core, log })
}

/// A log of so many lines, whose numbers begin with 1.
fn log_bytes(alloc: Global, seed: u32, count: u32) -> Result<Vec<u8>, AllocError>
    ensures { IfOk result (λ log. log.items ≡ generated_log seed count) }
{
    let mut generator = Generator::new(seed);
    let mut log = Vec::new(alloc);
    for index in 0..count {
        let line = generator.line(index + 1);
        add_line(alloc, &mut log, line)?;
    }
    Ok(log)
}
