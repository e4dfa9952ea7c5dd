//! Worked examples of the definitions, each a theorem that computes.

ghost use Rattle.image_gen.specs.WorkedLogs.{OfCores, OfLogs};

/// The first lines for some seeds, lines by their numbers, and how they are spelled.
pub fn logs()
    ensures { OfLogs }
{}

/// How long the parts of the core are, and what stands in its memory.
pub fn cores()
    ensures { OfCores }
{}
