//! What holds of the generated core and log by their definitions. Each function is a law: its `ensures` is the
//! statement, and its body is empty.

ghost use Rattle.std.specs.Prelude.{◌≡◌, ℕ, Ok, Some, map};
ghost use Rattle.edit_log.specs.Log.{lines_of};
ghost use Rattle.edit_log.specs.LogLine.{event_of};
ghost use Rattle.elf_core.specs.Cores.{core_of};
ghost use Rattle.history_model.specs.History.{begun};
ghost use Rattle.image_gen.specs.Accepted.{AreAccepted, generated_start};
ghost use Rattle.image_gen.specs.GeneratedCore.{generated_core};
ghost use Rattle.image_gen.specs.GeneratedLog.{event_of_line, generated_lines};
ghost use Rattle.image_gen.specs.LineTexts.{generated_log};
ghost use Rattle.image_gen.specs.StatedCore.{stated_core};

/// The generated core is read: it states memory, the machine and two processors.
pub fn the_generated_core_is_accepted()
    ensures { core_of generated_core ≡ Ok stated_core }
{}

/// A reader of a generated log finds in each line the event that was drawn.
pub fn each_line_spells_its_event()
    ensures { (seed count : ℕ) → map event_of (lines_of (generated_log seed count))
        ≡ map (λ line. Ok (Some (event_of_line line))) (generated_lines seed count) }
{}

/// From the moment that the generated core states, no line of a generated log is refused.
pub fn no_generated_line_is_refused()
    ensures { (seed count : ℕ) →
        AreAccepted (begun generated_start) (map event_of_line (generated_lines seed count)) }
{}
