//! Worked examples of the definitions, each a theorem that computes.

ghost use Rattle.edit_log.specs.WorkedLines.{OfLines, OfNumbers, OfEvents};

/// Logs as lines, and lines as words.
pub fn lines()
    ensures { OfLines }
{}

/// Spellings of numbers.
#[tactic(auto, unfolding(crate::specs::Numbers::number_of))]
pub fn numbers()
    ensures { OfNumbers }
{}

/// Lines and the events that they spell.
#[tactic(auto, unfolding(crate::specs::LogLine::event_of, crate::specs::LogLine::event_of_words, crate::specs::LogLine::machine_line, crate::specs::LogLine::cpu_line, crate::specs::LogLine::regs_line, crate::specs::LogLine::write_line, crate::specs::LogLine::set_line, crate::specs::LogLine::change_of_words, crate::specs::LogLine::invlpg_line, crate::specs::LogLine::invpcid_line, crate::specs::LogLine::ask_line, crate::specs::LogLine::access_of_word, crate::specs::LogLine::list_line, crate::specs::LogLine::point_line, crate::specs::Numbers::number_of,))]
pub fn events()
    ensures { OfEvents }
{}
