//! Worked examples of the definitions, each a theorem that computes.

ghost use Rattle.rights_report.specs.WorkedTexts.{OfTexts};

/// Texts of answers and refusals.
pub fn texts()
    ensures { OfTexts }
{}
