//! The lines that are the same in each run, each with its LF.

ghost use Rattle.std.specs.Prelude.{◌≡◌};
ghost use Rattle.rights_report.specs.FixedLines.{core_too_long_line, log_too_long_line, usage_line};

/// How the program is called, where the arguments have none of the forms.
pub fn usage() -> &'static [u8]
    ensures { result.now ≡ usage_line }
{
    b"usage: run CORE LOG | check CORE | gen SEED COUNT\n"
}

/// The refusal of a core over its limit.
pub fn core_too_long() -> &'static [u8]
    ensures { result.now ≡ core_too_long_line }
{
    b"core refused: too long\n"
}

/// The refusal of a log over its limit.
pub fn log_too_long() -> &'static [u8]
    ensures { result.now ≡ log_too_long_line }
{
    b"log refused: too long\n"
}
