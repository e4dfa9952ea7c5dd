//! The forms of the arguments that the program is called with.

ghost use Rattle.std.specs.Prelude.{◌≡◌, option_map};
ghost use Rattle.rights.specs.Arguments.{count_of, form_of as form_of_texts, form_value, gen_form, seed_of, texts};

use edit_log::number;

/// The greatest seed.
const MOST_SEED: u64 = 0x7fff_ffff;

/// The greatest number of lines of a generated log.
const MOST_LINES: u64 = 100_000;

/// What the program is to do, and on which files.
#[derive(Clone, Copy, Debug)]
pub enum Form<'a> {
    /// `run CORE LOG`: answers the lines of a log about a core.
    Run { core: &'a str, log: &'a str },
    /// `check CORE`: says what a core states, or why it is refused.
    Check { core: &'a str },
    /// `gen SEED COUNT`: sums up the answers to a generated log of so many lines, drawn from a seed.
    Gen { seed: u32, count: u32 },
}

/// The form of the arguments after the program's name; none where they have none of the forms.
pub fn form_of<'a>(arguments: &[&'a str]) -> Option<Form<'a>>
    ensures { option_map form_value result ≡ form_of_texts (texts arguments.now) }
{
    match arguments {
        [word, core, log] if *word == "run" => Some(Form::Run { core, log }),
        [word, seed, count] if *word == "gen" => form_of_gen(seed, count),
        [word, core] if *word == "check" => Some(Form::Check { core }),
        _ => None,
    }
}

/// The form of a generated log, where its numbers lie in their ranges.
fn form_of_gen<'a>(seed: &str, count: &str) -> Option<Form<'a>>
    ensures { option_map form_value result ≡ gen_form (seed_of seed.now) (count_of count.now) }
{
    let seed = number(seed.as_bytes())?;
    let count = number(count.as_bytes())?;
    if seed > MOST_SEED || count < 1 || count > MOST_LINES {
        return None;
    }
    Some(Form::Gen {
        seed: seed as u32,
        count: count as u32,
    })
}
