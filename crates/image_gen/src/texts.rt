//! How the lines of the log are spelled.

ghost use Rattle.std.specs.Prelude.{◌≡◌, ◌++◌, ◌<◌, IfOk, OnOk, codes, false};
ghost use Rattle.std.specs.Fmt.{decimal, digit_glyph};
ghost use Rattle.rights_report.specs.Characters.{hexadecimal, line_end};
ghost use Rattle.image_gen.specs.LineTexts.{access_text, byte_pairs, words_of_line};

use crate::lines::Line;
use crate::tables::ROOT;
use paging_model::access::Access;
use std::alloc::{AllocError, Global};

/// The digits up to base 16.
const DIGITS: [u8; 16] = *b"0123456789abcdef";

/// Adds a line to a log, with its LF.
pub(crate) fn add_line(alloc: Global, log: &mut Vec<u8>, line: Line) -> Result<(), AllocError>
    ensures { OnOk result (log.new.items ≡ log.old.items ++ (words_of_line line ++ line_end)) }
{
    let words = words_of_line(alloc, line)?;
    log.extend_from_slice(&words)?;
    log.push(b'\n')?;
    Ok(())
}

/// A line without its LF.
fn words_of_line(alloc: Global, line: Line) -> Result<Vec<u8>, AllocError>
    ensures { IfOk result (λ words. words.items ≡ words_of_line line) }
{
    match line {
        Line::Point => words_alone(alloc, "point current"),
        Line::LoseAll { cpu } => invpcid_words(alloc, cpu),
        Line::List => words_alone(alloc, "list 0"),
        Line::Write { slot, entry } => write_words(alloc, slot, entry),
        Line::Invlpg { cpu, address } => invlpg_words(alloc, cpu, address),
        Line::Ask {
            cpu,
            access,
            pointer,
        } => ask_words(alloc, cpu, access_text(access), pointer),
        Line::SetRoot { cpu } => set_words(alloc, cpu, ROOT),
    }
}

/// A line that is the same for each seed.
fn words_alone(alloc: Global, words: &str) -> Result<Vec<u8>, AllocError>
    ensures { IfOk result (λ line. line.items ≡ words.now) }
{
    let line = format!(in alloc; "{words}")?;
    Ok(line.into_bytes())
}

/// The line with which a processor loses all that it holds.
fn invpcid_words(alloc: Global, cpu: u32) -> Result<Vec<u8>, AllocError>
    ensures { IfOk result (λ line.
        line.items ≡ codes "invpcid " ++ decimal cpu ++ codes " 2 0 0x0") }
{
    let line = format!(in alloc; "invpcid {cpu} 2 0 0x0")?;
    Ok(line.into_bytes())
}

/// The line that writes an entry, its lowest byte first.
fn write_words(alloc: Global, slot: u64, entry: u64) -> Result<Vec<u8>, AllocError>
    ensures { IfOk result (λ line. line.items ≡ words_of_line (Line.Write slot entry)) }
{
    let words = format!(in alloc; "write 0x{slot:x} ")?;
    let mut line = words.into_bytes();
    add_pairs(&mut line, &entry.to_le_bytes())?;
    Ok(line)
}

/// Adds two digits for each byte.
fn add_pairs(line: &mut Vec<u8>, bytes: &[u8]) -> Result<(), AllocError>
    ensures { OnOk result (line.new.items ≡ line.old.items ++ byte_pairs bytes.now) }
{
    for byte in bytes {
        line.push(digit(*byte / 16))?;
        line.push(digit(*byte % 16))?;
    }
    Ok(())
}

/// A digit, as it is shown.
fn digit(value: u8) -> u8
    requires { value < 16 }
    ensures { result ≡ digit_glyph false value }
{
    DIGITS[value as usize]
}

/// The line that invalidates a page.
fn invlpg_words(alloc: Global, cpu: u32, address: u64) -> Result<Vec<u8>, AllocError>
    ensures { IfOk result (λ line.
        line.items ≡ codes "invlpg " ++ decimal cpu ++ codes " " ++ hexadecimal address) }
{
    let line = format!(in alloc; "invlpg {cpu} 0x{address:x}")?;
    Ok(line.into_bytes())
}

/// The line that asks for an access, by the name of its kind.
fn ask_words(alloc: Global, cpu: u32, kind: &str, pointer: u64) -> Result<Vec<u8>, AllocError>
    ensures { IfOk result (λ line. line.items ≡ codes "ask " ++ decimal cpu
        ++ codes " " ++ kind.now ++ codes " " ++ hexadecimal pointer) }
{
    let line = format!(in alloc; "ask {cpu} {kind} 0x{pointer:x}")?;
    Ok(line.into_bytes())
}

/// The line that sets CR3.
fn set_words(alloc: Global, cpu: u32, root: u64) -> Result<Vec<u8>, AllocError>
    ensures { IfOk result (λ line.
        line.items ≡ codes "set " ++ decimal cpu ++ codes " cr3 " ++ hexadecimal root) }
{
    let line = format!(in alloc; "set {cpu} cr3 0x{root:x}")?;
    Ok(line.into_bytes())
}

/// The name of a kind of access.
fn access_text(access: Access) -> &'static str
    ensures { result.now ≡ access_text access }
{
    match access {
        Access::Ur => "ur",
        Access::Uw => "uw",
        Access::Ux => "ux",
        Access::Sr => "sr",
        Access::Sw => "sw",
        Access::Sx => "sx",
        Access::Ir => "ir",
        Access::Iw => "iw",
    }
}
