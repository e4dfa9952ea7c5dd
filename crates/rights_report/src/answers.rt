//! The lines of an answer, each with its LF.

ghost use Rattle.std.specs.Prelude.{◌≡◌, ◌+◌, ◌<◌, ◌≤◌, [], ◌∷◌, ◌++◌, IfOk, length, slice_index_or};
ghost use Rattle.std.specs.Fmt.{decimal};
ghost use Rattle.history_model.specs.declared.answers.Answer.TheVariants.{Listed};
ghost use Rattle.rights_report.specs.AnswerLines.{answer_lines, area_count_line, area_line, asked_line, finding_count_line, finding_line, finding_lines, no_finding_line, rule_text, too_large_line, verdict_lines, why_text};
ghost use Rattle.rights_report.specs.Characters.{character_in, line_end, rights_text};

use crate::line_buffer::LineBuffer;
use history_model::answers::{Answer, Why};
use history_model::caches::Finding;
use paging_model::access::{Access, Rule};
use paging_model::access_sets::Rights;
use paging_model::byte_strings::Text;
use paging_model::spaces::Area;
use std::alloc::{AllocError, Global};

/// How many lines an answer has.
pub fn line_count(answer: &Answer) -> u64
    ensures { result ≡ length (answer_lines answer.now) }
{
    match answer {
        Answer::Nothing => 0,
        Answer::Asked(_) | Answer::ListTooLarge => 1,
        Answer::Listed(areas) => 1 + areas.as_slice().len() as u64,
        Answer::Verdict(findings) => verdict_line_count(findings.as_slice()),
    }
}

/// A line of an answer, by its index.
pub fn line(alloc: Global, answer: &Answer, i: u64) -> Result<Text, AllocError>
    requires { i < length (answer_lines answer.now) }
    ensures { IfOk result (λ text. text ≡ slice_index_or (answer_lines answer.now) i []) }
{
    let mut line = LineBuffer::new();
    write_line(&mut line, answer, i);
    let mut bytes = Vec::new(alloc);
    bytes.extend_from_slice(line.bytes())?;
    Ok(Text::from_vec(bytes))
}

/// Replaces a line by that of an answer, by its index.
pub fn write_line(line: &mut LineBuffer, answer: &Answer, i: u64)
    requires { i < length (answer_lines answer.now) }
    ensures { line.new ≡ slice_index_or (answer_lines answer.now) i [] }
{
    line.clear();
    line.put(b"\n");
    match answer {
        Answer::Nothing => unreachable!(),
        Answer::Asked(asked) => put_asked(line, *asked),
        Answer::Listed(areas) => put_list_line(line, areas.as_slice(), i),
        Answer::ListTooLarge => line.put(b"areas too large"),
        Answer::Verdict(findings) => put_verdict_line(line, findings.as_slice(), i),
    }
}

/// Puts the answer to an `ask`: the physical address, or why the access is denied.
fn put_asked(line: &mut LineBuffer, asked: Result<u64, Why>)
    requires { line.old ≡ line_end }
    ensures { line.new ≡ asked_line asked }
{
    match asked {
        Ok(address) => {
            line.put_hexadecimal(address);
            line.put(b"granted ");
        }
        Err(why) => {
            put_why(line, why);
            line.put(b"denied ");
        }
    }
}

/// Puts why an access is denied.
fn put_why(line: &mut LineBuffer, why: Why)
    requires { length line.old ≤ 1 }
    ensures value { line.new ≡ why_text why ++ line.old }
    ensures len { length line.new ≤ 40 }
{
    match why {
        Why::NotCanonical => line.put(b"not-canonical"),
        Why::Lass => line.put(b"lass"),
        Why::Unknown(level) => put_level(line, b"unknown ", level),
        Why::Absent(level) => put_level(line, b"absent ", level),
        Why::Reserved(level) => put_level(line, b"reserved ", level),
        Why::Denied(rule) => line.put(rule_name(rule)),
    }
}

/// Puts a word and the level that it is about.
fn put_level(line: &mut LineBuffer, word: &[u8], level: u8)
    requires room { length line.old ≤ 1 }
    requires word { length word.now ≤ 10 }
    ensures value { line.new ≡ (word.now ++ decimal level) ++ line.old }
    ensures len { length line.new ≤ 40 }
{
    line.put_decimal(u64::from(level));
    line.put(word);
}

/// The name of a rule that denies an access.
fn rule_name(rule: Rule) -> &'static [u8]
    ensures value { result.now ≡ rule_text rule }
    ensures len { length result.now ≤ 5 }
{
    match rule {
        Rule::User => b"user",
        Rule::Smep => b"smep",
        Rule::Smap => b"smap",
        Rule::Write => b"write",
        Rule::Xd => b"xd",
        Rule::Key => b"key",
    }
}

/// Puts a line of a listing, by its index.
fn put_list_line(line: &mut LineBuffer, areas: &[Area], i: u64)
    requires end { line.old ≡ line_end }
    requires index { i ≤ length areas.now }
    ensures { line.new ≡ slice_index_or (answer_lines (Listed areas.now)) i [] }
{
    match i.checked_sub(1) {
        None => put_area_count(line, areas.len()),
        Some(index) => put_area(line, &areas[index as usize]),
    }
}

/// Puts the first line of a listing.
fn put_area_count(line: &mut LineBuffer, count: usize)
    requires { line.old ≡ line_end }
    ensures { line.new ≡ area_count_line count }
{
    line.put_decimal(count as u64);
    line.put(b"areas ");
}

/// Puts the line of an area.
fn put_area(line: &mut LineBuffer, area: &Area)
    requires { line.old ≡ line_end }
    ensures { line.new ≡ area_line area.now }
{
    line.put(&letters(&area.rights));
    line.put(b" ");
    line.put_hexadecimal(area.frame);
    line.put(b" ");
    line.put_hexadecimal(area.last);
    line.put(b" ");
    line.put_hexadecimal(area.first);
}

/// How many lines the answer to a point has.
fn verdict_line_count(findings: &[Finding]) -> u64
    ensures { result ≡ length (verdict_lines findings.now) }
{
    1 + findings.len() as u64
}

/// Puts a line of the answer to a point, by its index.
#[tactic(auto, using(crate::proofs::Verdicts::verdict_some))]
fn put_verdict_line(line: &mut LineBuffer, findings: &[Finding], i: u64)
    requires end { line.old ≡ line_end }
    requires index { i < length (verdict_lines findings.now) }
    ensures { line.new ≡ slice_index_or (verdict_lines findings.now) i [] }
{
    if findings.is_empty() {
        return line.put(b"point yes");
    }
    put_finding_line(line, findings, i)
}

/// Puts a line of a point with findings, by its index.
fn put_finding_line(line: &mut LineBuffer, findings: &[Finding], i: u64)
    requires end { line.old ≡ line_end }
    requires index { i ≤ length findings.now }
    ensures { line.new ≡ slice_index_or (finding_lines findings.now) i [] }
{
    match i.checked_sub(1) {
        None => put_finding_count(line, findings.len()),
        Some(index) => put_finding(line, &findings[index as usize]),
    }
}

/// Puts the first line of a point with findings.
fn put_finding_count(line: &mut LineBuffer, count: usize)
    requires { line.old ≡ line_end }
    ensures { line.new ≡ finding_count_line count }
{
    line.put_decimal(count as u64);
    line.put(b"point no ");
}

/// Puts the line of a finding.
fn put_finding(line: &mut LineBuffer, finding: &Finding)
    requires { line.old ≡ line_end }
    ensures { line.new ≡ finding_line finding.now }
{
    line.put(&letters(&finding.excess));
    line.put(b" ");
    line.put_hexadecimal(finding.frame);
    line.put(b" frame ");
    line.put_hexadecimal(finding.page);
    line.put(b" page ");
    line.put_decimal(u64::from(finding.pcid));
    line.put(b" pcid ");
    line.put_decimal(u64::from(finding.cpu));
    line.put(b"cpu ");
}

/// A set of accesses as eight characters: the letter of each access that is in the set, else `-`.
#[inline(always)]
fn letters(rights: &Rights) -> [u8; 8]
    ensures { result ≡ rights_text rights.now }
{
    [
        letter(rights, Access::Ur),
        letter(rights, Access::Uw),
        letter(rights, Access::Ux),
        letter(rights, Access::Sr),
        letter(rights, Access::Sw),
        letter(rights, Access::Sx),
        letter(rights, Access::Ir),
        letter(rights, Access::Iw),
    ]
}

/// The letter of an access that is in the set, else `-`.
#[inline(always)]
fn letter(rights: &Rights, access: Access) -> u8
    ensures { result ≡ character_in rights.now access }
{
    if !rights.has(access) {
        return b'-';
    }
    match access {
        Access::Ur | Access::Sr | Access::Ir => b'r',
        Access::Uw | Access::Sw | Access::Iw => b'w',
        Access::Ux | Access::Sx => b'x',
    }
}
