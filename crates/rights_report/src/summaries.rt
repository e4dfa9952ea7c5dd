//! The lines that sum up the run of a generated log, each with its LF.

ghost use Rattle.std.specs.Prelude.{◌≡◌, ◌+◌, ◌<◌, ◌≤◌, [], ◌++◌, length, slice_index_or};
ghost use Rattle.rights_report.specs.Characters.{line_end};
ghost use Rattle.rights_report.specs.SummaryLines.{count_line, summary_lines};

use crate::line_buffer::LineBuffer;

/// How many lines a summary has.
pub const SUMMARY_LINES: u64 = 9;

/// What a log had, and how it was answered: how many of each there were. State lines are no events.
#[derive(Clone, Copy, Debug, Default, PartialEq, Eq)]
pub struct Summary {
    /// All events.
    pub events: u64,
    /// Writes to memory.
    pub writes: u64,
    /// Changes of a register.
    pub sets: u64,
    /// INVLPG and INVPCID.
    pub invalidations: u64,
    /// Accesses that were asked for and granted.
    pub granted: u64,
    /// Accesses that were asked for and denied.
    pub denied: u64,
    /// Areas of all listings together. A space that is too large to be listed adds none.
    pub areas: u64,
    /// Points without findings.
    pub yes: u64,
    /// Points with findings.
    pub no: u64,
}

/// Replaces a line by that of a summary, by its index.
pub fn write_summary_line(line: &mut LineBuffer, summary: &Summary, index: u64)
    requires { index < 9 }
    ensures { line.new ≡ slice_index_or (summary_lines summary.now) index [] }
{
    line.clear();
    line.put(b"\n");
    match index {
        0 => put_count(line, b"events ", summary.events),
        1 => put_count(line, b"writes ", summary.writes),
        2 => put_count(line, b"sets ", summary.sets),
        3 => put_count(line, b"invalidations ", summary.invalidations),
        4 => put_count(line, b"granted ", summary.granted),
        5 => put_count(line, b"denied ", summary.denied),
        6 => put_count(line, b"areas ", summary.areas),
        7 => put_count(line, b"points yes ", summary.yes),
        _ => put_count(line, b"points no ", summary.no),
    }
}

/// Puts what is counted, and how many there were.
fn put_count(line: &mut LineBuffer, what: &[u8], count: u64)
    requires end { line.old ≡ line_end }
    requires room { length what.now ≤ 100 }
    ensures { line.new ≡ count_line what.now count }
{
    line.put_decimal(count);
    line.put(what);
}
