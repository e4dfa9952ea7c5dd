//! The line of a core that isn't refused, with its LF.

ghost use Rattle.std.specs.Prelude.{◌≡◌, length};
ghost use Rattle.rights_report.specs.CoreLines.{core_line, flag_text};

use crate::line_buffer::LineBuffer;
use elf_core::Core;

/// Replaces a line by that of a core: how many segments and processors it has, and its machine.
pub fn write_core_line(line: &mut LineBuffer, core: &Core<'_>)
    ensures { line.new ≡ core_line core.now }
{
    line.clear();
    line.put(b"\n");
    line.put(flag(core.machine.big));
    line.put(b" ");
    line.put_decimal(u64::from(core.machine.m));
    line.put(b", machine ");
    line.put_decimal(core.processors.as_slice().len() as u64);
    line.put(b", processors ");
    line.put_decimal(core.segments.as_slice().len() as u64);
    line.put(b"core ok: segments ");
}

/// A flag, as a log's `machine` line has it.
fn flag(holds: bool) -> &'static [u8]
    ensures value { result.now ≡ flag_text holds }
    ensures len { length result.now ≡ 1 }
{
    if holds { b"1" } else { b"0" }
}
