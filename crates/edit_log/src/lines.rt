//! A reader of a log's lines.

ghost use Rattle.std.specs.Prelude.{◌≡◌, ◌≢◌, ◌≤◌, ◌<◌, ◌++◌, [], length, drop, false, true, Some, None, Ok, Err, IfSome, IfNone, OnOk, OnErr};
ghost use Rattle.history_model.specs.declared.events.Event.{Event as EventSpec};
ghost use Rattle.edit_log.specs.Reading.{Reading, Gives, Passes, Refuses, RunsOut, count_after};
ghost use Rattle.edit_log.specs.Scanning.{BeginsWithLine, HasNextLine, HasNothing, Skips, reading_after};

use crate::line_forms::{LINE_LIMIT, LineFault, event_of, is_skipped};
use history_model::events::Event;
use memchr::memchr;
use std::alloc::{AllocError, Global};
use std::marker::Model;

/// The lines of a log that is fed in bytes: the bytes that aren't taken yet, the lines that are, and why one was
/// refused.
#[derive(Drop)]
pub struct Lines {
    alloc: Global,
    bytes: Vec<u8>,
    start: usize,
    count: u64,
    complete: bool,
    fault: Option<LineFault>,
}

impl Model for Lines {
    ghost use Rattle.std.specs.Prelude.{◌≤◌, ◌≢◌, length, drop, Some};
    ghost use Rattle.edit_log.specs.Reading.{Reading};
    ghost use Rattle.edit_log.specs.declared.line_forms.LineFault.TheVariants.{Memory};

    ghost Value = { Reading };

    ghost view = { λ l. record {
      rest = drop l.start l.bytes.items;
      taken = l.count;
      finished = l.complete;
      refused = l.fault;
    } };

    ghost invariant = { λ l. (l.start ≤ length l.bytes.items) × (l.fault ≢ Some Memory) };
}

impl Lines {
    /// A reader of an empty log. It takes no memory before it is fed.
    pub fn new(alloc: Global) -> Lines
        ensures { result ≡ record { rest = []; taken = 0; finished = false; refused = None } }
    {
        Lines {
            alloc,
            bytes: Vec::new(alloc),
            start: 0,
            count: 0,
            complete: false,
            fault: None,
        }
    }

    /// Adds bytes at the end. Out of memory, nothing is added.
    ///
    /// The bytes that are taken are dropped first, so that the reader holds one rest and one piece. After a `next` that
    /// gave none the rest has at most 8,300 bytes, so that a piece costs one move of it at most, and one search for LF.
    pub fn feed(&mut self, piece: &[u8]) -> Result<(), AllocError>
        requires unfinished { self.old.finished ≡ false }
        ensures ok { OnOk result
            (self.new ≡ record self.old { rest = self.old.rest ++ piece.now }) }
        ensures err { OnErr result (self.new ≡ self.old) }
    {
        self.drop_taken();
        self.bytes.extend_from_slice(piece)
    }

    /// No more bytes will come: the last line may end without LF.
    pub fn finish(&mut self)
        ensures { self.new ≡ record self.old { finished = true } }
    {
        self.complete = true;
    }

    /// The event of the next line that isn't skipped; none where each line that has come to its end is taken.
    ///
    /// `TooLong` and `Syntax` refuse a line, and each later call answers the same. `TooLong` comes as soon as more than
    /// 8,300 bytes of the line are there. `Memory` comes for a `write` line alone, and changes nothing.
    pub fn next(&mut self) -> Result<Option<Event>, LineFault>
        ensures refused { (fault : LineFault) → self.old.refused ≡ Some fault
            → (result ≡ Err fault) × (self.new ≡ self.old) }
        ensures event { (event : EventSpec) → result ≡ Ok (Some event)
            → Gives self.old self.new event }
        ensures none { result ≡ Ok None → Passes self.old self.new }
        ensures too_long { result ≡ Err LineFault.TooLong → self.old.refused ≡ None
            → Refuses self.old self.new LineFault.TooLong }
        ensures syntax { result ≡ Err LineFault.Syntax → self.old.refused ≡ None
            → Refuses self.old self.new LineFault.Syntax }
        ensures memory { result ≡ Err LineFault.Memory → RunsOut self.old self.new }
    {
        if let Some(fault) = self.refusal() {
            return Err(fault);
        }
        let alloc = self.alloc;
        let NextLine {
            before,
            count,
            after,
            line,
        } = self.next_line();
        let Some(line) = line else {
            self.pass(before, count);
            return Ok(None);
        };
        let read = event_of(alloc, line);
        self.settle(&read, before, after, count);
        read
    }

    /// The number of the line taken last, a refused one among them, from 1; 0 before the first. It is exact below 2 to
    /// the 64, and stands still there.
    pub fn line(&self) -> u64
        ensures { result ≡ self.now.taken }
    {
        self.count
    }

    /// Why a line was refused.
    fn refusal(&self) -> Option<LineFault>
        ensures value { result ≡ self.now.refused }
        ensures lasting { self.now.refused ≢ Some LineFault.Memory }
    {
        self.fault
    }

    /// Drops the bytes that are taken, and moves the others to the front.
    fn drop_taken(&mut self)
        ensures { self.new ≡ self.old }
    {
        if self.start > 0 {
            let left = self.bytes.len() - self.start;
            self.bytes.copy_within(self.start.., 0);
            self.bytes.truncate(left);
            self.start = 0;
        }
    }

    /// The next line that isn't skipped.
    fn next_line(&self) -> NextLine<'_>
        ensures skips { Skips self.now.finished self.now.rest result.before result.count }
        ensures some { IfSome result.line (λ line.
            HasNextLine self.now.finished self.now.rest result.before result.after line.now) }
        ensures none { IfNone result.line
            (HasNothing self.now.finished (drop result.before self.now.rest)) }
    {
        next_line_of(&self.bytes[self.start..], self.complete)
    }

    /// Goes by what the next line gave: takes it, refuses it, or out of memory leaves it.
    fn settle(
        &mut self,
        read: &Result<Option<Event>, LineFault>,
        before: usize,
        after: usize,
        count: usize,
    )
        requires lines { count ≤ before }
        requires line { before < after }
        requires within { after ≤ length self.old.rest }
        ensures { self.new ≡ reading_after self.old read.now before after count }
    {
        match read {
            Ok(_) => self.pass(after, count + 1),
            Err(LineFault::Memory) => {}
            Err(fault) => {
                self.pass(before, count + 1);
                self.refuse(*fault);
            }
        }
    }

    /// Takes the first bytes that are left, and counts lines.
    fn pass(&mut self, size: usize, count: usize)
        requires { size ≤ length self.old.rest }
        ensures { self.new ≡ record self.old {
          rest = drop size self.old.rest;
          taken = count_after self.old.taken count;
        } }
    {
        self.start += size;
        self.count = self.count.saturating_add(count as u64);
    }

    /// Refuses whatever may come.
    fn refuse(&mut self, fault: LineFault)
        requires { fault ≢ LineFault.Memory }
        ensures { self.new ≡ record self.old { refused = Some fault } }
    {
        self.fault = Some(fault);
    }
}

/// The next line that isn't skipped, in bytes.
#[derive(Drop)]
struct NextLine<'a> {
    /// The bytes of the skipped lines before it.
    before: usize,
    /// The number of these lines.
    count: usize,
    /// The bytes up to the end of the line, its LF among them.
    after: usize,
    /// The line without its LF, or more bytes of it than a line may have; none where no line has come to its end.
    line: Option<&'a [u8]>,
}

/// Looks for the first line that isn't skipped.
fn next_line_of(bytes: &[u8], finished: bool) -> NextLine<'_>
    ensures skips { Skips finished bytes.now result.before result.count }
    ensures some { IfSome result.line (λ line.
        HasNextLine finished bytes.now result.before result.after line.now) }
    ensures none { IfNone result.line (HasNothing finished (drop result.before bytes.now)) }
{
    let mut before = 0;
    let mut count = 0;
    'lines: while let Some((line, size)) = first_line(&bytes[before..], finished) {
        if !is_skipped(line) {
            return NextLine {
                before,
                count,
                after: before + size,
                line: Some(line),
            };
        }
        before += size;
        count += 1;
    }
    NextLine {
        before,
        count,
        after: before,
        line: None,
    }
}

/// The first line without its LF, and its size in bytes with it: where it has come to its end, or is too long already.
fn first_line(bytes: &[u8], finished: bool) -> Option<(&[u8], usize)>
    ensures some { IfSome result
        (λ found. BeginsWithLine finished bytes.now found.1 found.0.now) }
    ensures none { IfNone result (HasNothing finished bytes.now) }
{
    match memchr(b'\n', bytes) {
        Some(end) => Some((&bytes[..end], end + 1)),
        None if bytes.len() > LINE_LIMIT => Some((bytes, bytes.len())),
        None if finished && !bytes.is_empty() => Some((bytes, bytes.len())),
        None => None,
    }
}
