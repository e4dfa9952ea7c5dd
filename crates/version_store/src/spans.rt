//! Spans of time through which a slot had one value.

ghost use Rattle.std.specs.Prelude.{◌≡◌, ◌+◌, ◌≤◌, None, IfOk, OnOk};
ghost use Rattle.version_store.specs.Changes.{value_in};
ghost use Rattle.version_store.specs.Spanning.{AreSpans, grown};

use crate::frame_changes::FrameChanges;
use std::alloc::{AllocError, Global};
use std::marker::Model;

/// Spans of time, ascending: of each its first time, its last time, and the value of a slot at the times between.
#[derive(Debug, Drop)]
pub struct Spans {
    items: Vec<(u32, u32, u64)>,
}

impl Model for Spans {
    ghost use Rattle.std.specs.Prelude.{ℕ, List};

    ghost Value = { List (ℕ × ℕ × ℕ) };

    ghost view = { λ spans. spans.items.items };
}

impl Spans {
    /// Takes ownership of the spans.
    pub fn from_vec(items: Vec<(u32, u32, u64)>) -> Spans
        ensures { result ≡ items.items }
    {
        Spans { items }
    }

    /// Borrows the spans.
    pub fn as_slice(&self) -> &[(u32, u32, u64)]
        ensures { result.now ≡ self.now }
    {
        self.items.as_slice()
    }
}

/// The spans of the slot at an offset from a time up to now, where `present` is its value now.
pub(crate) fn spans_in(
    alloc: Global,
    changes: &FrameChanges,
    offset: u16,
    from: u32,
    now: u32,
    present: u64,
) -> Result<Spans, AllocError>
    requires { from ≤ now }
    ensures { IfOk result (AreSpans (value_in changes.now offset present) None from (now + 1)) }
{
    let mut items = Vec::new(alloc);
    let mut first = from;
    for number in changes.count_until(from)..changes.len() {
        let change = changes.get(number);
        if change.offset == offset && change.time > first {
            if change.time > now {
                grow(&mut items, first, now, change.old)?;
                return Ok(Spans::from_vec(items));
            }
            grow(&mut items, first, change.time - 1, change.old)?;
            first = change.time;
        }
    }
    grow(&mut items, first, now, present)?;
    Ok(Spans::from_vec(items))
}

/// Adds a span, or makes the last one longer if it has the same value.
fn grow(
    items: &mut Vec<(u32, u32, u64)>,
    first: u32,
    last: u32,
    value: u64,
) -> Result<(), AllocError>
    requires { first ≤ last }
    ensures { OnOk result (items.new.items ≡ grown items.old.items first last value) }
{
    let len = items.len();
    if len > 0 && items[len - 1].2 == value {
        items[len - 1].1 = last;
        return Ok(());
    }
    items.push((first, last, value))?;
    Ok(())
}
