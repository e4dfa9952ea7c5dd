//! Ranges of a space that are copied, replaced and cleared.

ghost use Rattle.std.specs.Prelude.{◌≡◌, ℕ, ◌≤◌, None, OnOk, OnErr};
ghost use Rattle.region_map.specs.Coalesced.{AreWholePages, IsCleared, IsCopied, target_at};

use crate::copying::{copy_range, replacement};
use crate::putting::{around, put};
use crate::regions::Regions;
use std::alloc::AllocError;

impl Regions {
    /// Maps in a range, of which nothing is mapped, what another list maps there.
    ///
    /// The other list is read from its first region that the range can meet, found in logarithmic time, up to the
    /// first after the range. Where these regions end before the range, each is added in constant time.
    ///
    /// # Errors
    ///
    /// Out of memory, a first part of the range is mapped.
    pub fn copy(&mut self, other: &Regions, first: u64, last: u64) -> Result<(), AllocError>
        requires pages { AreWholePages first last }
        requires unmapped { (x : ℕ) → first ≤ x → x ≤ last → target_at self.old x ≡ None }
        ensures { OnOk result
            (IsCopied first last (target_at other.now) (target_at self.old) (target_at self.new)) }
    {
        copy_range(self, other.list(), first, last)
    }

    /// Maps a range as another list does, whatever was mapped there.
    ///
    /// The place is found in logarithmic time, and what stands after it is moved once at most: not at all where the
    /// number of regions stays the same.
    ///
    /// # Errors
    ///
    /// Out of memory, nothing has changed.
    pub fn replace(&mut self, first: u64, last: u64, other: &Regions) -> Result<(), AllocError>
        requires pages { AreWholePages first last }
        ensures ok { OnOk result
            (IsCopied first last (target_at other.now) (target_at self.old) (target_at self.new)) }
        ensures err { OnErr result (self.new ≡ self.old) }
    {
        let alloc = *self.items.allocator();
        let (from, to) = around(&self.items, first, last);
        let part = replacement(alloc, &self.items[from..to], first, last, other.list())?;
        put(&mut self.items, from, to, part.list())
    }

    /// Maps a range no more. It costs what `replace` does.
    ///
    /// # Errors
    ///
    /// Out of memory, nothing has changed.
    pub fn clear(&mut self, first: u64, last: u64) -> Result<(), AllocError>
        requires pages { AreWholePages first last }
        ensures ok { OnOk result (IsCleared first last (target_at self.old) (target_at self.new)) }
        ensures err { OnErr result (self.new ≡ self.old) }
    {
        let nothing = Regions::new(*self.items.allocator());
        self.replace(first, last, &nothing)
    }
}
