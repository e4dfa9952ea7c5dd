//! Known memory, now and before.

ghost use Rattle.std.specs.Prelude.{◌≡◌, ◌≢◌, ℕ, ◌+◌, ◌≤◌, Err, Some, None, [], IfErr, OnOk, OnErr, length};
ghost use Rattle.history_model.specs.KeptSpaces.{slots_written};
ghost use Rattle.paging_model.specs.Memory.{byte_in};
ghost use Rattle.phys_view.specs.Seen.{memory_of, written_pages};
ghost use Rattle.phys_view.specs.Writes.{refusal_of_write};
ghost use Rattle.version_store.specs.Changes.{kept_blocks};
ghost use Rattle.audit_core.specs.Remembering.{KeepsWrite};

use crate::old_entries::{OldEntries, SLOT_LEN};
use block_pool::Pool;
use elf_core::Segments;
use history_model::faults::StepFault;
use phys_view::{Ledger, Steps, View};
use std::alloc::Global;
use std::marker::Model;
use version_store::Store;

/// Known memory and its past: what it holds, and what writes changed.
#[derive(Drop)]
pub struct Remembered<'a, L: Ledger> {
    view: View<'a, L>,
    changes: Store,
    /// The blocks of the pages that were written to, and those of the changes.
    pool: Pool,
    olds: OldEntries,
}

impl<'a, L: Ledger> Model for Remembered<'a, L> {
    ghost use Rattle.std.specs.Prelude.{◌≡◌, ◌+◌, length};
    ghost use Rattle.version_store.specs.Changes.{kept_blocks};
    ghost use Rattle.audit_core.specs.Remembering.{Remembering};

    ghost Value = { Remembering };

    ghost view = { λ m. record { seen = m.view; kept = m.changes } };

    // Each written page has one block of the pool, and the changes have theirs.
    ghost invariant = { λ m. m.pool.live ≡ length m.view.written + kept_blocks m.changes };
}

impl<'a, L: Ledger> Remembered<'a, L> {
    /// Memory as the segments alone give it. Takes no memory, and copies nothing.
    pub fn new(alloc: Global, segments: Segments<'a>) -> Remembered<'a, L>
        ensures seen { result.seen ≡ record { extents = segments.entry; written = [] } }
        ensures memory { (a : ℕ) → memory_of result.seen a ≡ byte_in segments.entry a }
        ensures kept { result.kept ≡ [] }
    {
        Remembered {
            view: View::new(alloc, segments),
            changes: Store::new(alloc),
            pool: Pool::new(alloc),
            olds: OldEntries::new(),
        }
    }

    /// What it holds.
    pub fn view(&self) -> &View<'a, L>
        ensures { result.now ≡ self.now.seen }
    {
        &self.view
    }

    /// What writes changed.
    pub fn changes(&self) -> &Store
        ensures { result.now ≡ self.now.kept }
    {
        &self.changes
    }

    /// How many blocks of memory it holds: one for each page that was written to, and those of the changes.
    pub fn live_blocks(&self) -> u64
        ensures { result ≡ length (written_pages self.now.seen) + kept_blocks self.now.kept }
    {
        self.pool.live()
    }

    /// Replaces the bytes from an address on by others, at a time, and keeps what their slots held. A step is taken for
    /// each slot of their page that they touch, whatever the answer is.
    ///
    /// # Errors
    ///
    /// The first reason for which they can't be written; then nothing is changed. `Memory` where memory ran out: they
    /// may be written then, and a part of what their slots held may be kept.
    pub fn write(
        &mut self,
        now: u32,
        at: u64,
        bytes: &[u8],
        steps: &mut Steps<L>,
    ) -> Result<(), StepFault>
        requires some { 1 ≤ length bytes.now }
        requires few { length bytes.now ≤ 4096 }
        ensures ok { OnOk result (KeepsWrite self.old self.new now at bytes.now) }
        ensures refused { IfErr result (λ fault. fault ≢ StepFault.Memory
            → refusal_of_write self.old.seen at (length bytes.now) ≡ Some fault) }
        ensures unchanged { OnErr result (result ≢ Err StepFault.Memory → self.new ≡ self.old) }
        ensures out_of_memory { result ≡ Err StepFault.Memory
            → refusal_of_write self.old.seen at (length bytes.now) ≡ None }
        ensures cost { OnOk result (steps.new ≤ steps.old + slots_written at (length bytes.now)) }
        ensures out_of_memory_cost { result ≡ Err StepFault.Memory
            → steps.new ≤ steps.old + slots_written at (length bytes.now) }
        ensures refused_cost { steps.new ≤ steps.old + 512 }
    {
        self.olds.read(&self.view, at, bytes.len(), steps);
        if let Err(fault) = self.view.write(&mut self.pool, at, bytes) {
            return Err(StepFault::from(fault));
        }
        let olds = self.olds.as_slice();
        let first = at - at % SLOT_LEN;
        match self.changes.note_write(&mut self.pool, first, olds, now) {
            Ok(()) => Ok(()),
            Err(_) => Err(StepFault::Memory),
        }
    }
}
