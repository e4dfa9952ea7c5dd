//! A write to memory, and to the spaces that are kept of it.

ghost use Rattle.std.specs.Prelude.{◌≡◌, ◌≢◌, ◌+◌, ◌-◌, ◌/◌, ◌%◌, ◌≤◌, All, Err, Some, None, IfErr, OnOk, OnErr, length};
ghost use Rattle.history_model.specs.History.{with_bytes};
ghost use Rattle.phys_view.specs.Seen.{memory_of};
ghost use Rattle.phys_view.specs.Writes.{refusal_of_write};
ghost use Rattle.space_map.specs.TrueSpaces.{IsTrueOf};
ghost use Rattle.kept_spaces.specs.Keys.{keys_of};
ghost use Rattle.kept_spaces.specs.Updating.{AreUpdated};
ghost use Rattle.audit_core.specs.Remembering.{KeepsWrite, WriteTakes};

use crate::memory::Remembered;
use crate::old_entries::SLOT_LEN;
use history_model::faults::StepFault;
use kept_spaces::KeptSpaces;
use phys_view::{Ledger, Steps};

/// The length of a page in bytes.
const PAGE_LEN: u64 = 4096;

/// Replaces the bytes from an address on by others, at a time, and updates the kept spaces.
///
/// # Errors
///
/// The first reason for which they can't be written; then nothing is changed. `Memory` where memory ran out: they may
/// be written then, and the spaces may be as before or gone.
pub fn write<L: Ledger>(
    memory: &mut Remembered<'_, L>,
    spaces: &mut KeptSpaces,
    now: u32,
    at: u64,
    bytes: &[u8],
    steps: &mut Steps<L>,
) -> Result<(), StepFault>
    requires some { 1 ≤ length bytes.now }
    requires few { length bytes.now ≤ 4096 }
    requires are_true { All (IsTrueOf (memory_of memory.old.seen)) spaces.old }
    ensures ok { OnOk result (KeepsWrite memory.old memory.new now at bytes.now) }
    ensures updated { OnOk result (AreUpdated (memory_of memory.new.seen) spaces.old spaces.new) }
    ensures refused { IfErr result (λ fault. fault ≢ StepFault.Memory
        → refusal_of_write memory.old.seen at (length bytes.now) ≡ Some fault) }
    ensures unchanged { OnErr result (result ≢ Err StepFault.Memory
        → (memory.new ≡ memory.old) × (spaces.new ≡ spaces.old)) }
    ensures out_of_memory { result ≡ Err StepFault.Memory
        → refusal_of_write memory.old.seen at (length bytes.now) ≡ None }
    ensures cost { OnOk result (WriteTakes (memory_of memory.old.seen) at bytes.now
        (keys_of spaces.old) steps.old steps.new) }
    ensures out_of_memory_cost { result ≡ Err StepFault.Memory
        → WriteTakes (memory_of memory.old.seen) at bytes.now (keys_of spaces.old)
        steps.old steps.new }
    ensures refused_cost { IfErr result (λ fault. fault ≢ StepFault.Memory
        → steps.new ≤ steps.old + 512) }
{
    if let Err(fault) = memory.write(now, at, bytes, steps) {
        return Err(fault);
    }
    let (first_slot, last_slot) = slots_of(at, bytes.len());
    match spaces.update(
        memory.view(),
        at - at % PAGE_LEN,
        first_slot,
        last_slot,
        steps,
    ) {
        Ok(()) => Ok(()),
        Err(_) => Err(StepFault::Memory),
    }
}

/// The first and the last of a page's 512 slots that a write in the page touches.
fn slots_of(at: u64, len: usize) -> (u16, u16)
    requires some { 1 ≤ len }
    requires within { at % 4096 + len ≤ 4096 }
    ensures first { result.0 ≡ at % 4096 / 8 }
    ensures last { result.1 ≡ (at % 4096 + len - 1) / 8 }
{
    let first = at % PAGE_LEN;
    let last = first + len as u64 - 1;
    ((first / SLOT_LEN) as u16, (last / SLOT_LEN) as u16)
}
