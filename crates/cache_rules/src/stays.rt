//! Stays of a processor: times in which its PCID, its root, NXE and PGE were the same.

ghost use Rattle.std.specs.Prelude.{◌≡◌};
ghost use Rattle.cache_rules.specs.Hosts.{is_moved, new_stay, stay_from};

use paging_model::registers::{Machine, Regs};
use proc_regs::bit_ranges::bit;
use proc_regs::register_bits::{CR4_PGE, EFER_NXE};
use proc_regs::{pcid, root};

/// From which time on a processor was in a PCID, with a root, NXE and PGE.
#[derive(Clone, Copy, Debug, PartialEq, Eq)]
pub struct Stay {
    /// The physical address of the top table.
    pub root: u64,
    /// The time at which it began.
    pub from: u32,
    pub pcid: u16,
    /// EFER.NXE.
    pub nxe: bool,
    /// CR4.PGE.
    pub pge: bool,
}

/// The stay under these registers, from a time on.
pub(crate) fn stay_from(from: u32, machine: &Machine, regs: &Regs) -> Stay
    ensures { result ≡ stay_from from machine.now regs.now }
{
    Stay {
        root: root(regs, machine),
        from,
        pcid: pcid(regs),
        nxe: bit(regs.efer, EFER_NXE),
        pge: bit(regs.cr4, CR4_PGE),
    }
}

/// The stay that begins at a time with the registers `after`, where the PCID, the root, NXE or PGE is another one than
/// before.
pub(crate) fn new_stay(now: u32, machine: &Machine, before: &Regs, after: &Regs) -> Option<Stay>
    ensures { result ≡ new_stay now machine.now before.now after.now }
{
    if is_moved(machine, before, after) {
        Some(stay_from(now, machine, after))
    } else {
        None
    }
}

/// Whether the PCID, the root, NXE or PGE is another one.
fn is_moved(machine: &Machine, before: &Regs, after: &Regs) -> bool
    ensures { result ≡ is_moved machine.now before.now after.now }
{
    pcid(before) != pcid(after)
        || root(before, machine) != root(after, machine)
        || bit(before.efer, EFER_NXE) != bit(after.efer, EFER_NXE)
        || bit(before.cr4, CR4_PGE) != bit(after.cr4, CR4_PGE)
}
