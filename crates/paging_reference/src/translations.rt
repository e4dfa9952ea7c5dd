//! What a page is mapped to, and which accesses it grants there.

ghost use Rattle.std.specs.Prelude.{◌≡◌, ◌<◌, option_map};
ghost use Rattle.paging_model.specs.Entries.{IsFrame};
ghost use Rattle.paging_model.specs.Translations.{present_target as present_of, rights_of};
ghost use Rattle.paging_reference.specs.PageTargets.{target_of};

use crate::physical_memory::PhysicalMemory;
use crate::walking::walk;
use access_rights::rights;
use lam_lass::reach;
use paging_model::access_sets::Rights;
use paging_model::entries::Bits;
use paging_model::registers::{Machine, Regs};
use paging_model::walks::Walk;
use proc_regs::settings;

/// The frame of a page, and the accesses that are granted there.
#[derive(Clone, Copy, Debug, PartialEq, Eq)]
pub struct PageTarget {
    pub frame: u64,
    pub rights: Rights,
}

/// The accesses that a page with these joined bits and this key permits at an address: those whose pointer may spell
/// the address, and that no rule refuses.
pub fn permitted_accesses(regs: &Regs, address: u64, bits: Bits, key: u8) -> Rights
    requires { key < 16 }
    ensures { result ≡ rights_of regs.now address (record { bits = bits; key = key }) }
{
    let both = reach(regs, address).meet(&rights(regs, bits, key));
    Rights::of_number(both.number())
}

/// The present translation of a page, from a root.
pub fn present_target<M: PhysicalMemory>(
    memory: &M,
    machine: &Machine,
    regs: &Regs,
    root: u64,
    address: u64,
) -> Option<PageTarget>
    requires { IsFrame root }
    ensures { option_map target_of result
        ≡ present_of (M.contents memory.now) machine.now regs.now root address }
{
    match walk(memory, &settings(regs, machine), root, address) {
        Walk::Mapped(page) => Some(PageTarget {
            frame: page.frame,
            rights: permitted_accesses(regs, address, page.bits, page.key),
        }),
        _ => None,
    }
}
