//! Whether an access is granted, and at which physical address.

ghost use Rattle.std.specs.Prelude.{◌≡◌, ◌+◌, ◌<◌, ◌≤◌};
ghost use Rattle.history_model.specs.Asking.{after_aim, answer_to_ask, at_end};
ghost use Rattle.phys_view.specs.Seen.{memory_of};
ghost use Rattle.walk_levels.specs.WalkEnds.{HasPage};

use access_rights::denial;
use history_model::answers::Why;
use lam_lass::aim;
use paging_model::access::{Access, AimRule};
use paging_model::registers::{Machine, Regs};
use paging_model::walks::{Page, Walk};
use phys_view::{Ledger, Steps, View};
use proc_regs::{root, settings};
use walk_levels::walk;

/// Whether an access by a pointer is granted under these registers, and at which physical address.
///
/// # Errors
///
/// The first reason: the pointer's rules come first, then the walk, then the rules of the page.
pub fn ask<L: Ledger>(
    view: &View<'_, L>,
    machine: &Machine,
    regs: &Regs,
    access: Access,
    pointer: u64,
    steps: &mut Steps<L>,
) -> Result<u64, Why>
    ensures value { result
        ≡ answer_to_ask (memory_of view.now) machine.now regs.now access pointer }
    ensures cost { steps.new ≤ steps.old + 5 }
{
    match aim(regs, access, pointer) {
        Ok(address) => answer_at(view, machine, regs, access, address, steps),
        Err(AimRule::NotCanonical) => Err(Why::NotCanonical),
        Err(AimRule::Lass) => Err(Why::Lass),
    }
}

/// Whether an access to a linear address is granted, by the walk from the present root, and at which physical address.
fn answer_at<L: Ledger>(
    view: &View<'_, L>,
    machine: &Machine,
    regs: &Regs,
    access: Access,
    address: u64,
    steps: &mut Steps<L>,
) -> Result<u64, Why>
    ensures value { result
        ≡ after_aim (memory_of view.now) machine.now regs.now access (Ok address) }
    ensures cost { steps.new ≤ steps.old + 5 }
{
    let settings = settings(regs, machine);
    let root = root(regs, machine);
    match walk(view, &settings, root, address, steps) {
        Walk::Mapped(page) => granted_address(regs, access, address, page),
        Walk::Absent(level) => Err(Why::Absent(level)),
        Walk::Reserved(level) => Err(Why::Reserved(level)),
        Walk::Unknown(level) => Err(Why::Unknown(level)),
    }
}

/// The physical address of a linear address in a page, unless a rule of the page denies the access.
fn granted_address(regs: &Regs, access: Access, address: u64, page: Page) -> Result<u64, Why>
    requires { HasPage (Walk.Mapped page) }
    ensures { result ≡ at_end regs.now access address (Walk.Mapped page) }
{
    match denial(regs, access, page.bits, page.key) {
        Some(rule) => Err(Why::Denied(rule)),
        None => Ok(page.frame + address % 4096),
    }
}
