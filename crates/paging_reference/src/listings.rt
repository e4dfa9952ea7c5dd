//! The areas of given pages: of pages that follow one another, with frames that do and equal rights.

ghost use Rattle.std.specs.Prelude.{◌≡◌, ◌+◌, ◌%◌, ◌==◌, ◌↔◌, ◌∷◌, map, IsTrue, IfOk};
ghost use Rattle.paging_model.specs.LinearAddress.{IsPage};
ghost use Rattle.paging_model.specs.Listings.{AreAreas, IsListing, stretch_of_area};
ghost use Rattle.paging_model.specs.Registers.{la57, root_of};
ghost use Rattle.paging_model.specs.Translations.{present_target as present_of};
ghost use Rattle.paging_reference.specs.ListedPages.{AreAllMapped, ArePages, is_one_with as is_one_with_by, target_among, with_first_page as with_page_of};
ghost use Rattle.paging_reference.specs.PageTargets.{target_of};

use crate::physical_memory::PhysicalMemory;
use crate::translations::{PageTarget, present_target};
use paging_model::registers::{Machine, Regs};
use paging_model::spaces::Area;
use proc_regs::{canonical, root};
use std::alloc::{AllocError, Global};

/// Whether a linear address is the first of a 4-KByte page of canonical addresses.
pub fn is_page(la57: bool, address: u64) -> bool
    ensures { IsTrue result ↔ IsPage la57 address }
{
    address % 4096 == 0 && canonical(la57, address)
}

/// Whether addresses ascend, and each is the first of a page.
pub fn are_pages(la57: bool, addresses: &[u64]) -> bool
    ensures { IsTrue result ↔ ArePages la57 addresses.now }
{
    let Some((one, others)) = addresses.split_first() else {
        return true;
    };
    is_page(la57, *one) && others.iter().all(|other| *one < *other) && are_pages(la57, others)
}

/// The areas of ascending pages by the present registers and tables. Where each page that is mapped is given, they are
/// the areas of the space.
pub fn areas_among<M: PhysicalMemory>(
    alloc: Global,
    memory: &M,
    machine: &Machine,
    regs: &Regs,
    pages: &[u64],
) -> Result<Vec<Area>, AllocError>
    requires { ArePages (la57 regs.now) pages.now }
    ensures among { IfOk result (λ areas. IsListing (la57 regs.now)
        (target_among pages.now (present_of (M.contents memory.now) machine.now regs.now
        (root_of regs.now machine.now)))
        (map stretch_of_area areas.items)) }
    ensures whole { AreAllMapped (la57 regs.now) (present_of (M.contents memory.now) machine.now
        regs.now (root_of regs.now machine.now)) pages.now
        → IfOk result (λ areas. AreAreas (M.contents memory.now) machine.now regs.now areas.items) }
{
    areas_of(alloc, memory, machine, regs, pages)
}

/// The areas of ascending pages.
fn areas_of<M: PhysicalMemory>(
    alloc: Global,
    memory: &M,
    machine: &Machine,
    regs: &Regs,
    pages: &[u64],
) -> Result<Vec<Area>, AllocError>
    requires { ArePages (la57 regs.now) pages.now }
    ensures { IfOk result (λ areas. IsListing (la57 regs.now)
        (target_among pages.now (present_of (M.contents memory.now) machine.now regs.now
        (root_of regs.now machine.now)))
        (map stretch_of_area areas.items)) }
{
    let Some((page, others)) = pages.split_first() else {
        return Ok(Vec::new(alloc));
    };
    let later = areas_of(alloc, memory, machine, regs, others)?;
    let Some(target) = present_target(memory, machine, regs, root(regs, machine), *page) else {
        return Ok(later);
    };
    with_page(alloc, *page, &target, &later)
}

/// Areas with a page before them: it goes into the first of them, where it makes one with it.
fn with_page(
    alloc: Global,
    page: u64,
    target: &PageTarget,
    later: &[Area],
) -> Result<Vec<Area>, AllocError>
    requires { page % 4096 ≡ 0 }
    ensures { IfOk result (λ areas. map stretch_of_area areas.items
        ≡ with_page_of page (target_of target.now) (map stretch_of_area later.now)) }
{
    let first = Area {
        first: page,
        last: page + 4095,
        frame: target.frame,
        rights: target.rights,
    };
    let Some((next, others)) = later.split_first() else {
        return with_first(alloc, &first, later);
    };
    if !is_one_with(page, target, next) {
        return with_first(alloc, &first, later);
    }
    let both = Area {
        first: page,
        last: next.last,
        frame: target.frame,
        rights: next.rights,
    };
    with_first(alloc, &both, others)
}

/// Areas with one before them.
fn with_first(alloc: Global, first: &Area, others: &[Area]) -> Result<Vec<Area>, AllocError>
    ensures { IfOk result (λ areas. areas.items ≡ first.now ∷ others.now) }
{
    let mut areas = Vec::from_slice(alloc, others)?;
    areas.insert(0, *first)?;
    Ok(areas)
}

/// Whether a page makes one with the area after it.
fn is_one_with(page: u64, target: &PageTarget, next: &Area) -> bool
    ensures { result ≡ is_one_with_by page (target_of target.now) (stretch_of_area next.now) }
{
    follows(page, next.first)
        && follows(target.frame, next.frame)
        && next.rights.number() == target.rights.number()
}

/// Whether an address is one page after another.
fn follows(one: u64, other: u64) -> bool
    ensures { result ≡ (other == one + 4096) }
{
    4096 <= other && other - 4096 == one
}
