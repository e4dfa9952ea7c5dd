//! The PCIDs that a processor has been in, the roots that it had in them, and the pairs of a processor and a PCID that
//! a point checks.

ghost use Rattle.std.specs.Prelude.{◌≡◌, ℕ, ◌++◌, map, option_map, if◌then◌else◌, IfOk, IfSome};
ghost use Rattle.paging_model.specs.Entries.{IsFrame};
ghost use Rattle.paging_model.specs.Registers.{pcid_of as pcid_of_regs};
ghost use Rattle.history_model.specs.History.{last_root as last_root_of, last_root_under as last_root_by, processors as processors_of, processors_after as processors_by, regs as regs_of, visited_pcids as visited_of, with_number as with_number_of, with_pcid as with_pcid_of};
ghost use Rattle.history_model.specs.StaleTranslations.{scope as scope_at, scope_of, pcids_at};
ghost use Rattle.history_reference.specs.Moments.{changed_processor, history_of};

use crate::moments::{Moment, machine, regs, with_change};
use history_model::events::Event;
use paging_model::registers::{Machine, Processor, RegChange, Regs};
use proc_regs::{pcid, root};
use std::alloc::{AllocError, Global};

/// The processors and their registers, ascending by number.
pub fn processors(alloc: Global, moment: &Moment) -> Result<Vec<Processor>, AllocError>
    ensures { IfOk result (λ list. list.items ≡ processors_of (history_of moment.now)) }
{
    match moment {
        Moment::First(beginning) => Vec::from_slice(alloc, &beginning.processors),
        Moment::After(before, event) => {
            let list = processors(alloc, before)?;
            processors_after(alloc, event, list)
        }
    }
}

/// What an event makes of the processors' registers.
fn processors_after(
    alloc: Global,
    event: &Event,
    list: Vec<Processor>,
) -> Result<Vec<Processor>, AllocError>
    ensures { IfOk result (λ after. after.items ≡ processors_by event.now list.items) }
{
    let Event::Set { cpu, change } = event else {
        return Ok(list);
    };
    set_in(alloc, *cpu, *change, &list)
}

/// A change of one processor's registers.
fn set_in(
    alloc: Global,
    cpu: u32,
    change: RegChange,
    list: &[Processor],
) -> Result<Vec<Processor>, AllocError>
    ensures { IfOk result (λ after. after.items ≡ map (changed_processor cpu change) list.now) }
{
    list.iter()
        .map(|one| set_one(cpu, change, one))
        .collect(alloc)
}

/// A change of a processor's registers, where it has the number.
fn set_one(cpu: u32, change: RegChange, one: &Processor) -> Processor
    ensures { result ≡ changed_processor cpu change one.now }
{
    if one.number == cpu {
        Processor {
            regs: with_change(change, one.regs),
            ..*one
        }
    } else {
        *one
    }
}

/// The PCIDs that a processor has been in, ascending.
pub fn visited_pcids(alloc: Global, moment: &Moment, cpu: u32) -> Result<Vec<u16>, AllocError>
    ensures { IfOk result (λ list. list.items ≡ visited_of (history_of moment.now) cpu) }
{
    match moment {
        Moment::First(_) => with_pcid(alloc, regs(moment, cpu), Vec::new(alloc)),
        Moment::After(before, _) => {
            let earlier = visited_pcids(alloc, before, cpu)?;
            with_pcid(alloc, regs(moment, cpu), earlier)
        }
    }
}

/// Ascending numbers, and the PCID of a known processor.
fn with_pcid(alloc: Global, known: Option<Regs>, list: Vec<u16>) -> Result<Vec<u16>, AllocError>
    ensures { IfOk result
        (λ after. after.items ≡ with_pcid_of (option_map pcid_of_regs known) list.items) }
{
    let Some(known) = known else {
        return Ok(list);
    };
    with_number(alloc, pcid(&known), &list)
}

/// Ascending numbers and one more, each of them once.
fn with_number(alloc: Global, number: u16, list: &[u16]) -> Result<Vec<u16>, AllocError>
    ensures { IfOk result (λ after. after.items ≡ with_number_of number list.now) }
{
    let Some((one, others)) = list.split_first() else {
        return Ok(vec![in alloc; number]?);
    };
    if number == *one {
        return Vec::from_slice(alloc, list);
    }
    if number < *one {
        let mut after = Vec::from_slice(alloc, list)?;
        after.insert(0, number)?;
        return Ok(after);
    }
    let mut after = with_number(alloc, number, others)?;
    after.insert(0, *one)?;
    Ok(after)
}

/// The root that a processor had last in a PCID.
pub fn last_root(moment: &Moment, cpu: u32, pcid: u16) -> Option<u64>
    ensures value { result ≡ last_root_of (history_of moment.now) cpu pcid }
    ensures frame { IfSome result IsFrame }
{
    match moment {
        Moment::First(beginning) => {
            last_root_under(&beginning.machine, regs(moment, cpu), pcid, None)
        }
        Moment::After(before, _) => last_root_under(
            &machine(before),
            regs(moment, cpu),
            pcid,
            last_root(before, cpu, pcid),
        ),
    }
}

/// The root of these registers, where they are in the PCID, else an earlier one.
fn last_root_under(
    machine: &Machine,
    known: Option<Regs>,
    pcid_asked: u16,
    earlier: Option<u64>,
) -> Option<u64>
    requires { IfSome earlier IsFrame }
    ensures value { result ≡ last_root_by machine.now known pcid_asked earlier }
    ensures frame { IfSome result IsFrame }
{
    let Some(known) = known else {
        return earlier;
    };
    if pcid(&known) != pcid_asked {
        return earlier;
    }
    Some(root(&known, machine))
}

/// The pairs of a processor and a PCID that a point checks: of all PCIDs that it visited, or of its current one.
pub fn scope(alloc: Global, moment: &Moment, all: bool) -> Result<Vec<(u32, u16)>, AllocError>
    ensures { IfOk result (λ pairs. pairs.items ≡ scope_at (history_of moment.now) all) }
{
    let list = processors(alloc, moment)?;
    scope_in(alloc, moment, &list, all)
}

/// The pairs of these processors.
fn scope_in(
    alloc: Global,
    moment: &Moment,
    list: &[Processor],
    all: bool,
) -> Result<Vec<(u32, u16)>, AllocError>
    ensures { IfOk result
        (λ pairs. pairs.items ≡ scope_of (history_of moment.now) list.now all) }
{
    let Some((one, others)) = list.split_first() else {
        return Ok(Vec::new(alloc));
    };
    let pcids = pcids_of(alloc, moment, one, all)?;
    let mut pairs = pairs_of(alloc, one.number, &pcids)?;
    let later = scope_in(alloc, moment, others, all)?;
    pairs.extend_from_slice(&later)?;
    Ok(pairs)
}

/// The PCIDs of a processor that a point checks.
fn pcids_of(
    alloc: Global,
    moment: &Moment,
    one: &Processor,
    all: bool,
) -> Result<Vec<u16>, AllocError>
    ensures { IfOk result
        (λ pcids. pcids.items ≡ pcids_at (history_of moment.now) one.now all) }
{
    if all {
        visited_pcids(alloc, moment, one.number)
    } else {
        Ok(vec![in alloc; pcid(&one.regs)]?)
    }
}

/// The pairs of a processor with each of these PCIDs.
fn pairs_of(alloc: Global, number: u32, pcids: &[u16]) -> Result<Vec<(u32, u16)>, AllocError>
    ensures { IfOk result (λ pairs. pairs.items ≡ map (λ c. (number, c)) pcids.now) }
{
    pcids.iter().map(|c| (number, *c)).collect(alloc)
}
