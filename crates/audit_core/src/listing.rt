//! What a processor's listing shows.

ghost use Rattle.std.specs.Prelude.{All, IfOk, OnOk, Some};
ghost use Rattle.history_model.specs.KeptSpaces.{KeptAfterList, space_of};
ghost use Rattle.history_model.specs.Answering.{AnswersList};
ghost use Rattle.phys_view.specs.Seen.{memory_of};
ghost use Rattle.space_map.specs.TrueSpaces.{IsTrueOf};
ghost use Rattle.kept_spaces.specs.Keys.{keys_of};
ghost use Rattle.kept_spaces.specs.Listing.{ListTakes};

use area_list::areas_of;
use history_model::answers::Answer;
use kept_spaces::KeptSpaces;
use paging_model::registers::{Machine, Regs};
use paging_model::spaces::SpaceKey;
use phys_view::{Ledger, Steps, View};
use proc_regs::{root, settings};
use space_map::SpaceFault;
use std::alloc::{AllocError, Global};

/// The areas that are granted under these registers, by the space of the present root; or that the space is too large.
/// The space is kept.
///
/// # Errors
///
/// Out of memory. The space may be kept then.
pub fn list<L: Ledger>(
    alloc: Global,
    view: &View<'_, L>,
    spaces: &mut KeptSpaces,
    machine: &Machine,
    regs: &Regs,
    steps: &mut Steps<L>,
) -> Result<Answer, AllocError>
    requires { All (IsTrueOf (memory_of view.now)) spaces.old }
    ensures value { IfOk result (AnswersList (memory_of view.now) machine.now regs.now) }
    ensures are_kept { OnOk result (KeptAfterList (memory_of view.now) machine.now (Some regs.now)
        (keys_of spaces.old) (keys_of spaces.new)) }
    ensures are_true { OnOk result (All (IsTrueOf (memory_of view.now)) spaces.new) }
    ensures cost { ListTakes (memory_of view.now) (keys_of spaces.old)
        (space_of machine.now regs.now) steps.old steps.new }
{
    let key = SpaceKey {
        root: root(regs, machine),
        settings: settings(regs, machine),
    };
    match spaces.list(alloc, view, key, steps) {
        Ok(()) => {
            let areas = areas_of(alloc, regs, spaces.first().regions().list())?;
            Ok(Answer::Listed(areas))
        }
        Err(SpaceFault::TooLarge) => Ok(Answer::ListTooLarge),
        Err(SpaceFault::Memory) => Err(AllocError),
    }
}
