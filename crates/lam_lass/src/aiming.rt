//! The address that an access by a pointer goes to.

ghost use Rattle.std.specs.Prelude.{◌≡◌, ◌&&◌};
ghost use Rattle.paging_model.specs.AccessSets.{has};
ghost use Rattle.paging_laws.specs.ReachedAddresses.{is_same};
ghost use Rattle.paging_model.specs.LinearAddress.{is_canonical};
ghost use Rattle.paging_model.specs.Pointers.{address_of as address_by, aim_of, lass_refuses, mask_width as width_of, reaches};
ghost use Rattle.paging_model.specs.Registers.{la57, lass};
ghost use Rattle.paging_model.specs.declared.access.Access.{Access};

use crate::masking::{UPPER, address_of, mask_accesses, mask_width};
use access_rights::kinds::{
    all_accesses, fetches, if_true, smap_accesses, supervisor_accesses, user_accesses,
};
use paging_model::access::{Access, AimRule};
use paging_model::access_sets::Rights;
use paging_model::registers::Regs;
use proc_regs::bit_ranges::bit;
use proc_regs::canonical;
use proc_regs::register_bits::{CR4_LA57, CR4_LASS};

/// The linear address that an access by a pointer goes to.
///
/// # Errors
///
/// The first that applies: the pointer's bit 63 isn't the highest bit of the address that it is masked to, or the
/// address isn't canonical (`NotCanonical`); the address lies in the half that LASS keeps from the access (`Lass`).
#[tactic(auto, unfolding(paging_model::specs::Pointers::aim_of))]
pub fn aim(regs: &Regs, access: Access, pointer: u64) -> Result<u64, AimRule>
    ensures { result ≡ aim_of regs.now access pointer }
{
    let width = mask_width(regs, access, pointer);
    let Some(address) = address_of(width, pointer) else {
        return Err(AimRule::NotCanonical);
    };
    if !canonical(bit(regs.cr4, CR4_LA57), address) {
        return Err(AimRule::NotCanonical);
    }
    if lass_refusals(regs, address).has(access) {
        return Err(AimRule::Lass);
    }
    Ok(address)
}

/// The accesses that go to an address by the pointer that spells it: those for which `aim` of the address is the
/// address itself. Where it isn't canonical there are none.
#[tactic(auto, using(paging_laws::proofs::ReachLaws::reaches_is))]
pub fn reach(regs: &Regs, address: u64) -> Rights
    ensures { (access : Access) → has result access ≡ reaches regs.now access address }
{
    if_canonical(regs, address)
        .meet(&kept_by_masking(regs, address))
        .minus(&lass_refusals(regs, address))
}

/// Each access where an address is canonical, else none.
fn if_canonical(regs: &Regs, address: u64) -> Rights
    ensures { (access : Access) → has result access ≡ is_canonical (la57 regs.now) address }
{
    if_true(canonical(bit(regs.cr4, CR4_LA57), address), all_accesses())
}

/// The accesses whose masking leaves an address as it is.
fn kept_by_masking(regs: &Regs, address: u64) -> Rights
    ensures { (access : Access) → has result access
        ≡ is_same (address_by (width_of regs.now access address) address) address }
{
    // The accesses that are masked are masked alike, those of the user and those of the supervisor.
    let width = mask_width(regs, Access::Ur, address);
    if address_of(width, address) == Some(address) {
        all_accesses()
    } else {
        all_accesses().minus(&mask_accesses())
    }
}

/// The accesses from which LASS keeps the half of an address.
fn lass_refusals(regs: &Regs, address: u64) -> Rights
    ensures { (access : Access) → has result access
        ≡ (lass regs.now && lass_refuses regs.now access address) }
{
    let refused = if bit(address, UPPER) {
        user_accesses()
    } else {
        supervisor_accesses().meet(&fetches().join(&smap_accesses(regs)))
    };
    if_true(bit(regs.cr4, CR4_LASS), refused)
}
