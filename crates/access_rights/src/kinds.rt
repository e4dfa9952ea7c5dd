//! The sets of accesses that rules speak of: the columns of the table of the kinds, and what is made of them.
//! From the right the bits of a column are `Ur`, `Uw`, `Ux`, `Sr`, `Sw`, `Sx`, `Ir`, `Iw`.

ghost use Rattle.std.specs.Prelude.{◌≡◌, ◌&&◌, true};
ghost use Rattle.paging_model.specs.AccessKinds.{is_data, is_fetch, is_implicit, is_supervisor, is_user, is_write};
ghost use Rattle.paging_model.specs.AccessRights.{smap_applies, wp_applies};
ghost use Rattle.paging_model.specs.AccessSets.{has};
ghost use Rattle.paging_model.specs.declared.access.Access.{Access};

use paging_model::access_sets::Rights;
use paging_model::registers::Regs;
use proc_regs::bit_ranges::bit;
use proc_regs::register_bits::{CR0_WP, CR4_SMAP};

/// The column of the user's accesses.
const USER: u8 = 0b0000_0111;

/// The column of implicit accesses.
const IMPLICIT: u8 = 0b1100_0000;

/// The column of writes.
const WRITES: u8 = 0b1001_0010;

/// The column of fetches.
const FETCHES: u8 = 0b0010_0100;

/// Each access.
pub fn all_accesses() -> Rights
    ensures { (access : Access) → has result access ≡ true }
{
    Rights::of_number(u8::MAX)
}

/// The user's accesses.
pub fn user_accesses() -> Rights
    ensures { (access : Access) → has result access ≡ is_user access }
{
    Rights::of_number(USER)
}

/// The accesses that the processor makes for itself.
pub fn implicit_accesses() -> Rights
    ensures { (access : Access) → has result access ≡ is_implicit access }
{
    Rights::of_number(IMPLICIT)
}

/// The data writes.
pub fn writes() -> Rights
    ensures { (access : Access) → has result access ≡ is_write access }
{
    Rights::of_number(WRITES)
}

/// The instruction fetches.
pub fn fetches() -> Rights
    ensures { (access : Access) → has result access ≡ is_fetch access }
{
    Rights::of_number(FETCHES)
}

/// The supervisor's accesses, explicit and implicit.
pub fn supervisor_accesses() -> Rights
    ensures { (access : Access) → has result access ≡ is_supervisor access }
{
    all_accesses().minus(&user_accesses())
}

/// The data reads and writes.
pub fn data_accesses() -> Rights
    ensures { (access : Access) → has result access ≡ is_data access }
{
    all_accesses().minus(&fetches())
}

/// The accesses that go by SMAP, where they are the supervisor's and to data: implicit ones, and explicit ones while AC
/// is 0.
pub fn smap_accesses(regs: &Regs) -> Rights
    ensures { (access : Access) → has result access ≡ smap_applies regs.now access }
{
    let stopped = if regs.ac {
        implicit_accesses()
    } else {
        all_accesses()
    };
    if_true(bit(regs.cr4, CR4_SMAP), stopped)
}

/// The accesses that go by R/W and WD, where they are writes: the user's, and the supervisor's while WP is 1.
pub fn wp_accesses(regs: &Regs) -> Rights
    ensures { (access : Access) → has result access ≡ wp_applies regs.now access }
{
    if bit(regs.cr0, CR0_WP) {
        all_accesses()
    } else {
        user_accesses()
    }
}

/// The set where the condition holds, else none.
pub fn if_true(condition: bool, set: Rights) -> Rights
    ensures { (access : Access) → has result access ≡ (condition && has set access) }
{
    if condition { set } else { Rights::none() }
}
