//! The accesses that a page grants at an address.

ghost use Rattle.std.specs.Prelude.{◌≡◌, ◌<◌};
ghost use Rattle.paging_model.specs.AccessSets.{minus_of};
ghost use Rattle.paging_model.specs.Translations.{rights_of};

use access_rights::rights;
use lam_lass::reach;
use paging_model::access_sets::Rights;
use paging_model::entries::Bits;
use paging_model::registers::Regs;

/// The accesses that a page with the joined bits of its walk and its protection key grants at an address: those that
/// its rights permit and whose pointer may spell the address.
pub fn rights_at(regs: &Regs, bits: Bits, key: u8, address: u64) -> Rights
    requires { key < 16 }
    ensures { result ≡ rights_of regs.now address (record { bits = bits; key = key }) }
{
    let grants = reach(regs, address).meet(&rights(regs, bits, key));
    // A set is given by its members: see the contract of `number`.
    let _number = grants.number();
    grants
}

/// The accesses that are in one set and not in the other.
pub(crate) fn difference(one: Rights, other: Rights) -> Rights
    ensures { result ≡ minus_of one other }
{
    let more = one.minus(&other);
    let _number = more.number();
    more
}
