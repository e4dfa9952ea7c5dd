//! The accesses that a mapped page permits, and why it refuses one.

ghost use Rattle.std.specs.Prelude.{◌≡◌, ◌↔◌, ◌<◌, IsNone, IsTrue};
ghost use Rattle.paging_model.specs.AccessSets.{has};
ghost use Rattle.paging_model.specs.AccessRights.{denial_of, is_granted};
ghost use Rattle.paging_model.specs.declared.access.Access.{Access};

use crate::kinds::all_accesses;
use crate::rules::{RULES, refusals};
use paging_model::access::{Access, Rule};
use paging_model::access_sets::Rights;
use paging_model::entries::Bits;
use paging_model::registers::Regs;

/// The accesses that a page with the joined bits of its walk and its protection key permits.
#[tactic(auto, unfolding(paging_model::specs::AccessRights::is_granted))]
pub fn rights(regs: &Regs, bits: Bits, key: u8) -> Rights
    requires { key < 16 }
    ensures { (access : Access) → has result access ≡ is_granted regs.now access bits key }
{
    let mut granted = all_accesses();
    for rule in RULES {
        granted = granted.minus(&refusals(regs, bits, key, rule));
    }
    granted
}

/// The first rule that refuses the access to such a page; `None` exactly where `rights` has it.
pub fn denial(regs: &Regs, access: Access, bits: Bits, key: u8) -> Option<Rule>
    requires { key < 16 }
    ensures rule { result ≡ denial_of regs.now access bits key }
    ensures granted { IsNone result ↔ IsTrue (is_granted regs.now access bits key) }
{
    for rule in RULES {
        if refusals(regs, bits, key, rule).has(access) {
            return Some(rule);
        }
    }
    None
}
