//! What the registers grant of the pages of a zone.

ghost use Rattle.std.specs.Prelude.{◌≡◌, ℕ, ◌<◌, IsTrue};
ghost use Rattle.paging_model.specs.LinearAddress.{is_canonical};
ghost use Rattle.paging_model.specs.Registers.{la57};
ghost use Rattle.paging_model.specs.Translations.{rights_of};
ghost use Rattle.paging_model.specs.declared.registers.Regs.{Regs};
ghost use Rattle.area_list.specs.ReachSets.{IsReachOf};

use crate::protections::{PROTECTIONS, permitted_by, permitted_by_all};
use crate::zones::is_one_zone;
use lam_lass::reach;
use paging_model::access_sets::Rights;
use paging_model::entries::Bits;
use paging_model::registers::Regs;

/// The accesses that reach the zone of an address, and those that each protection permits.
#[derive(Drop)]
pub(crate) struct Grants {
    pub address: u64,
    pub reached: Rights,
    pub permitted: [u8; PROTECTIONS],
}

impl Grants {
    ghost use Rattle.area_list.specs.KeptGrants.{IsGrants};

    /// Those of the first address.
    pub fn new(regs: &Regs) -> Grants
        ensures { IsGrants regs.now result }
    {
        Grants {
            address: 0,
            reached: reach(regs, 0),
            permitted: permitted_by_all(regs),
        }
    }

    /// Goes on to an address. What reaches it is computed anew only where the zone changes.
    #[inline(always)]
    pub fn go_to(&mut self, regs: &Regs, address: u64)
        requires grants { IsGrants regs.now self.old }
        requires canonical { IsTrue (is_canonical (la57 regs.now) address) }
        ensures grants { IsGrants regs.now self.new }
        ensures reach { IsReachOf regs.now address self.new.reached }
    {
        if is_one_zone(self.address, address) {
            return;
        }
        self.address = address;
        self.reached = reach(regs, address);
    }

    /// The accesses that a page of the zone permits.
    #[inline(always)]
    pub fn rights(&self, bits: Bits, key: u8) -> Rights
        requires { key < 16 }
        ensures { (regs : Regs) (x : ℕ) → IsGrants regs self.now → IsReachOf regs x self.now.reached
            → result ≡ rights_of regs x (record { bits = bits; key = key }) }
    {
        let permitted = self.reached.meet(&permitted_by(&self.permitted, bits, key));
        // A set is given by its members: see the contract of `number`.
        let _number = permitted.number();
        permitted
    }
}
