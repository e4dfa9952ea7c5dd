//! What each protection permits: the joined bits of a page and its key, of which there are 128 together.

ghost use Rattle.std.specs.Prelude.{◌≡◌, ◌<◌};
ghost use Rattle.paging_model.specs.AccessRights.{is_granted};
ghost use Rattle.paging_model.specs.AccessSets.{has};
ghost use Rattle.paging_model.specs.declared.access.Access.{Access};
ghost use Rattle.paging_model.specs.declared.registers.Regs.{Regs};
ghost use Rattle.area_list.specs.Protections.{ArePermitted, bits_of_number, protection_number};

use access_rights::rights;
use paging_model::access_sets::Rights;
use paging_model::entries::Bits;
use paging_model::registers::Regs;
use proc_regs::bit_ranges::bit;

/// How many protections there are: three bits, and a key of four.
pub(crate) const PROTECTIONS: usize = 128;

/// The accesses that each protection permits, by its number.
pub(crate) fn permitted_by_all(regs: &Regs) -> [u8; PROTECTIONS]
    ensures { ArePermitted regs.now result }
{
    let mut permitted = [0; PROTECTIONS];
    for number in 0..128u8 {
        let of_one = rights(regs, bits_of(number), number / 8);
        permitted[usize::from(number)] = of_one.number();
    }
    permitted
}

/// The accesses that a protection permits.
#[inline(always)]
pub(crate) fn permitted_by(permitted: &[u8; PROTECTIONS], bits: Bits, key: u8) -> Rights
    requires { key < 16 }
    ensures { (regs : Regs) → ArePermitted regs permitted.now
        → (access : Access) → has result access ≡ is_granted regs access bits key }
{
    Rights::of_number(permitted[number_of(bits, key)])
}

/// The bits of a protection by its number.
fn bits_of(number: u8) -> Bits
    ensures { result ≡ bits_of_number number }
{
    let number = u64::from(number);
    Bits {
        write: bit(number, 0),
        user: bit(number, 1),
        xd: bit(number, 2),
    }
}

/// The number of a protection.
#[inline(always)]
fn number_of(bits: Bits, key: u8) -> usize
    requires { key < 16 }
    ensures value { result ≡ protection_number bits key }
    ensures below { result < 128 }
{
    let write = if bits.write { 1 } else { 0 };
    let user = if bits.user { 2 } else { 0 };
    let xd = if bits.xd { 4 } else { 0 };
    8 * usize::from(key) + xd + user + write
}
