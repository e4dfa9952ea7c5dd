//! Zones: parts of a space throughout which the same accesses reach every address.
//!
//! LASS and masking go by the half of an address. Besides, masking to 48 bits (LAM_U48) changes each address of the
//! lower half from 2 to the 47 on, which is canonical under 5-level paging.

ghost use Rattle.std.specs.Prelude.{◌≡◌, ◌^◌, IsTrue, nat_lt};
ghost use Rattle.paging_model.specs.Pointers.{is_upper};

/// The first address of the lower half that masking to 48 bits changes.
pub(crate) const MIDDLE: u64 = 1 << 47;

/// The first address of the upper half.
const UPPER: u64 = 1 << 63;

/// Whether two canonical addresses are of one zone.
#[inline(always)]
pub(crate) fn is_one_zone(one: u64, other: u64) -> bool
    ensures half { IsTrue result → is_upper one ≡ is_upper other }
    ensures low { IsTrue result → nat_lt one (2 ^ 47) ≡ nat_lt other (2 ^ 47) }
{
    let same_half = (one < UPPER) == (other < UPPER);
    let same_side = (one < MIDDLE) == (other < MIDDLE);
    same_half && same_side
}
