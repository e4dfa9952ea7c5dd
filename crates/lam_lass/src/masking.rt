//! Linear-address masking: the bits of a pointer that aren't part of its address.

ghost use Rattle.std.specs.Prelude.{◌≡◌, ◌≤◌, ℕ, Some, None, if◌then◌else◌};
ghost use Rattle.paging_model.specs.AccessSets.{has};
ghost use Rattle.paging_model.specs.Pointers.{address_of as address_by, is_masked, mask_width as width_of, masked_pointer as masked_by};
ghost use Rattle.paging_model.specs.Registers.{la57, lam_sup, lam_u48, lam_u57};
ghost use Rattle.paging_model.specs.declared.access.Access.{Access};

use access_rights::kinds::{data_accesses, implicit_accesses};
use paging_model::access::Access;
use paging_model::access_sets::Rights;
use paging_model::registers::Regs;
use proc_regs::bit_ranges::{bit, field};
use proc_regs::register_bits::{CR3_LAM_U48, CR3_LAM_U57, CR4_LA57, CR4_LAM_SUP};

/// Bit 63: the pointer names the upper half, which is the supervisor's.
pub const UPPER: u8 = 63;

/// How many low bits of a pointer are its address, where it is masked: 57 or 48.
pub fn mask_width(regs: &Regs, access: Access, pointer: u64) -> Option<u8>
    ensures { result ≡ width_of regs.now access pointer }
{
    if !mask_accesses().has(access) {
        None
    } else if bit(pointer, UPPER) {
        supervisor_width(regs)
    } else {
        user_width(regs)
    }
}

/// The accesses whose pointers are masked: explicit ones to data.
pub fn mask_accesses() -> Rights
    ensures { (access : Access) → has result access ≡ is_masked access }
{
    data_accesses().minus(&implicit_accesses())
}

/// The address of a pointer that is masked to a width, or of one that isn't masked. None where bit 63 and the highest
/// bit of the address differ.
pub fn address_of(width: Option<u8>, pointer: u64) -> Option<u64>
    requires least { (bits : ℕ) → width ≡ Some bits → 2 ≤ bits }
    requires most { (bits : ℕ) → width ≡ Some bits → bits ≤ 62 }
    ensures { result ≡ address_by width pointer }
{
    match width {
        None => Some(pointer),
        Some(width) if bit(pointer, UPPER) == bit(pointer, width - 1) => {
            Some(masked_pointer(pointer, width))
        }
        Some(_) => None,
    }
}

/// The width of supervisor pointers: 57 under 5-level paging, 48 under 4-level paging.
fn supervisor_width(regs: &Regs) -> Option<u8>
    ensures { result
        ≡ (if lam_sup regs.now then Some (if la57 regs.now then 57 else 48) else None) }
{
    if bit(regs.cr4, CR4_LAM_SUP) {
        Some(if bit(regs.cr4, CR4_LA57) { 57 } else { 48 })
    } else {
        None
    }
}

/// The width of user pointers: 57 (LAM_U57) before 48 (LAM_U48).
fn user_width(regs: &Regs) -> Option<u8>
    ensures { result
        ≡ (if lam_u57 regs.now then Some 57 else (if lam_u48 regs.now then Some 48 else None)) }
{
    if bit(regs.cr3, CR3_LAM_U57) {
        Some(57)
    } else if bit(regs.cr3, CR3_LAM_U48) {
        Some(48)
    } else {
        None
    }
}

/// The pointer with bits 62:width each replaced by the bit below them.
fn masked_pointer(pointer: u64, width: u8) -> u64
    requires least { 2 ≤ width }
    requires most { width ≤ 62 }
    ensures { result ≡ masked_by pointer width }
{
    let address = field(pointer, width - 1, 0);
    let sign = if bit(pointer, width - 1) {
        (1 << 63) - (1 << width)
    } else {
        0
    };
    let upper = if bit(pointer, UPPER) { 1 << 63 } else { 0 };
    address + sign + upper
}
