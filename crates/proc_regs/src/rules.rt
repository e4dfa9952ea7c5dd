//! Which register states and changes are refused.

ghost use Rattle.std.specs.Prelude.{◌≡◌, OnErr};
ghost use Rattle.paging_model.specs.RegisterRules.{after_change, change_of, with_change, changes_la57, check_of, keeps_without_pcid, not_long, paging_off, past_the_width, starts_with_pcid};

use crate::bit_ranges::{bit, field, some_bit};
use crate::register_bits::{
    CR0_PE, CR0_PG, CR3_KEEP, CR4_LA57, CR4_PAE, CR4_PCIDE, EFER_LMA, EFER_LME,
};
use paging_model::registers::{Machine, RegChange, RegRule, Regs};

/// Checks a register state.
///
/// # Errors
///
/// The first rule that it breaks, of: paging is off (`PagingOff`), the processor isn't in IA-32e mode (`NotLong`),
/// CR4.PAE is 0 (`NoPae`), a reserved bit of CR3 is 1 (`Cr3Reserved`).
pub fn check(machine: &Machine, regs: &Regs) -> Result<(), RegRule>
    ensures { result ≡ check_of machine.now regs.now }
{
    if is_paging_off(regs) {
        return Err(RegRule::PagingOff);
    }
    if is_not_long(regs) {
        return Err(RegRule::NotLong);
    }
    if !bit(regs.cr4, CR4_PAE) {
        return Err(RegRule::NoPae);
    }
    if bit(regs.cr3, CR3_KEEP) || is_past_the_width(machine, regs.cr3) {
        return Err(RegRule::Cr3Reserved);
    }
    Ok(())
}

/// Gives one register a new value. Bit 63 of a value for CR3 isn't stored: it only says that the translations of the
/// PCID are kept.
///
/// # Errors
///
/// The first rule that the change breaks; then the registers stay as they are. A value for CR0 without paging
/// (`PagingOff`), for EFER outside IA-32e mode (`NotLong`), for CR4 without PAE (`NoPae`), with another LA57
/// (`La57Changed`), or that turns PCIDE on while CR3 bits 11:0 aren't 0 (`PcidNotZero`), for CR3 with bit 63 while
/// PCIDE is 0 (`KeepBitWithoutPcid`), or with one of bits 60:M (`Cr3Reserved`).
pub fn change(regs: &mut Regs, machine: &Machine, change: RegChange) -> Result<(), RegRule>
    ensures rule { result ≡ change_of machine.now change regs.old }
    ensures after { regs.new ≡ after_change machine.now change regs.old }
    ensures refused { OnErr result (regs.new ≡ regs.old) }
{
    check_change(machine, change, regs)?;
    *regs = with_change(change, regs);
    Ok(())
}

/// Checks a change before it is made. The first rule from the top that refuses it counts.
fn check_change(machine: &Machine, change: RegChange, regs: &Regs) -> Result<(), RegRule>
    ensures { result ≡ change_of machine.now change regs.now }
{
    match change {
        RegChange::Cr0(cr0) if is_paging_off(&Regs { cr0, ..*regs }) => Err(RegRule::PagingOff),
        RegChange::Efer(efer) if is_not_long(&Regs { efer, ..*regs }) => Err(RegRule::NotLong),
        RegChange::Cr4(cr4) if !bit(cr4, CR4_PAE) => Err(RegRule::NoPae),
        RegChange::Cr4(cr4) if changes_la57(cr4, regs) => Err(RegRule::La57Changed),
        RegChange::Cr4(cr4) if starts_with_pcid(cr4, regs) => Err(RegRule::PcidNotZero),
        RegChange::Cr3(cr3) if keeps_without_pcid(cr3, regs) => Err(RegRule::KeepBitWithoutPcid),
        RegChange::Cr3(cr3) if is_past_the_width(machine, cr3) => Err(RegRule::Cr3Reserved),
        _ => Ok(()),
    }
}

/// The registers with one of them changed, whether or not a rule refuses that.
fn with_change(change: RegChange, regs: &Regs) -> Regs
    ensures { result ≡ with_change change regs.now }
{
    match change {
        RegChange::Cr0(cr0) => Regs { cr0, ..*regs },
        RegChange::Cr3(cr3) => Regs {
            cr3: field(cr3, 62, 0),
            ..*regs
        },
        RegChange::Cr4(cr4) => Regs { cr4, ..*regs },
        RegChange::Efer(efer) => Regs { efer, ..*regs },
        RegChange::Ac(ac) => Regs { ac, ..*regs },
        RegChange::Pkru(pkru) => Regs { pkru, ..*regs },
        RegChange::Pkrs(pkrs) => Regs { pkrs, ..*regs },
    }
}

/// Whether CR0.PE or CR0.PG is 0.
fn is_paging_off(regs: &Regs) -> bool
    ensures { result ≡ paging_off regs.now }
{
    !bit(regs.cr0, CR0_PE) || !bit(regs.cr0, CR0_PG)
}

/// Whether EFER.LME or EFER.LMA is 0.
fn is_not_long(regs: &Regs) -> bool
    ensures { result ≡ not_long regs.now }
{
    !bit(regs.efer, EFER_LME) || !bit(regs.efer, EFER_LMA)
}

/// Whether a value for CR4 has another LA57.
fn changes_la57(cr4: u64, regs: &Regs) -> bool
    ensures { result ≡ changes_la57 cr4 regs.now }
{
    bit(cr4, CR4_LA57) != bit(regs.cr4, CR4_LA57)
}

/// Whether a value for CR4 turns PCIDs on while CR3 bits 11:0 aren't 0.
fn starts_with_pcid(cr4: u64, regs: &Regs) -> bool
    ensures { result ≡ starts_with_pcid cr4 regs.now }
{
    bit(cr4, CR4_PCIDE) && !bit(regs.cr4, CR4_PCIDE) && some_bit(regs.cr3, 11, 0)
}

/// Whether a value for CR3 keeps the translations of its PCID while PCIDs are off.
fn keeps_without_pcid(cr3: u64, regs: &Regs) -> bool
    ensures { result ≡ keeps_without_pcid cr3 regs.now }
{
    bit(cr3, CR3_KEEP) && !bit(regs.cr4, CR4_PCIDE)
}

/// Whether a value for CR3 has one of the bits between the root and those of linear-address masking.
fn is_past_the_width(machine: &Machine, cr3: u64) -> bool
    ensures { result ≡ past_the_width machine.now cr3 }
{
    some_bit(cr3, 60, machine.m)
}
