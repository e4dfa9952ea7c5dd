//! The rules that refuse accesses to a mapped page, a function each: the set of accesses that the rule refuses.

ghost use Rattle.std.specs.Prelude.{◌≡◌, ℕ, ◌+◌, ◌*◌, ◌<◌};
ghost use Rattle.paging_model.specs.AccessRights.{access_disable, key_refuses, key_register as register_of, refuses, rules, smap_refuses, smep_refuses, user_refuses, write_disable, write_refuses, xd_refuses};
ghost use Rattle.paging_model.specs.AccessSets.{has};
ghost use Rattle.paging_model.specs.BitRanges.{bit};
ghost use Rattle.paging_model.specs.declared.access.Access.{Access};

use crate::kinds::{
    all_accesses, data_accesses, fetches, if_true, smap_accesses, supervisor_accesses,
    user_accesses, wp_accesses, writes,
};
use paging_model::access::Rule;
use paging_model::access_sets::Rights;
use paging_model::entries::Bits;
use paging_model::registers::Regs;
use proc_regs::bit_ranges::bit;
use proc_regs::register_bits::{CR4_PKE, CR4_PKS, CR4_SMEP};

/// The rules in their order.
pub const RULES: [Rule; 6] = [
    Rule::User,
    Rule::Smep,
    Rule::Smap,
    Rule::Write,
    Rule::Xd,
    Rule::Key,
];

/// The accesses that a rule refuses to a page with the joined bits of its walk and its protection key.
pub fn refusals(regs: &Regs, bits: Bits, key: u8, rule: Rule) -> Rights
    requires { key < 16 }
    ensures { (access : Access) → has result access ≡ refuses regs.now access bits key rule }
{
    match rule {
        Rule::User => user_refusals(bits),
        Rule::Smep => smep_refusals(regs, bits),
        Rule::Smap => smap_refusals(regs, bits),
        Rule::Write => write_refusals(regs, bits),
        Rule::Xd => xd_refusals(bits),
        Rule::Key => key_refusals(regs, bits, key),
    }
}

/// A user access to a supervisor page.
fn user_refusals(bits: Bits) -> Rights
    ensures { (access : Access) → has result access ≡ user_refuses access bits }
{
    if_true(!bits.user, user_accesses())
}

/// A supervisor fetch from a user page, under SMEP.
fn smep_refusals(regs: &Regs, bits: Bits) -> Rights
    ensures { (access : Access) → has result access ≡ smep_refuses regs.now access bits }
{
    let smep = bits.user && bit(regs.cr4, CR4_SMEP);
    if_true(smep, supervisor_accesses().meet(&fetches()))
}

/// A supervisor data access to a user page, under SMAP.
fn smap_refusals(regs: &Regs, bits: Bits) -> Rights
    ensures { (access : Access) → has result access ≡ smap_refuses regs.now access bits }
{
    let smap = supervisor_accesses()
        .meet(&data_accesses())
        .meet(&smap_accesses(regs));
    if_true(bits.user, smap)
}

/// A write to a page without R/W.
fn write_refusals(regs: &Regs, bits: Bits) -> Rights
    ensures { (access : Access) → has result access ≡ write_refuses regs.now access bits }
{
    if_true(!bits.write, writes().meet(&wp_accesses(regs)))
}

/// A fetch from a page with XD.
fn xd_refusals(bits: Bits) -> Rights
    ensures { (access : Access) → has result access ≡ xd_refuses access bits }
{
    if_true(bits.xd, fetches())
}

/// A data access against the AD of the page's key, or a write against its WD.
fn key_refusals(regs: &Regs, bits: Bits, key: u8) -> Rights
    requires { key < 16 }
    ensures { (access : Access) → has result access ≡ key_refuses regs.now access bits key }
{
    let register = u64::from(key_register(regs, bits));
    let access_disable = bit(register, 2 * key);
    let write_disable = bit(register, 2 * key + 1);
    let disabled_writes = if_true(write_disable, writes().meet(&wp_accesses(regs)));
    data_accesses().meet(&if_true(access_disable, all_accesses()).join(&disabled_writes))
}

/// The register that holds AD and WD of the page's key, PKRU for a user page and PKRS for a supervisor page. Where it
/// isn't enabled it stands as 0, in which no key refuses.
fn key_register(regs: &Regs, bits: Bits) -> u32
    ensures access { (key : ℕ) →
        bit result (2 * key) ≡ access_disable (register_of regs.now bits) key }
    ensures write { (key : ℕ) →
        bit result (2 * key + 1) ≡ write_disable (register_of regs.now bits) key }
{
    let user = if bit(regs.cr4, CR4_PKE) { regs.pkru } else { 0 };
    let supervisor = if bit(regs.cr4, CR4_PKS) { regs.pkrs } else { 0 };
    if bits.user { user } else { supervisor }
}
