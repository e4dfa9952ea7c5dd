//! Which addresses an access reaches by the pointers that spell them.

ghost use Rattle.std.specs.Prelude.{◌≡◌, ◌&&◌, ℕ, ◌/◌, ◌^◌, ◌<◌, not};
ghost use Rattle.paging_model.specs.LinearAddress.{is_canonical};
ghost use Rattle.paging_model.specs.Pointers.{address_of, lass_refuses, mask_width, reaches};
ghost use Rattle.paging_model.specs.Registers.{la57, lass};
ghost use Rattle.paging_model.specs.declared.access.Access.{Access};
ghost use Rattle.paging_model.specs.declared.registers.Regs.{Regs};
ghost use Rattle.paging_laws.specs.ReachedAddresses.{AreOfOneZone, is_same};

/// An address is reached where it is canonical, masking leaves it as it is, and LASS doesn't keep
/// the access from its half.
pub fn each_rule_of_pointers_may_keep_an_access_away()
    ensures { (regs : Regs) (access : Access) (x : ℕ) → reaches regs access x
        ≡ ((is_canonical (la57 regs) x
        && is_same (address_of (mask_width regs access x) x) x)
        && not (lass regs && lass_refuses regs access x)) }
{}

/// The same accesses reach all addresses of a zone: canonical ones of one half that lie below
/// 2 ^ 47 all or none.
pub fn a_zone_is_reached_by_the_same_accesses()
    ensures { (regs : Regs) (access : Access) (x y : ℕ) →
        AreOfOneZone (la57 regs) x y → reaches regs access x ≡ reaches regs access y }
{}

/// The same accesses reach addresses that share their bits from 47 on.
pub fn the_bits_from_47_on_decide_the_reach()
    ensures { (regs : Regs) (access : Access) (x y : ℕ) →
        x < 2 ^ 64 → x / 2 ^ 47 ≡ y / 2 ^ 47 → reaches regs access x ≡ reaches regs access y }
{}
