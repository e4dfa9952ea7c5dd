//! Denials and grants.

ghost use Rattle.std.specs.Prelude.{ℕ, ◌↔◌, IsNone, IsTrue};
ghost use Rattle.paging_model.specs.AccessRights.{denial_of, is_granted, rules};
ghost use Rattle.paging_model.specs.AccessSets.{accesses};
ghost use Rattle.paging_model.specs.Counting.{IsIn};
ghost use Rattle.paging_model.specs.declared.access.Access.{Access};
ghost use Rattle.paging_model.specs.declared.access.Rule.{Rule};
ghost use Rattle.paging_model.specs.declared.entries.Bits.{Bits};
ghost use Rattle.paging_model.specs.declared.registers.Regs.{Regs};

/// An access is denied by no rule exactly where it is granted.
pub fn denied_by_no_rule_is_granted()
    ensures { (regs : Regs) (access : Access) (bits : Bits) (key : ℕ) →
        IsNone (denial_of regs access bits key) ↔ IsTrue (is_granted regs access bits key) }
{}

/// Each rule stands in the order of the rules, so that none is forgotten.
pub fn each_rule_is_in_the_order()
    ensures { (rule : Rule) → IsIn rule rules }
{}

/// Each kind of access counts for the number of a set.
pub fn each_access_counts()
    ensures { (access : Access) → IsIn access accesses }
{}
