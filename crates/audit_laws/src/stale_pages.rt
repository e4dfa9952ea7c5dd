//! Stale translations, and which comes first.

ghost use Rattle.std.specs.Prelude.{◌≡◌, ◌⊎◌, ℕ, Bool, None, Option, Some};
ghost use Rattle.history_model.specs.History.{History};
ghost use Rattle.history_model.specs.StaleTranslations.{IsWorst, NoneStale};
ghost use Rattle.audit_laws.specs.Firsts.{IsFirst, IsOneOf, IsStaleUnder, finding_at, first_of_two};
ghost use Rattle.audit_laws.specs.declared.stale_pages.StalePage.{StalePage};

use paging_model::access_sets::Rights;

/// A stale translation of a page, of a processor and under a PCID that are known from elsewhere.
#[derive(Clone, Copy, Debug, PartialEq, Eq)]
pub struct StalePage {
    /// The first address of the 4-KByte page.
    pub page: u64,
    /// The physical address to which the translation takes the page.
    pub frame: u64,
    /// The accesses that it grants and that the present tables don't.
    pub excess: Rights,
}

/// Of the same stale translations one comes first.
pub fn one_comes_first()
    ensures { (are : StalePage → Bool) (first other : Option StalePage) →
        IsFirst (IsOneOf are) first → IsFirst (IsOneOf are) other → first ≡ other }
{}

/// The first of the firsts is the first of all.
pub fn the_first_of_firsts_comes_first()
    ensures { (are others_are : StalePage → Bool) (first other : Option StalePage) →
        IsFirst (IsOneOf are) first → IsFirst (IsOneOf others_are) other
        → IsFirst (λ stale. IsOneOf are stale ⊎ IsOneOf others_are stale)
        (first_of_two first other) }
{}

/// The first of all that is stale of a processor under a PCID is what a point finds there; where there is none, nothing
/// is.
pub fn the_first_is_the_finding()
    ensures found { (history : History) (cpu pcid : ℕ) (first : StalePage) →
        IsFirst (IsStaleUnder history cpu pcid) (Some first)
        → IsWorst history (finding_at cpu pcid first) }
    ensures none { (history : History) (cpu pcid : ℕ) →
        IsFirst (IsStaleUnder history cpu pcid) None → NoneStale history cpu pcid }
{}
