//! Ranges in which a held translation is stale throughout, or nowhere.

ghost use Rattle.std.specs.Prelude.{◌≡◌, ◌↔◌, ℕ, Option};
ghost use Rattle.paging_model.specs.Translations.{Protection, Target};
ghost use Rattle.paging_model.specs.declared.registers.Regs.{Regs};
ghost use Rattle.history_model.specs.CachedTranslations.{Held};
ghost use Rattle.audit_laws.specs.AlikePages.{AreInOnePage, ExceedsWithin, excess_within};

/// Within one held page and one present page, or none, a translation is stale at each page or at none, with one excess.
pub fn one_page_is_stale_throughout()
    ensures stale { (known : Regs) (page : Option (Target Protection)) (first level x y : ℕ)
        (held : Held) → AreInOnePage level first x y
        → (ExceedsWithin known page first level held x
        ↔ ExceedsWithin known page first level held y) }
    ensures excess { (known : Regs) (page : Option (Target Protection)) (first level x y : ℕ)
        (held : Held) → AreInOnePage level first x y
        → excess_within known page first level held x
        ≡ excess_within known page first level held y }
{}
