//! What may be held, by the roots and the times at which each table was in use.

ghost use Rattle.std.specs.Prelude.{◌≡◌, ◌↔◌, ℕ, true};
ghost use Rattle.history_model.specs.CachedTranslations.{Held, MayHold};
ghost use Rattle.history_model.specs.History.{History};
ghost use Rattle.audit_laws.specs.MadeAtTimes.{IsLedTo};

/// A translation of a page may be held exactly where one of the roots leads to it: each entry on the way was made while
/// its table was in use, and a table below the root's is in use while an entry that references it is held.
pub fn roots_lead_to_what_may_be_held()
    ensures { (history : History) (p c level x : ℕ) (held : Held) → held.leaf ≡ true
        → (MayHold history p c level x held ↔ IsLedTo history p c level x held) }
{}
