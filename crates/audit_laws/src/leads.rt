//! What a table leads to, by the times at which it is in use.

ghost use Rattle.std.specs.Prelude.{◌≡◌, ◌↔◌, ℕ, ◌%◌, true, Bool};
ghost use Rattle.paging_model.specs.declared.entries.Bits.{Bits};
ghost use Rattle.history_model.specs.CachedTranslations.{Held};
ghost use Rattle.audit_laws.specs.Leads.{IsTimeOf, Leads, LeadsAtOneTime, MakeAlike, ReferenceTables, TakeAlike, WayOfMaking, WayOfTaking};

/// A table that is in use at more times leads to all that it led to, and one of its times is enough for each
/// translation: times may be merged and split at will.
pub fn each_time_of_use_leads_on_its_own()
    ensures more { (makes : WayOfMaking) (takes : WayOfTaking) (now x : ℕ)
        (some other : ℕ → Bool) (level table : ℕ) (bits : Bits) (k : ℕ) (held : Held) →
        ((t : ℕ) → some t ≡ true → other t ≡ true)
        → Leads makes takes now x (IsTimeOf some) level table bits k held
        → Leads makes takes now x (IsTimeOf other) level table bits k held }
    ensures once { (makes : WayOfMaking) (takes : WayOfTaking) (now x : ℕ)
        (in_use : ℕ → Bool) (level table : ℕ) (bits : Bits) (k : ℕ) (held : Held) →
        Leads makes takes now x (IsTimeOf in_use) level table bits k held
        → LeadsAtOneTime makes takes now x (IsTimeOf in_use) level table bits k held }
{}

/// Ways of making and taking that are alike for tables at multiples of 4 KBytes lead to the same, where entries
/// reference such tables alone.
pub fn alike_makings_lead_to_the_same()
    ensures { (some other : WayOfMaking) (takes other_takes : WayOfTaking) (now x : ℕ)
        (in_use : ℕ → Bool) (level table : ℕ) (bits : Bits) (k : ℕ) (held : Held) →
        MakeAlike some other → TakeAlike takes other_takes → ReferenceTables some
        → table % 4096 ≡ 0
        → (Leads some takes now x (IsTimeOf in_use) level table bits k held
        ↔ Leads other other_takes now x (IsTimeOf in_use) level table bits k held) }
{}
