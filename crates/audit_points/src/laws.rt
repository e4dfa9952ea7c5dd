//! What the audit of one processor finds under a PCID is what is stale there, and what is kept of a processor meets the
//! audit's conditions. Each function is a law: its `ensures` is the statement, and its body is empty.

ghost use Rattle.std.specs.Prelude.{◌≡◌, ℕ, ◌≤◌, ◌%◌, ◌↔◌, Bool, Some, if◌then◌else◌};
ghost use Rattle.audit_laws.specs.MadeAtTimes.{entry_taken_at, made_at};
ghost use Rattle.audit_laws.specs.declared.stale_pages.StalePage.{StalePage};
ghost use Rattle.audit_points.specs.Audits.{IsAuditable};
ghost use Rattle.audit_points.specs.StandingFacts.{IsFoundUnderRoots, IsStaleHeldUnder, IsStaleUnderSome, FactsStandFor};
ghost use Rattle.history_model.specs.CachedTranslations.{Held};
ghost use Rattle.history_model.specs.History.{History, last_root, machine, regs, time};
ghost use Rattle.cache_rules.specs.Hosts.{IsBefore, IsNoted, Keeping, new_host};
ghost use Rattle.history_model.specs.declared.events.Event.{Event};
ghost use Rattle.paging_model.specs.declared.registers.Machine.{Machine};
ghost use Rattle.paging_model.specs.declared.registers.Regs.{Regs};
ghost use Rattle.cache_rules.specs.Standing.{IsHostOf};
ghost use Rattle.history_model.specs.StaleTranslations.{IsStale};
ghost use Rattle.audit_laws.specs.Firsts.{finding_at};
ghost use Rattle.paging_model.specs.LinearAddress.{IsPage};
ghost use Rattle.paging_model.specs.Registers.{settings_of};
ghost use Rattle.stale_audit.specs.Tops.{IsTopPage};
ghost use Rattle.paging_model.specs.Walking.{top_level};
ghost use Rattle.paging_model.specs.declared.entries.Bits.{Bits};
ghost use Rattle.stale_audit.specs.Facts.{Facts, AreTimely, makes_of, takes_of};

/// What is made of the entries of tables, by what is kept, is what the processor made in the history.
pub fn what_is_made_is_kept()
    ensures { (facts : Facts) (history : History) (level table x t : ℕ) (bits : Bits) →
        FactsStandFor facts history → table % 4096 ≡ 0
        → makes_of facts level table bits x t
        ≡ made_at history facts.host.number facts.under level table bits x t }
{}

/// And what is taken, by what is kept, is what events took.
pub fn what_is_taken_is_kept()
    ensures { (facts : Facts) (history : History) (level x t : ℕ) (held : Held) →
        FactsStandFor facts history
        → takes_of facts level x held t
        ≡ entry_taken_at history facts.host.number facts.under level x held t }
{}

/// What the roots lead to is what may be held: a translation is found exactly where it is stale.
pub fn what_is_stale_is_found()
    ensures { (facts : Facts) (history : History) (one : StalePage) →
        FactsStandFor facts history
        → (IsStaleHeldUnder facts history (top_level facts.settings) one
        ↔ IsFoundUnderRoots facts history (top_level facts.settings) one) }
{}

/// The pages that the top table's slots serve are those of canonical addresses.
pub fn top_pages_are_canonical()
    ensures { (five_levels : Bool) (x : ℕ) →
        IsTopPage (if five_levels then 5 else 4) x ↔ IsPage five_levels x }
{}

/// What is stale under a PCID is held under it, or it is global and held under a PCID that the processor visited.
pub fn what_is_stale_is_held_under_some_pcid()
    ensures { (facts : Facts) (history : History) (c : ℕ) (one : StalePage) →
        regs history facts.host.number ≡ Some facts.host.regs
        → facts.settings ≡ settings_of facts.host.regs (machine history)
        → last_root history facts.host.number c ≡ Some facts.home
        → (IsStale history (finding_at facts.host.number c one)
        ↔ IsStaleUnderSome facts history c one) }
{}

/// What stands for a history meets the conditions of the descent.
pub fn what_stands_is_ready()
    ensures { (facts : Facts) (history : History) → FactsStandFor facts history → AreTimely facts }
{}

/// What is kept of a processor in a history meets the conditions of an audit.
pub fn hosts_are_auditable()
    ensures { (host : Keeping) (history : History) → IsHostOf host history
        → IsAuditable host (time history) }
{}

/// It meets them before the first event, after each event that is noted, and at each later time.
pub fn hosts_stay_auditable()
    ensures new { (number : ℕ) (known : Regs) (machine : Machine) →
        IsAuditable (new_host number known machine) 0 }
    ensures noted { (old new : Keeping) (earlier now : ℕ) (happened : Event) (after : Regs) →
        IsAuditable old earlier → earlier ≤ now → IsBefore old now
        → IsNoted old now happened after new → IsAuditable new now }
    ensures later { (host : Keeping) (earlier now : ℕ) →
        IsAuditable host earlier → earlier ≤ now → IsAuditable host now }
{}
