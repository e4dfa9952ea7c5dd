//! What a processor may hold of the paging structures.

ghost use Rattle.std.specs.Prelude.{◌≡◌, ◌↔◌, ℕ, ◌≤◌, ◌/◌, Bool, true, false};
ghost use Rattle.paging_model.specs.Counting.{IsIn};
ghost use Rattle.paging_model.specs.LinearAddress.{span};
ghost use Rattle.history_model.specs.CachedTranslations.{Held, MayHold, MayUse};
ghost use Rattle.history_model.specs.History.{History, next, time, visited_pcids};
ghost use Rattle.history_model.specs.Horizons.{horizon};
ghost use Rattle.history_model.specs.declared.events.Event.{Event};
ghost use Rattle.history_laws.specs.Executing.{is_by};
ghost use Rattle.history_laws.specs.HeldLevels.{HasLevel, HasLevels, levels_of};
ghost use Rattle.history_laws.specs.Making.{HeldSince};

/// What may be held was made at some moment, up to now, since which nothing removed it, and the other way round.
pub fn held_is_made_and_spared()
    ensures { (history : History) (p c level x : ℕ) (held : Held) →
        MayHold history p c level x held ↔ HeldSince history p c level x held }
{}

/// What may be held was made no earlier than the moment at which the processor last lost everything.
pub fn nothing_is_older_than_the_horizon()
    ensures { (history : History) (p c level x : ℕ) (held : Held) →
        (since : HeldSince history p c level x held) → horizon history p ≤ time since.moment }
{}

/// Addresses that one entry of a level serves share what may be held of that level.
pub fn one_entry_serves_its_range()
    ensures { (history : History) (p c level x y : ℕ) (held : Held) →
        x / span level ≡ y / span level
        → MayHold history p c level x held → MayHold history p c level y held }
{}

/// What may be held has a level of the paging structures: 5 to 1, and no higher one than the top level where that stays
/// the same.
pub fn held_has_a_level()
    ensures has_level { (history : History) (p c level x : ℕ) (held : Held) →
        MayHold history p c level x held → HasLevel level held }
    ensures below_the_top { (history : History) (p c level x : ℕ) (held : Held) →
        (five_levels : Bool) → HasLevels history p five_levels → MayHold history p c level x held
        → level ≤ levels_of five_levels }
{}

/// A processor holds something only under PCIDs that it visited. A global translation that it may use under one PCID it
/// may use under each; another one under its own alone.
pub fn global_translations_serve_each_pcid()
    ensures held_under_visited { (history : History) (p c level x : ℕ) (held : Held) →
        MayHold history p c level x held → IsIn c (visited_pcids history p) }
    ensures global_everywhere { (history : History) (p c d level page : ℕ) (held : Held) →
        held.global ≡ true
        → MayUse history p c level page held → MayUse history p d level page held }
    ensures others_under_their_own { (history : History) (p c level page : ℕ) (held : Held) →
        held.global ≡ false
        → MayUse history p c level page held → MayHold history p c level page held }
{}

/// No event but those that a processor executes takes something from it: not a write to memory, and not what another
/// processor invalidates.
pub fn others_take_nothing()
    ensures { (before : History) (happened : Event) (p c level x : ℕ) (held : Held) →
        is_by p happened ≡ false → MayHold before p c level x held
        → MayHold (next before happened) p c level x held }
{}
