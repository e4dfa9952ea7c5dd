//! What of the translations that a processor may use is stale, and what a point says.

ghost use Rattle.std.specs.Prelude.{◌≡◌, ℕ, ◌∷◌, Bool, true, List, [], Some};
ghost use Rattle.paging_model.specs.Counting.{IsIn};
ghost use Rattle.paging_model.specs.LinearAddress.{IsPage, is_canonical};
ghost use Rattle.paging_model.specs.Registers.{la57, pcid_of};
ghost use Rattle.paging_model.specs.declared.registers.Regs.{Regs};
ghost use Rattle.history_model.specs.Answering.{Answers};
ghost use Rattle.history_model.specs.CachedTranslations.{Held, MayHold, MayUse};
ghost use Rattle.history_model.specs.History.{History, next, page_of, regs, visited_pcids};
ghost use Rattle.history_model.specs.Horizons.{IsStill, takes_all};
ghost use Rattle.history_model.specs.StaleTranslations.{AreFindings, IsStale, scope};
ghost use Rattle.history_model.specs.declared.answers.Answer.{Answer};
ghost use Rattle.history_model.specs.declared.caches.Finding.{Finding};
ghost use Rattle.history_model.specs.declared.events.Event.{Event};
ghost use Rattle.history_model.specs.declared.events.Event.TheVariants.{Invlpg};
ghost use Rattle.history_laws.specs.QuietHistories.{IsPresent, IsQuiet};

/// Right after a processor executed INVLPG of a canonical address, nothing of the address's page is stale under its
/// current PCID, whatever was written before.
pub fn invlpg_leaves_nothing_stale()
    ensures { (before : History) (address : ℕ) (finding : Finding) (known : Regs) →
        regs before finding.cpu ≡ Some known → is_canonical (la57 known) address ≡ true
        → finding.page ≡ page_of address → finding.pcid ≡ pcid_of known
        → IsStale (next before (Invlpg finding.cpu address)) finding → ⊥ }
{}

/// Right after a processor lost everything, nothing is stale under its current PCID.
pub fn losing_everything_leaves_nothing_stale()
    ensures { (before : History) (happened : Event) (finding : Finding) (known : Regs) →
        takes_all happened finding.cpu (regs before finding.cpu) ≡ true
        → regs (next before happened) finding.cpu ≡ Some known → finding.pcid ≡ pcid_of known
        → IsStale (next before happened) finding → ⊥ }
{}

/// Nothing that a still processor may use is stale, under whatever PCID.
pub fn still_processors_have_nothing_stale()
    ensures { (history : History) (finding : Finding) →
        IsStill history finding.cpu → IsStale history finding → ⊥ }
{}

/// Where each processor that a point checks is still, the point says yes.
pub fn still_points_say_yes()
    ensures { (history : History) (all : Bool) →
        ((cpu c : ℕ) → IsIn (cpu, c) (scope history all) → IsStill history cpu)
        → AreFindings history (scope history all) [] }
{}

/// While neither memory nor a register changes, each processor is still.
pub fn quiet_processors_are_still()
    ensures { (history : History) (p : ℕ) → IsQuiet history → IsStill history p }
{}

/// While neither memory nor a register changes, a processor stays in its PCID, and what it may hold is held under that.
pub fn quiet_processors_stay_in_a_pcid()
    ensures one_is_visited { (history : History) (p : ℕ) (known : Regs) →
        IsQuiet history → regs history p ≡ Some known
        → visited_pcids history p ≡ pcid_of known ∷ [] }
    ensures holds { (history : History) (p c level x : ℕ) (held : Held) (known : Regs) →
        IsQuiet history → regs history p ≡ Some known
        → MayHold history p c level x held → c ≡ pcid_of known }
{}

/// While neither memory nor a register changes, a translation that may be used is what the present walk gives.
pub fn quiet_uses_are_present()
    ensures { (history : History) (p c level page : ℕ) (held : Held) (known : Regs) →
        IsQuiet history → regs history p ≡ Some known → IsPage (la57 known) page
        → MayUse history p c level page held → IsPresent history known level page held }
{}

/// While neither memory nor a register changes, each point says yes.
pub fn quiet_points_say_yes()
    ensures { (history : History) (all : Bool) →
        IsQuiet history → AreFindings history (scope history all) [] }
{}

/// A point has one answer.
pub fn points_have_one_answer()
    ensures { (history : History) (pairs : List (ℕ × ℕ)) (some other : List Finding) →
        AreFindings history pairs some → AreFindings history pairs other → some ≡ other }
{}

/// An event has one answer at most: no space is both listed and too large.
pub fn an_event_has_one_answer()
    ensures { (history : History) (happened : Event) (one other : Answer) →
        Answers history happened one → Answers history happened other → one ≡ other }
{}
