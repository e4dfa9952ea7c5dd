//! Moments by their times.

ghost use Rattle.std.specs.Prelude.{◌≡◌, ℕ, ◌≤◌};
ghost use Rattle.history_model.specs.CachedTranslations.{Held, MayHold, cache_key};
ghost use Rattle.history_model.specs.History.{History, time};
ghost use Rattle.history_model.specs.Horizons.{horizon};
ghost use Rattle.history_laws.specs.MomentsByTime.{IsSpared, moment_at};

/// The moment of a time has that time, and the last one is the history's own.
pub fn moments_have_their_times()
    ensures at { (history : History) (t : ℕ) →
        t ≤ time history → time (moment_at history t) ≡ t }
    ensures now { (history : History) → moment_at history (time history) ≡ history }
{}

/// From a processor's horizon on, its horizon was the same at each moment.
pub fn the_horizon_stays()
    ensures { (history : History) (p t : ℕ) → horizon history p ≤ t → t ≤ time history
        → horizon (moment_at history t) p ≡ horizon history p }
{}

/// What may be held at a time may be held at a later one, where no event between took it.
pub fn what_is_spared_is_held()
    ensures { (history : History) (p c level x : ℕ) (held : Held) (t u : ℕ) →
        t ≤ u → u ≤ time history → IsSpared history p (cache_key c level x held) t u
        → MayHold (moment_at history t) p c level x held
        → MayHold (moment_at history u) p c level x held }
{}
