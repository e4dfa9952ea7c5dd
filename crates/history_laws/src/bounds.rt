//! How many steps an event may take, where all that it concerns is counted.

ghost use Rattle.std.specs.Prelude.{◌≡◌, ◌↔◌, ℕ, ◌≤◌, List};
ghost use Rattle.paging_model.specs.Memory.{Memory};
ghost use Rattle.paging_model.specs.declared.spaces.SpaceKey.{SpaceKey};
ghost use Rattle.history_model.specs.Bounds.{AuditMayTake, BuildMayTake, ListMayTake, MayTake, UpdateMayTake};
ghost use Rattle.history_model.specs.History.{History};
ghost use Rattle.history_model.specs.declared.events.Event.{Event};
ghost use Rattle.history_laws.specs.Costs.{AuditCost, BuildCost, Cost, ListCost, UpdateCost};

/// An event has one cost at most.
pub fn an_event_has_one_cost()
    ensures { (history : History) (happened : Event) (one other : ℕ) →
        Cost history happened one → Cost history happened other → one ≡ other }
{}

/// Where the cost is counted, an event may take so many steps, and no more. The same holds of each part of its work.
pub fn bounds_reach_the_counts()
    ensures build { (history : History) (key : SpaceKey) (cost steps : ℕ) →
        BuildCost history key cost → (BuildMayTake history key steps ↔ (steps ≤ cost)) }
    ensures list { (history : History) (keys : List SpaceKey) (key : SpaceKey) (cost steps : ℕ) →
        ListCost history keys key cost → (ListMayTake history keys key steps ↔ (steps ≤ cost)) }
    ensures update { (memory : Memory) (key : SpaceKey) (at n cost steps : ℕ) →
        UpdateCost memory key at n cost → (UpdateMayTake memory key at n steps ↔ (steps ≤ cost)) }
    ensures audit { (history : History) (cpu cost steps : ℕ) →
        AuditCost history cpu cost → (AuditMayTake history cpu steps ↔ (steps ≤ cost)) }
    ensures event { (history : History) (happened : Event) (cost steps : ℕ) →
        Cost history happened cost → (MayTake history happened steps ↔ (steps ≤ cost)) }
{}
