//! What is kept of a processor stands for its history, from the beginning on and after each event.
//!
//! Each function is a law: its `ensures` is the statement, and its body is empty.

ghost use Rattle.std.specs.Prelude.{◌≡◌, ℕ, ◌+◌, false, Some};
ghost use Rattle.cache_rules.specs.Hosts.{Keeping, IsNoted, new_host};
ghost use Rattle.cache_rules.specs.Standing.{IsHostOf};
ghost use Rattle.history_laws.specs.Executing.{is_by};
ghost use Rattle.history_model.specs.History.{History, Start, begun, next, regs, time};
ghost use Rattle.history_model.specs.declared.events.Event.{Event};
ghost use Rattle.paging_model.specs.Registers.{la57};
ghost use Rattle.paging_model.specs.declared.registers.Regs.{Regs};

/// A new host stands for a beginning in which its processor has its registers.
pub fn new_hosts_stand()
    ensures { (start : Start) (number : ℕ) (known : Regs) →
        regs (begun start) number ≡ Some known
        → IsHostOf (new_host number known start.machine) (begun start) }
{}

/// It stands for each other beginning with the same machine, in which its processor has its registers.
pub fn another_start()
    ensures { (host : Keeping) (start other : Start) → IsHostOf host (begun start)
        → regs (begun other) host.number ≡ Some host.regs → other.machine ≡ start.machine
        → IsHostOf host (begun other) }
{}

/// Once an event is noted that leaves LA57, a host stands for the moment after it.
pub fn noted_stands()
    ensures { (old new : Keeping) (history : History) (happened : Event) (after : Regs) →
        IsHostOf old history → IsNoted old (time history + 1) happened after new
        → regs (next history happened) old.number ≡ Some after → la57 after ≡ la57 old.regs
        → IsHostOf new (next history happened) }
{}

/// An event that the processor doesn't execute, and that leaves its registers, changes nothing of its host.
pub fn others_leave_it()
    ensures { (host : Keeping) (history : History) (happened : Event) →
        IsHostOf host history → is_by host.number happened ≡ false
        → regs (next history happened) host.number ≡ Some host.regs
        → IsHostOf host (next history happened) }
{}
