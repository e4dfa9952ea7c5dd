//! One processor, and its past.

ghost use Rattle.std.specs.Prelude.{◌≡◌, ◌+◌, ◌≤◌, ◌<◌, ℕ, is_some, map, true, vec_len, vec_capacity, IfOk, OnOk, OnErr};
ghost use Rattle.cache_rules.specs.Hosts.{IsBefore, IsNoted, IsOrdered, new_host, root_in, with_home_of, with_removal, with_stay};
ghost use Rattle.cache_rules.specs.Removals.{AreAscending, IsNextTime, removed_in};

use crate::homes::{root_in, set_root};
use crate::invalidations::{loses_all, removal_of};
use crate::removals::{Removal, Removed, next_after};
use crate::stays::{Stay, new_stay, stay_from};
use history_model::caches::CacheKey;
use history_model::events::Event;
use paging_model::registers::{Machine, Regs};
use proc_regs::{pcid, root};
use std::alloc::{AllocError, Global};
use std::marker::Model;

/// One processor, with what it did at which times.
///
/// The time is the number of events so far, those of others too. A host grows by one removal for each event that
/// removes something, by one stay for each change of the PCID, the root, NXE or PGE, and by one root for each new PCID.
#[derive(Debug, Drop)]
pub struct Host {
    number: u32,
    machine: Machine,
    regs: Regs,
    horizon: u32,
    past: Vec<Stay>,
    removals: Vec<Removed>,
    homes: Vec<(u16, u64)>,
}

impl Model for Host {
    ghost use Rattle.cache_rules.specs.Hosts.{IsOrdered, Keeping};

    ghost Value = { Keeping };

    ghost view = { λ host. record {
      number = host.number;
      machine = host.machine;
      regs = host.regs;
      horizon = host.horizon;
      past = host.past.items;
      removals = host.removals.items;
      homes = host.homes.items;
    } };

    ghost invariant = { λ host. IsOrdered (record {
      number = host.number;
      machine = host.machine;
      regs = host.regs;
      horizon = host.horizon;
      past = host.past.items;
      removals = host.removals.items;
      homes = host.homes.items;
    }) };
}

impl Host {
    /// A processor before the first event.
    pub fn new(alloc: Global, number: u32, regs: Regs, machine: Machine) -> Result<Host, AllocError>
        ensures { IfOk result (λ host. host ≡ new_host number regs machine) }
    {
        let mut past = Vec::new(alloc);
        past.push(stay_from(0, &machine, &regs))?;
        let mut homes = Vec::new(alloc);
        homes.push((pcid(&regs), root(&regs, &machine)))?;
        Ok(Host {
            number,
            machine,
            regs,
            horizon: 0,
            past,
            removals: Vec::new(alloc),
            homes,
        })
    }

    /// Notes an event that leads to the time `now`, which is after all that was noted, and to the registers `after`. It
    /// takes constant time but for the search of a PCID, and for making place where that is new.
    ///
    /// # Errors
    ///
    /// Out of memory; then nothing has changed.
    pub fn note(&mut self, now: u32, event: &Event, after: &Regs) -> Result<(), AllocError>
        requires { IsBefore self.old now }
        ensures noted { OnOk result (IsNoted self.old now event.now after.now self.new) }
        ensures before { OnOk result (IsBefore self.new (now + 1)) }
        ensures unchanged { OnErr result (self.new ≡ self.old) }
    {
        let removal = removal_of(event, self.number, &self.regs);
        reserve_for(&mut self.removals, removal)?;
        let stay = new_stay(now, &self.machine, &self.regs, after);
        add_stay(&mut self.past, &mut self.homes, stay)?;
        add_removal(&mut self.removals, now, removal);
        if loses_all(event, self.number, &self.regs) {
            self.horizon = now;
        }
        self.regs = *after;
        Ok(())
    }

    /// The time of the first event after `t` that removes what has a key; `None` where there is none. The level of the
    /// key is 1 to 5.
    pub fn next_after(&self, key: &CacheKey, t: u32) -> Option<u32>
        requires least { 1 ≤ key.now.level }
        requires most { key.now.level ≤ 5 }
        ensures { IsNextTime (removed_in self.now.removals key.now) t result }
    {
        next_after(&self.removals, key, t)
    }

    /// The last time at which the processor lost everything; 0 where it never did.
    pub fn horizon(&self) -> u32
        ensures { result ≡ self.now.horizon }
    {
        self.horizon
    }

    /// The root that the processor had last in a PCID; `None` where it hasn't been in it.
    pub fn home(&self, pcid: u16) -> Option<u64>
        ensures { result ≡ root_in self.now.homes pcid }
    {
        root_in(&self.homes, pcid)
    }

    /// Each PCID in which the processor has been, ascending, with the root that it had last there.
    pub fn homes(&self) -> &[(u16, u64)]
        ensures { result.now ≡ self.now.homes }
    {
        self.homes.as_slice()
    }

    /// The stays, by ascending times at which they began.
    pub fn past(&self) -> &[Stay]
        ensures { result.now ≡ self.now.past }
    {
        self.past.as_slice()
    }

    /// The present registers.
    pub fn regs(&self) -> &Regs
        ensures { result.now ≡ self.now.regs }
    {
        &self.regs
    }

    /// The processor's number.
    pub fn number(&self) -> u32
        ensures { result ≡ self.now.number }
    {
        self.number
    }
}

/// Makes room for a removal, where there is one.
fn reserve_for(removals: &mut Vec<Removed>, removal: Option<Removal>) -> Result<(), AllocError>
    ensures items { removals.new.items ≡ removals.old.items }
    ensures room { OnOk result
        (is_some removal ≡ true → vec_len removals.new < vec_capacity removals.new) }
{
    if removal.is_some() {
        removals.reserve(1)?;
    }
    Ok(())
}

/// Adds a removal, where there is one and room for it.
fn add_removal(removals: &mut Vec<Removed>, time: u32, removal: Option<Removal>)
    requires { is_some removal ≡ true → vec_len removals.old < vec_capacity removals.old }
    ensures { removals.new.items ≡ with_removal time removal removals.old.items }
{
    if let Some(removal) = removal {
        removals.push_reserved(Removed { time, removal });
    }
}

/// Adds a stay, where there is one, and sets the root of its PCID. Out of memory, nothing has changed.
fn add_stay(
    past: &mut Vec<Stay>,
    homes: &mut Vec<(u16, u64)>,
    stay: Option<Stay>,
) -> Result<(), AllocError>
    requires { AreAscending 0 (map (λ (one : ℕ × ℕ). one.0) homes.old.items) }
    ensures past { OnOk result (past.new.items ≡ with_stay stay past.old.items) }
    ensures homes { OnOk result (homes.new.items ≡ with_home_of stay homes.old.items) }
    ensures same_past { OnErr result (past.new.items ≡ past.old.items) }
    ensures same_homes { OnErr result (homes.new.items ≡ homes.old.items) }
{
    if let Some(stay) = stay {
        past.reserve(1)?;
        set_root(homes, stay.pcid, stay.root)?;
        past.push_reserved(stay);
    }
    Ok(())
}
