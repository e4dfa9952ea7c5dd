//! A core and the events that were accepted so far.

ghost use Rattle.std.specs.Prelude.{◌≡◌, ◌≢◌, ◌<◌, ◌≤◌, ◌+◌, ◌^◌, false, length, Ok, Err, IfOk, IfErr, OnOk, OnErr, IsTrue, Some, None};
ghost use Rattle.elf_core.specs.Cores.{IsConsistent};
ghost use Rattle.history_model.specs.History.{History, begun, regs_in};
ghost use Rattle.history_model.specs.Refusals.{cpu_refusal};
ghost use Rattle.phys_view.specs.Seen.{written_pages};
ghost use Rattle.version_store.specs.Changes.{kept_blocks};
ghost use Rattle.audit_core.specs.HostLists.{processors_of};
ghost use Rattle.audit_core.specs.Standing.{HasAllOf, StandsFor, core_start};
ghost use Rattle.audit_core.specs.Stepping.{AcceptsEvent, RefusesEvent, RunsOutOfMemory, TakesSteps, refused_step_limit};

use crate::hosts::Hosts;
use crate::memory::Remembered;
use crate::{asking, listing, writes};
use audit_points::audit;
use elf_core::Core;
use history_model::answers::Answer;
use history_model::events::Event;
use history_model::faults::StepFault;
use kept_spaces::KeptSpaces;
use paging_model::access::Access;
use paging_model::byte_strings::Payload;
use paging_model::registers::{Machine, PROCESSOR_LIMIT, RegChange, Regs};
use phys_view::{Ledger, Steps};
use proc_regs::check;
use std::alloc::{AllocError, Global};
use std::marker::Model;

/// Memory, the machine and its processors at one moment of a log.
///
/// A session is poisoned once memory ran out: from then on it answers every event by `StepFault::Memory`.
#[derive(Drop)]
pub struct Session<'a, L: Ledger> {
    alloc: Global,
    memory: Remembered<'a, L>,
    machine: Machine,
    stated: bool,
    hosts: Hosts,
    spaces: KeptSpaces,
    happened: u32,
    poisoned: bool,
}

impl<'a, L: Ledger> Model for Session<'a, L> {
    ghost use Rattle.std.specs.Prelude.{◌+◌};
    ghost use Rattle.audit_core.specs.HostLists.{AreAuditable, AreBefore};
    ghost use Rattle.audit_core.specs.Standing.{AreTrueSpaces, Holding};

    ghost Value = { Holding };

    ghost view = { λ s. record {
      poisoned = s.poisoned;
      happened = s.happened;
      seen = s.memory.seen;
      kept = s.memory.kept;
      stated = s.stated;
      machine = s.machine;
      hosts = s.hosts;
      spaces = s.spaces;
    } };

    // Nothing was noted at a time to come, each processor can be audited now, and the kept spaces are true of memory.
    ghost invariant = { λ s. AreBefore (s.happened + 1) s.hosts × AreAuditable s.happened s.hosts
        × AreTrueSpaces s.poisoned s.memory.seen s.spaces };
}

impl<'a, L: Ledger> Session<'a, L> {
    /// The session of a core, before the first event.
    ///
    /// # Errors
    ///
    /// Out of memory.
    pub fn start(alloc: Global, core: Core<'a>) -> Result<Session<'a, L>, AllocError>
        requires { IsConsistent core }
        ensures { IfOk result (λ session. StandsFor session (begun (core_start core.entry))) }
    {
        let hosts = Hosts::from_slice(alloc, &core.machine, core.processors.as_slice())?;
        Ok(Session {
            alloc,
            memory: Remembered::new(alloc, core.segments),
            machine: core.machine,
            stated: core.stated,
            hosts,
            spaces: KeptSpaces::new(alloc),
            happened: 0,
            poisoned: false,
        })
    }

    /// The number of accepted events so far, without state lines.
    pub fn now(&self) -> u32
        ensures { result ≡ self.now.happened }
    {
        self.happened
    }

    /// How many processors there are.
    pub fn processors(&self) -> u64
        ensures { result ≡ length self.now.hosts }
    {
        self.hosts.len() as u64
    }

    /// How many blocks of memory it holds: one for each page that was written to, and those of what the writes changed.
    pub fn live_blocks(&self) -> u64
        ensures { result ≡ length (written_pages self.now.seen) + kept_blocks self.now.kept }
    {
        self.memory.live_blocks()
    }

    /// Handles an event: answers it, or refuses it and stays as it was. The caller hands over at most 4,294,967,295
    /// events, state lines not counted.
    ///
    /// # Errors
    ///
    /// The first reason for which the event is refused. `Memory` where memory ran out: the session is poisoned then,
    /// and answers every further event by `Memory`.
    pub fn step(&mut self, event: &Event, steps: &mut Steps<L>) -> Result<Answer, StepFault>
        requires { self.old.happened + 1 < 2 ^ 32 }
        ensures accepted { IfOk result (AcceptsEvent StandsFor self.old self.new event.now) }
        ensures refused { IfErr result (λ fault. fault ≢ StepFault.Memory
            → RefusesEvent StandsFor self.old self.new event.now fault) }
        ensures out_of_memory { result ≡ Err StepFault.Memory
            → RunsOutOfMemory StandsFor self.old self.new event.now }
        ensures stays_poisoned { IsTrue self.old.poisoned → result ≡ Err StepFault.Memory }
        ensures poisoned_cost { IsTrue self.old.poisoned → steps.new ≡ steps.old }
        ensures time { self.new.happened ≤ self.old.happened + 1 }
        ensures cost { (moment : History) → StandsFor self.old moment
            → OnOk result (TakesSteps moment event.now steps.old steps.new) }
        ensures out_of_memory_cost { (moment : History) → StandsFor self.old moment
            → result ≡ Err StepFault.Memory → TakesSteps moment event.now steps.old steps.new }
        ensures refused_cost { IfErr result (λ fault. fault ≢ StepFault.Memory
            → steps.new ≤ steps.old + refused_step_limit event.now) }
    {
        self.handle(event, steps)
    }

    /// The step itself, under a contract of its own, since each arm is proved from what the session has of a moment
    /// (`HasAllOf`); that accepted events lead to the moment (`StandsFor`) is proved in `step`, once for all arms.
    fn handle(&mut self, event: &Event, steps: &mut Steps<L>) -> Result<Answer, StepFault>
        requires { self.old.happened + 1 < 2 ^ 32 }
        ensures accepted { IfOk result (AcceptsEvent HasAllOf self.old self.new event.now) }
        ensures refused { IfErr result (λ fault. fault ≢ StepFault.Memory
            → RefusesEvent HasAllOf self.old self.new event.now fault) }
        ensures out_of_memory { result ≡ Err StepFault.Memory
            → RunsOutOfMemory HasAllOf self.old self.new event.now }
        ensures stays_poisoned { IsTrue self.old.poisoned → result ≡ Err StepFault.Memory }
        ensures poisoned_cost { IsTrue self.old.poisoned → steps.new ≡ steps.old }
        ensures time { self.new.happened ≤ self.old.happened + 1 }
        ensures cost { (moment : History) → HasAllOf self.old moment
            → OnOk result (TakesSteps moment event.now steps.old steps.new) }
        ensures out_of_memory_cost { (moment : History) → HasAllOf self.old moment
            → result ≡ Err StepFault.Memory → TakesSteps moment event.now steps.old steps.new }
        ensures refused_cost { IfErr result (λ fault. fault ≢ StepFault.Memory
            → steps.new ≤ steps.old + refused_step_limit event.now) }
    {
        if self.poisoned {
            return Err(StepFault::Memory);
        }
        match event {
            Event::Machine(machine) => self.state_machine(*machine),
            Event::Cpu(number, regs) => self.state_processor(*number, *regs),
            Event::Write { at, bytes } => self.write(*at, bytes, steps),
            Event::Set { cpu, change } => self.set_register(*cpu, *change),
            Event::Invlpg { cpu, address } => self.invlpg(*cpu, *address),
            Event::Invpcid {
                cpu,
                kind,
                pcid,
                address,
            } => self.invpcid(*cpu, *kind, *pcid, *address),
            Event::Ask {
                cpu,
                access,
                pointer,
            } => self.ask(*cpu, *access, *pointer, steps),
            Event::List { cpu } => self.list(*cpu, steps),
            Event::Point { all } => self.point(*all, steps),
        }
    }

    /// States the machine: once, before processors and events.
    fn state_machine(&mut self, machine: Machine) -> Result<Answer, StepFault>
        ensures accepted { IfOk result
            (AcceptsEvent HasAllOf self.old self.new (Event.Machine machine)) }
        ensures refused { IfErr result
            (RefusesEvent HasAllOf self.old self.new (Event.Machine machine)) }
        ensures never_memory { result ≢ Err StepFault.Memory }
        ensures time { self.new.happened ≡ self.old.happened }
    {
        if self.happened > 0 || self.stated || self.hosts.len() > 0 {
            return Err(StepFault::LateState);
        }
        self.machine = machine;
        self.stated = true;
        Ok(Answer::Nothing)
    }

    /// States a processor: before the first event, under a number of its own.
    fn state_processor(&mut self, number: u32, regs: Regs) -> Result<Answer, StepFault>
        ensures accepted { IfOk result
            (AcceptsEvent HasAllOf self.old self.new (Event.Cpu number regs)) }
        ensures refused { IfErr result (λ fault. fault ≢ StepFault.Memory
            → RefusesEvent HasAllOf self.old self.new (Event.Cpu number regs) fault) }
        ensures out_of_memory { result ≡ Err StepFault.Memory
            → RunsOutOfMemory HasAllOf self.old self.new (Event.Cpu number regs) }
        ensures time { self.new.happened ≡ self.old.happened }
    {
        self.check_processor(number, &regs)?;
        let Ok(()) = self.hosts.state(&self.machine, number, regs) else {
            self.poisoned = true;
            return Err(StepFault::Memory);
        };
        Ok(Answer::Nothing)
    }

    /// Whether a processor may be stated.
    ///
    /// # Errors
    ///
    /// The first reason for which it may not.
    fn check_processor(&self, number: u32, regs: &Regs) -> Result<(), StepFault>
        ensures accepted { (moment : History) → HasAllOf self.now moment
            → OnOk result (cpu_refusal moment number regs.now ≡ None) }
        ensures refused { (moment : History) → HasAllOf self.now moment
            → IfErr result (λ fault. cpu_refusal moment number regs.now ≡ Some fault) }
        ensures never_memory { result ≢ Err StepFault.Memory }
        ensures new { OnOk result (regs_in (processors_of self.now.hosts) number ≡ None) }
    {
        if self.happened > 0 {
            return Err(StepFault::LateState);
        }
        if self.hosts.regs(number).is_some() {
            return Err(StepFault::DoubleProcessor(number));
        }
        if self.hosts.len() >= PROCESSOR_LIMIT {
            return Err(StepFault::TooManyProcessors);
        }
        check(&self.machine, regs).map_err(StepFault::Illegal)
    }

    /// Writes bytes to memory, and to the kept spaces.
    fn write(&mut self, at: u64, bytes: &Payload, steps: &mut Steps<L>) -> Result<Answer, StepFault>
        requires events { self.old.happened + 1 < 2 ^ 32 }
        requires unpoisoned { self.old.poisoned ≡ false }
        ensures accepted { IfOk result
            (AcceptsEvent HasAllOf self.old self.new (Event.Write at bytes.now)) }
        ensures refused { IfErr result (λ fault. fault ≢ StepFault.Memory
            → RefusesEvent HasAllOf self.old self.new (Event.Write at bytes.now) fault) }
        ensures out_of_memory { result ≡ Err StepFault.Memory
            → RunsOutOfMemory HasAllOf self.old self.new (Event.Write at bytes.now) }
        ensures time { self.new.happened ≤ self.old.happened + 1 }
        ensures cost { (moment : History) → HasAllOf self.old moment
            → OnOk result (TakesSteps moment (Event.Write at bytes.now) steps.old steps.new) }
        ensures out_of_memory_cost { (moment : History) → HasAllOf self.old moment
            → result ≡ Err StepFault.Memory
            → TakesSteps moment (Event.Write at bytes.now) steps.old steps.new }
        ensures refused_cost { IfErr result (λ fault. fault ≢ StepFault.Memory
            → steps.new ≤ steps.old + 512) }
    {
        let now = self.happened + 1;
        let spaces = &mut self.spaces;
        let written = writes::write(&mut self.memory, spaces, now, at, bytes.as_slice(), steps);
        go_on(written, &mut self.happened, &mut self.poisoned)
    }

    /// Changes a register of a processor.
    fn set_register(&mut self, cpu: u32, change: RegChange) -> Result<Answer, StepFault>
        requires { self.old.happened + 1 < 2 ^ 32 }
        ensures accepted { IfOk result
            (AcceptsEvent HasAllOf self.old self.new (Event.Set cpu change)) }
        ensures refused { IfErr result (λ fault. fault ≢ StepFault.Memory
            → RefusesEvent HasAllOf self.old self.new (Event.Set cpu change) fault) }
        ensures out_of_memory { result ≡ Err StepFault.Memory
            → RunsOutOfMemory HasAllOf self.old self.new (Event.Set cpu change) }
        ensures time { self.new.happened ≤ self.old.happened + 1 }
    {
        let now = self.happened + 1;
        let noted = self.hosts.set(&self.machine, now, cpu, change);
        go_on(noted, &mut self.happened, &mut self.poisoned)
    }

    /// A processor executes INVLPG.
    fn invlpg(&mut self, cpu: u32, address: u64) -> Result<Answer, StepFault>
        requires { self.old.happened + 1 < 2 ^ 32 }
        ensures accepted { IfOk result
            (AcceptsEvent HasAllOf self.old self.new (Event.Invlpg cpu address)) }
        ensures refused { IfErr result (λ fault. fault ≢ StepFault.Memory
            → RefusesEvent HasAllOf self.old self.new (Event.Invlpg cpu address) fault) }
        ensures out_of_memory { result ≡ Err StepFault.Memory
            → RunsOutOfMemory HasAllOf self.old self.new (Event.Invlpg cpu address) }
        ensures time { self.new.happened ≤ self.old.happened + 1 }
    {
        let now = self.happened + 1;
        let noted = self.hosts.invlpg(now, cpu, address);
        go_on(noted, &mut self.happened, &mut self.poisoned)
    }

    /// A processor executes INVPCID.
    fn invpcid(&mut self, cpu: u32, kind: u64, pcid: u64, address: u64) -> Result<Answer, StepFault>
        requires { self.old.happened + 1 < 2 ^ 32 }
        ensures accepted { IfOk result
            (AcceptsEvent HasAllOf self.old self.new (Event.Invpcid cpu kind pcid address)) }
        ensures refused { IfErr result (λ fault. fault ≢ StepFault.Memory
            → RefusesEvent HasAllOf self.old self.new (Event.Invpcid cpu kind pcid address) fault) }
        ensures out_of_memory { result ≡ Err StepFault.Memory
            → RunsOutOfMemory HasAllOf self.old self.new (Event.Invpcid cpu kind pcid address) }
        ensures time { self.new.happened ≤ self.old.happened + 1 }
    {
        let now = self.happened + 1;
        let noted = self.hosts.invpcid(now, cpu, kind, pcid, address);
        go_on(noted, &mut self.happened, &mut self.poisoned)
    }

    /// Answers whether a processor is granted an access.
    #[tactic(auto, using(crate::proofs::NotingLaws::hosts_after_ask, crate::proofs::HostLaws::hosts_later))]
    fn ask(
        &mut self,
        cpu: u32,
        access: Access,
        pointer: u64,
        steps: &mut Steps<L>,
    ) -> Result<Answer, StepFault>
        requires { self.old.happened + 1 < 2 ^ 32 }
        ensures accepted { IfOk result
            (AcceptsEvent HasAllOf self.old self.new (Event.Ask cpu access pointer)) }
        ensures refused { IfErr result
            (RefusesEvent HasAllOf self.old self.new (Event.Ask cpu access pointer)) }
        ensures never_memory { result ≢ Err StepFault.Memory }
        ensures time { self.new.happened ≤ self.old.happened + 1 }
        ensures cost { steps.new ≤ steps.old + 5 }
        ensures refused_cost { OnErr result (steps.new ≡ steps.old) }
    {
        let regs = self.hosts.regs(cpu).ok_or(StepFault::NoProcessor(cpu))?;
        let answer = asking::ask(
            self.memory.view(),
            &self.machine,
            regs,
            access,
            pointer,
            steps,
        );
        self.happened += 1;
        Ok(Answer::Asked(answer))
    }

    /// Lists what a processor's space grants, and keeps the space.
    #[tactic(auto, using(crate::proofs::HostLaws::hosts_later))]
    fn list(&mut self, cpu: u32, steps: &mut Steps<L>) -> Result<Answer, StepFault>
        requires events { self.old.happened + 1 < 2 ^ 32 }
        requires unpoisoned { self.old.poisoned ≡ false }
        ensures accepted { IfOk result (AcceptsEvent HasAllOf self.old self.new (Event.List cpu)) }
        ensures refused { IfErr result (λ fault. fault ≢ StepFault.Memory
            → RefusesEvent HasAllOf self.old self.new (Event.List cpu) fault) }
        ensures out_of_memory { result ≡ Err StepFault.Memory
            → RunsOutOfMemory HasAllOf self.old self.new (Event.List cpu) }
        ensures time { self.new.happened ≤ self.old.happened + 1 }
        ensures cost { (moment : History) → HasAllOf self.old moment
            → OnOk result (TakesSteps moment (Event.List cpu) steps.old steps.new) }
        ensures out_of_memory_cost { (moment : History) → HasAllOf self.old moment
            → result ≡ Err StepFault.Memory
            → TakesSteps moment (Event.List cpu) steps.old steps.new }
        ensures refused_cost { IfErr result (λ fault. fault ≢ StepFault.Memory
            → steps.new ≡ steps.old) }
    {
        let regs = self.hosts.regs(cpu).ok_or(StepFault::NoProcessor(cpu))?;
        let listed = listing::list(
            self.alloc,
            self.memory.view(),
            &mut self.spaces,
            &self.machine,
            regs,
            steps,
        );
        let Ok(answer) = listed else {
            self.poisoned = true;
            return Err(StepFault::Memory);
        };
        self.happened += 1;
        Ok(answer)
    }

    /// Tells what is stale of what the processors may use: under all PCIDs that each has been in, or its current one.
    fn point(&mut self, all: bool, steps: &mut Steps<L>) -> Result<Answer, StepFault>
        requires { self.old.happened + 1 < 2 ^ 32 }
        ensures accepted { IfOk result (AcceptsEvent HasAllOf self.old self.new (Event.Point all)) }
        ensures fault { IfErr result (λ fault. fault ≡ StepFault.Memory) }
        ensures out_of_memory { result ≡ Err StepFault.Memory
            → RunsOutOfMemory HasAllOf self.old self.new (Event.Point all) }
        ensures time { self.new.happened ≤ self.old.happened + 1 }
    {
        let found = audit(
            self.alloc,
            self.memory.view(),
            self.memory.changes(),
            self.hosts.as_slice(),
            &self.machine,
            self.happened,
            all,
            steps,
        );
        let Ok(findings) = found else {
            self.poisoned = true;
            return Err(StepFault::Memory);
        };
        self.happened += 1;
        Ok(Answer::Verdict(findings))
    }
}

/// Counts an event that was carried out and has no answer. Where memory ran out, the session is poisoned; else a fault
/// changes nothing.
fn go_on(
    done: Result<(), StepFault>,
    happened: &mut u32,
    poisoned: &mut bool,
) -> Result<Answer, StepFault>
    requires { happened.old + 1 < 2 ^ 32 }
    ensures answer { OnOk done (result ≡ Ok Answer.Nothing) }
    ensures fault { IfErr done (λ fault. result ≡ Err fault) }
    ensures counted { OnOk done (happened.new ≡ happened.old + 1) }
    ensures not_counted { OnErr done (happened.new ≡ happened.old) }
    ensures poisoned { done ≡ Err StepFault.Memory → IsTrue poisoned.new }
    ensures stays { done ≢ Err StepFault.Memory → poisoned.new ≡ poisoned.old }
    ensures unpoisoned { poisoned.new ≡ false
        → (poisoned.old ≡ false) × (done ≢ Err StepFault.Memory) }
{
    match done {
        Ok(()) => {
            *happened += 1;
            Ok(Answer::Nothing)
        }
        Err(fault) => {
            *poisoned |= fault == StepFault::Memory;
            Err(fault)
        }
    }
}
