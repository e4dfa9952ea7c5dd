//! The processors that a session knows, each with its past.

ghost use Rattle.std.specs.Prelude.{◌≡◌, ◌≤◌, ◌<◌, ◌+◌, AllPairs, ◌≢◌, length, option_copied, position, [], Some, None, Err, IfOk, IfErr, IfSome, OnOk, OnErr};
ghost use Rattle.std.specs.List.{position_or_len};
ghost use Rattle.history_model.specs.History.{insert_processors, regs_in};
ghost use Rattle.history_model.specs.Refusals.{if_unknown, invpcid_refusal};
ghost use Rattle.cache_rules.specs.Hosts.{new_host};
ghost use Rattle.audit_core.specs.HostLists.{AreBefore, AreNewHosts, Invalidates, IsHostAt, NotesAt, SetsRegister, insert_host, is_host_of_greater, is_host_of_number, processors_of};
ghost use Rattle.audit_core.specs.ProcessorNumbers.{HaveDistinctNumbers, known_invpcid_refusal, set_refusal};

use cache_rules::Host;
use history_model::events::Event;
use history_model::faults::StepFault;
use paging_model::registers::{Machine, Processor, RegChange, Regs};
use proc_regs::bit_ranges::bit;
use proc_regs::register_bits::{CR4_LA57, CR4_PCIDE};
use proc_regs::{canonical, change as change_regs};
use std::alloc::{AllocError, Global};
use std::marker::Model;

/// Processors in ascending order of their numbers, each with its past. Each number stands once.
#[derive(Debug, Drop)]
pub struct Hosts {
    items: Vec<Host>,
}

impl Model for Hosts {
    ghost use Rattle.std.specs.Prelude.{List};
    ghost use Rattle.cache_rules.specs.Hosts.{Keeping};
    ghost use Rattle.audit_core.specs.HostLists.{processors_of};
    ghost use Rattle.audit_core.specs.ProcessorNumbers.{HaveDistinctNumbers};

    ghost Value = { List Keeping };

    ghost view = { λ hosts. hosts.items.items };

    ghost invariant = { λ hosts. HaveDistinctNumbers (processors_of hosts.items.items) };
}

impl Hosts {
    /// No processors.
    pub fn new(alloc: Global) -> Hosts
        ensures { result ≡ [] }
    {
        Hosts {
            items: Vec::new(alloc),
        }
    }

    /// Processors of distinct numbers, from any order, before the first event.
    #[tactic(auto, using(crate::proofs::ProcessorNumbers::distinct_are_new, crate::proofs::HostLaws::processors_insert, crate::proofs::HostLaws::all_insert_host))]
    pub fn from_slice(
        alloc: Global,
        machine: &Machine,
        processors: &[Processor],
    ) -> Result<Hosts, AllocError>
        requires { AllPairs (λ one other. one.number ≢ other.number) processors.now }
        ensures processors { IfOk result (λ hosts.
            processors_of hosts ≡ insert_processors [] processors.now) }
        ensures new { IfOk result (AreNewHosts machine.now) }
        ensures distinct { IfOk result (λ hosts. HaveDistinctNumbers (processors_of hosts)) }
    {
        let mut hosts = Hosts::new(alloc);
        for processor in processors {
            hosts.state(machine, processor.number, processor.regs)?;
        }
        Ok(hosts)
    }

    /// How many there are.
    pub fn len(&self) -> usize
        ensures { result ≡ length self.now }
    {
        self.items.len()
    }

    /// Borrows them.
    pub fn as_slice(&self) -> &[Host]
        ensures { result.now ≡ self.now }
    {
        self.items.as_slice()
    }

    /// The registers of a processor, by its number.
    pub fn regs(&self, cpu: u32) -> Option<&Regs>
        ensures { option_copied result ≡ regs_in (processors_of self.now) cpu }
    {
        match self.index_of(cpu) {
            Ok(index) => Some(self.items[index].regs()),
            Err(_) => None,
        }
    }

    /// Adds a processor of a new number before the first event. An `Err` changes nothing.
    pub fn state(&mut self, machine: &Machine, number: u32, regs: Regs) -> Result<(), AllocError>
        requires { regs_in (processors_of self.old) number ≡ None }
        ensures ok { OnOk result
            (self.new ≡ insert_host (new_host number regs machine.now) self.old) }
        ensures err { OnErr result (self.new ≡ self.old) }
    {
        let alloc = *self.items.allocator();
        self.insert(Host::new(alloc, number, regs, *machine)?)
    }

    /// Adds a host of a new number, where the order has it. An `Err` changes nothing.
    #[tactic(auto, using(crate::proofs::HostLaws::insert_host_is, crate::proofs::HostLaws::distinct_insert_host))]
    fn insert(&mut self, host: Host) -> Result<(), AllocError>
        requires { regs_in (processors_of self.old) host.number ≡ None }
        ensures ok { OnOk result (self.new ≡ insert_host host self.old) }
        ensures err { OnErr result (self.new ≡ self.old) }
    {
        let index = insertion_index(self.items.as_slice(), host.number());
        self.items.insert(index, host)?;
        Ok(())
    }

    /// Changes a register of a processor, by an event that leads to the time `now`.
    ///
    /// # Errors
    ///
    /// No processor has the number (`NoProcessor`), the change breaks a rule (`Illegal`), or memory ran out. Then
    /// nothing is changed.
    pub fn set(
        &mut self,
        machine: &Machine,
        now: u32,
        cpu: u32,
        change: RegChange,
    ) -> Result<(), StepFault>
        requires { AreBefore now self.old }
        ensures accepted { OnOk result
            (set_refusal machine.now (processors_of self.old) cpu change ≡ None) }
        ensures noted { OnOk result (SetsRegister now cpu change self.old self.new) }
        ensures before { OnOk result (AreBefore (now + 1) self.new) }
        ensures refused { IfErr result (λ fault. fault ≢ StepFault.Memory
            → set_refusal machine.now (processors_of self.old) cpu change ≡ Some fault) }
        ensures out_of_memory { result ≡ Err StepFault.Memory
            → set_refusal machine.now (processors_of self.old) cpu change ≡ None }
        ensures unchanged { OnErr result (self.new ≡ self.old) }
    {
        let index = self.index_of(cpu)?;
        let mut after = *self.items[index].regs();
        change_regs(&mut after, machine, change).map_err(StepFault::Illegal)?;
        self.note(index, now, &Event::Set { cpu, change }, &after)
            .map_err(|_| StepFault::Memory)
    }

    /// A processor executes INVLPG, by an event that leads to the time `now`.
    ///
    /// # Errors
    ///
    /// No processor has the number (`NoProcessor`), or memory ran out. Then nothing is changed.
    pub fn invlpg(&mut self, now: u32, cpu: u32, address: u64) -> Result<(), StepFault>
        requires { AreBefore now self.old }
        ensures accepted { OnOk result
            (if_unknown cpu (regs_in (processors_of self.old) cpu) ≡ None) }
        ensures noted { OnOk result
            (Invalidates now cpu (Event.Invlpg cpu address) self.old self.new) }
        ensures before { OnOk result (AreBefore (now + 1) self.new) }
        ensures refused { IfErr result (λ fault. fault ≢ StepFault.Memory
            → if_unknown cpu (regs_in (processors_of self.old) cpu) ≡ Some fault) }
        ensures out_of_memory { result ≡ Err StepFault.Memory
            → if_unknown cpu (regs_in (processors_of self.old) cpu) ≡ None }
        ensures unchanged { OnErr result (self.new ≡ self.old) }
    {
        let index = self.index_of(cpu)?;
        let regs = *self.items[index].regs();
        self.note(index, now, &Event::Invlpg { cpu, address }, &regs)
            .map_err(|_| StepFault::Memory)
    }

    /// A processor executes INVPCID, by an event that leads to the time `now`.
    ///
    /// # Errors
    ///
    /// No processor has the number (`NoProcessor`), an operand is refused (`BadType`, `BadPcid`, `NotCanonical`), or
    /// memory ran out. Then nothing is changed.
    pub fn invpcid(
        &mut self,
        now: u32,
        cpu: u32,
        kind: u64,
        pcid: u64,
        address: u64,
    ) -> Result<(), StepFault>
        requires { AreBefore now self.old }
        ensures accepted { OnOk result
            (known_invpcid_refusal (processors_of self.old) cpu kind pcid address ≡ None) }
        ensures noted { OnOk result
            (Invalidates now cpu (Event.Invpcid cpu kind pcid address) self.old self.new) }
        ensures before { OnOk result (AreBefore (now + 1) self.new) }
        ensures refused { IfErr result (λ fault. fault ≢ StepFault.Memory
            → known_invpcid_refusal (processors_of self.old) cpu kind pcid address ≡ Some fault) }
        ensures out_of_memory { result ≡ Err StepFault.Memory
            → known_invpcid_refusal (processors_of self.old) cpu kind pcid address ≡ None }
        ensures unchanged { OnErr result (self.new ≡ self.old) }
    {
        let index = self.index_of(cpu)?;
        let regs = *self.items[index].regs();
        check_invpcid(&regs, kind, pcid, address)?;
        let event = Event::Invpcid {
            cpu,
            kind,
            pcid,
            address,
        };
        self.note(index, now, &event, &regs)
            .map_err(|_| StepFault::Memory)
    }

    /// The index of a processor.
    ///
    /// # Errors
    ///
    /// No processor has the number (`NoProcessor`).
    #[tactic(auto, using(crate::proofs::HostLaws::host_found, crate::proofs::HostLaws::host_not_found))]
    fn index_of(&self, cpu: u32) -> Result<usize, StepFault>
        ensures found { IfOk result (λ index. IsHostAt self.now cpu index) }
        ensures unknown { OnErr result (regs_in (processors_of self.now) cpu ≡ None) }
        ensures fault { IfErr result (λ fault. fault ≡ StepFault.NoProcessor cpu) }
    {
        position_of(self.items.as_slice(), cpu).ok_or(StepFault::NoProcessor(cpu))
    }

    /// Notes an event that the processor at an index executes, and that leads to a time and to its registers `after`.
    fn note(
        &mut self,
        index: usize,
        now: u32,
        event: &Event,
        after: &Regs,
    ) -> Result<(), AllocError>
        requires within { index < length self.old }
        requires before { AreBefore now self.old }
        ensures noted { OnOk result (NotesAt index now event.now after.now self.old self.new) }
        ensures before { OnOk result (AreBefore (now + 1) self.new) }
        ensures unchanged { OnErr result (self.new ≡ self.old) }
    {
        self.items[index].note(now, event, after)
    }
}

/// Whether a processor with these registers may execute INVPCID with these operands.
///
/// # Errors
///
/// The first reason for which it may not.
fn check_invpcid(regs: &Regs, kind: u64, pcid: u64, address: u64) -> Result<(), StepFault>
    ensures accepted { OnOk result (invpcid_refusal kind pcid address regs.now ≡ None) }
    ensures refused { IfErr result (λ fault.
        invpcid_refusal kind pcid address regs.now ≡ Some fault) }
    ensures never_memory { result ≢ Err StepFault.Memory }
{
    if kind > 3 {
        return Err(StepFault::BadType);
    }
    if pcid > 4095 || (kind <= 1 && pcid != 0 && !bit(regs.cr4, CR4_PCIDE)) {
        return Err(StepFault::BadPcid);
    }
    if kind == 0 && !canonical(bit(regs.cr4, CR4_LA57), address) {
        return Err(StepFault::NotCanonical);
    }
    Ok(())
}

/// The index of the host of a processor.
fn position_of(hosts: &[Host], cpu: u32) -> Option<usize>
    ensures { result ≡ position (is_host_of_number cpu) hosts.now }
{
    hosts.iter().position(|host| host.number() == cpu)
}

/// The index at which a host of a new number is inserted: that of the first greater one, or the end.
#[tactic(auto, using(crate::proofs::HostLaws::host_index_is, crate::proofs::HostLaws::host_index_within))]
fn insertion_index(hosts: &[Host], number: u32) -> usize
    ensures index { result ≡ position_or_len (is_host_of_greater number) hosts.now }
    ensures within { result ≤ length hosts.now }
{
    greater_index(hosts, number).unwrap_or(hosts.len())
}

/// The index of the first host of a processor with a greater number.
fn greater_index(hosts: &[Host], number: u32) -> Option<usize>
    ensures { result ≡ position (is_host_of_greater number) hosts.now }
{
    hosts.iter().position(|host| host.number() > number)
}
