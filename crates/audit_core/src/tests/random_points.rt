//! Points among random events, compared with the definitions' plain reading of the same histories.

ghost use Rattle.std.specs.Prelude.{◌≡◌, ◌<◌, ◌≤◌, length};

use super::*;
use history_reference::findings::first_finding;
use history_reference::moments::{Beginning, Moment, moment_after, regs};
use history_reference::stale_pages::usable_translations;
use history_reference::visits::scope;
use paging_model::registers::Processor;
use paging_reference::physical_memory::KnownBytes;
use proc_regs::bit_ranges::bit;
use proc_regs::pcid;
use proc_regs::register_bits::{CR4_LA57, CR4_PCIDE};
use std::process::Abort;
use test_support::fields::put;

/// The physical address of the first table.
const FIRST: u64 = 0x1000;

/// How many tables there are. Each references the next one mostly.
const TABLES: u64 = 6;

/// How many bytes of memory are known: all tables but the high half of their last entry.
const SIZE: usize = 0x5ffc;

/// Where one segment ends and the next begins: within the first entry of the third table.
const MIDDLE: usize = 0x2004;

/// How many events a history has before its last point.
const EVENTS: u32 = 12;

/// How many histories of each row are compared.
const HISTORIES: u32 = 3;

/// CR0.WP and EFER.NXE.
const WP: u64 = 1 << 16;

const NXE: u64 = 1 << 11;

/// CR4.PGE, LA57, PCIDE, SMEP, SMAP, and PKE with PKS.
const PGE: u64 = 1 << 7;

const LA57: u64 = 1 << 12;

const PCIDE: u64 = 1 << 17;

const SMEP: u64 = 1 << 20;

const SMAP: u64 = 1 << 21;

const KEYS: u64 = 1 << 22 | 1 << 24;

/// What several histories have in common.
#[derive(Clone, Copy, Debug)]
struct Row {
    /// The bits of CR4 at first, beside PAE.
    cr4: u64,
    /// Whether there are pages of 1 GByte.
    big: bool,
    /// The slots of a table that have entries. The second is the one after the first.
    slots: [u64; 3],
    /// How many processors there are.
    processors: u32,
}

/// Four levels, without PCIDs.
const FOUR_LEVELS: [Row; 3] = [
    Row {
        cr4: 0,
        big: true,
        slots: [0, 1, 511],
        processors: 2,
    },
    Row {
        cr4: PGE | KEYS | SMAP,
        big: true,
        slots: [0, 1, 1],
        processors: 3,
    },
    Row {
        cr4: SMEP,
        big: false,
        slots: [510, 511, 511],
        processors: 2,
    },
];

/// Four levels, with PCIDs.
const PCIDS: [Row; 3] = [
    Row {
        cr4: PGE | PCIDE,
        big: true,
        slots: [0, 1, 1],
        processors: 2,
    },
    Row {
        cr4: PGE | PCIDE | KEYS,
        big: false,
        slots: [255, 256, 256],
        processors: 3,
    },
    Row {
        cr4: PCIDE | SMEP | SMAP,
        big: true,
        slots: [510, 511, 511],
        processors: 2,
    },
];

/// Five levels, with PCIDs and without.
const FIVE_LEVELS: [Row; 3] = [
    Row {
        cr4: LA57 | PGE | PCIDE,
        big: true,
        slots: [0, 1, 1],
        processors: 2,
    },
    Row {
        cr4: LA57 | PCIDE | KEYS,
        big: true,
        slots: [510, 511, 511],
        processors: 2,
    },
    Row {
        cr4: LA57 | PGE | SMEP,
        big: false,
        slots: [255, 256, 256],
        processors: 3,
    },
];

/// Random numbers by a linear congruence.
#[derive(Debug, Drop)]
struct Chance {
    state: u64,
}

impl Chance {
    /// A number below another.
    fn below(&mut self, count: u64) -> u64
        requires some { 0 < count }
        ensures below { result < count }
    {
        self.state = self
            .state
            .wrapping_mul(6_364_136_223_846_793_005)
            .wrapping_add(1_442_695_040_888_963_407);
        (self.state >> 33) % count
    }

    /// One of some numbers.
    fn one_of(&mut self, numbers: &[u64]) -> u64
        requires some { 0 < length numbers.now }
    {
        numbers[self.below(numbers.len() as u64) as usize]
    }
}

/// The physical address of a table, by its number.
fn table_at(table: u64) -> u64 {
    FIRST.wrapping_add(table << 12)
}

/// A random entry of a table: mostly of the next one.
fn random_entry(chance: &mut Chance, table: u64) -> u64 {
    let frame = match chance.below(8) {
        // A table, or the page after them, of which nothing is known.
        0 | 1 => table_at(chance.below(TABLES + 1)),
        // A page of 2 MBytes, and one of 1 GByte.
        2 => 0x80 | chance.below(3) << 21,
        3 => 0x80 | chance.below(3) << 30,
        _ => table_at(table.wrapping_add(1) % TABLES),
    };
    let flags = chance.one_of(&[7, 7, 7, 7, 7, 5, 3, 0]);
    let global = chance.one_of(&[0, 0, 0x100]);
    let xd = chance.one_of(&[0, 0, 0, 0, 0, 0, 0, 1 << 63]);
    let key = chance.one_of(&[0, 0, 1, 2, 3]) << 59;
    frame | flags | global | xd | key
}

/// The tables with random entries.
fn random_tables(alloc: Global, chance: &mut Chance, row: &Row) -> Result<Vec<u8>, AllocError> {
    let mut bytes = vec![in alloc; 0; SIZE]?;
    for table in 0..TABLES {
        for slot in row.slots {
            let at = table << 12 | slot << 3;
            put(&mut bytes, (at as usize, 8, random_entry(chance, table)));
        }
    }
    Ok(bytes)
}

/// A write of an entry; at times of a half or of the flags of one, or of a half of each of two.
fn random_write(alloc: Global, chance: &mut Chance, row: &Row) -> Result<Event, AllocError> {
    let table = chance.below(TABLES);
    let slot = chance.one_of(&row.slots);
    let value = random_entry(chance, table).to_le_bytes();
    let at = table_at(table) | slot << 3;
    match chance.below(12) {
        0 => write(alloc, at, &value[..4]),
        1 => write(alloc, at | 4, &value[4..]),
        2 => write(alloc, at, &value[..1]),
        3 => write(alloc, table_at(table) | row.slots[0] << 3 | 4, &value),
        _ => write(alloc, at, &value),
    }
}

/// A MOV to CR3: of a root and, with PCIDs, of a PCID whose translations are kept at times.
fn random_root(chance: &mut Chance, row: &Row) -> RegChange {
    let root = chance.one_of(&[0x1000, 0x1000, 0x2000, 0x5000]);
    if bit(row.cr4, CR4_PCIDE) {
        let keep = chance.one_of(&[0, 1 << 63]);
        RegChange::Cr3(root | chance.one_of(&[0, 0, 1, 2]) | keep)
    } else {
        RegChange::Cr3(root)
    }
}

/// The rights of the protection keys: key 1 disables accesses and key 2 writes, or the other way round, or others.
fn random_keys(chance: &mut Chance) -> u32 {
    [0, 0x24, 0x18, 0x4c][chance.below(4) as usize]
}

/// A change of another register.
fn random_change(chance: &mut Chance, row: &Row) -> RegChange {
    match chance.below(8) {
        0 => RegChange::Cr0(REGS.cr0 ^ chance.one_of(&[0, WP])),
        1 => RegChange::Efer(REGS.efer ^ chance.one_of(&[0, NXE])),
        2 => RegChange::Pkru(random_keys(chance)),
        3 => RegChange::Pkrs(random_keys(chance)),
        4 => RegChange::Ac(chance.below(2) == 0),
        _ => {
            let turned = chance.one_of(&[0, PGE, PGE, SMEP, SMAP, KEYS, PCIDE]);
            RegChange::Cr4((REGS.cr4 | row.cr4) ^ turned)
        }
    }
}

/// A random event.
fn random_event(
    alloc: Global,
    chance: &mut Chance,
    row: &Row,
    pages: &[u64],
) -> Result<Event, AllocError>
    requires some { 0 < length pages.now }
    requires processors { 0 < row.now.processors }
{
    let cpu = chance.below(u64::from(row.processors)) as u32;
    let address = chance.one_of(pages);
    Ok(match chance.below(20) {
        0 | 1 => Event::Invlpg { cpu, address },
        2 | 3 => Event::Invpcid {
            cpu,
            kind: chance.below(4),
            pcid: chance.one_of(&[0, 0, 1, 2]),
            address,
        },
        4..=6 => set(cpu, random_root(chance, row)),
        7..=9 => set(cpu, random_change(chance, row)),
        10 => list(cpu),
        11 => Event::Point {
            all: chance.below(2) == 0,
        },
        _ => random_write(alloc, chance, row)?,
    })
}

/// The registers of a processor at first: one in two is in PCID 1, where there are PCIDs.
fn first_regs(row: &Row, number: u32) -> Regs {
    let pcid = if bit(row.cr4, CR4_PCIDE) {
        u64::from(number % 2)
    } else {
        0
    };
    Regs {
        cr3: FIRST | pcid,
        cr4: REGS.cr4 | row.cr4,
        pkru: 0x24,
        pkrs: 0x18,
        ..REGS
    }
}

/// The state lines, random events, and a point.
fn random_events(
    alloc: Global,
    chance: &mut Chance,
    row: &Row,
    pages: &[u64],
) -> Result<Vec<Event>, AllocError>
    requires some { 0 < length pages.now }
    requires processors { 0 < row.now.processors }
{
    let machine = Machine::new(40, row.big);
    let mut events = vec![in alloc; Event::Machine(machine)]?;
    for number in 0..row.processors {
        events.push(Event::Cpu(number, first_regs(row, number)))?;
    }
    for _ in 0..EVENTS {
        events.push(random_event(alloc, chance, row, pages)?)?;
    }
    events.push(Event::Point { all: true })?;
    Ok(events)
}

/// The slots that have entries, ascending, and maybe the least other one.
fn served_slots(alloc: Global, row: &Row, other: bool) -> Result<Vec<u64>, AllocError> {
    let mut slots = Vec::new(alloc);
    let mut wanted = other;
    for slot in 0..512u64 {
        if row.slots.contains(&slot) {
            slots.push(slot)?;
        } else if wanted {
            slots.push(slot)?;
            wanted = false;
        }
    }
    Ok(slots)
}

/// These addresses, with each of the slots at a level.
fn with_level(
    alloc: Global,
    addresses: &[u64],
    level: u8,
    slots: &[u64],
) -> Result<Vec<u64>, AllocError>
    requires least { 1 ≤ level }
    requires most { level ≤ 5 }
{
    let mut list = Vec::new(alloc);
    for slot in slots {
        for address in addresses {
            list.push(address | slot << (12 + 9 * (level - 1)))?;
        }
    }
    Ok(list)
}

/// The pages among which the first stale one of each processor and PCID is, ascending.
///
/// A slot that no table uses has an entry at no time. What it serves was and is mapped by large pages of the levels
/// above alone, and these map what each such slot of a table serves in the same way: so the least of them stands for
/// all. Above level 3 there are no pages, so there what such a slot serves is never mapped.
fn candidates(alloc: Global, row: &Row) -> Result<Vec<u64>, AllocError> {
    let used = served_slots(alloc, row, false)?;
    let all = served_slots(alloc, row, true)?;
    let mut pages = vec![in alloc; 0]?;
    for level in 1..4 {
        pages = with_level(alloc, &pages, level, &all)?;
    }
    pages = with_level(alloc, &pages, 4, &used)?;
    let upper = if bit(row.cr4, CR4_LA57) {
        pages = with_level(alloc, &pages, 5, &used)?;
        0xff00_0000_0000_0000
    } else {
        0xffff_8000_0000_0000
    };
    pages
        .iter()
        .map(|page| if page & upper == 0 {
            *page
        } else {
            page | upper
        })
        .collect(alloc)
}

/// The moment before the first event.
fn first_moment(alloc: Global, bytes: Vec<u8>, row: &Row) -> Result<Moment, AllocError> {
    let mut processors = Vec::new(alloc);
    for number in 0..row.processors {
        processors.push(Processor {
            number,
            regs: first_regs(row, number),
        })?;
    }
    Ok(Moment::First(Beginning {
        extents: vec![in alloc;
            KnownBytes {
                start: FIRST,
                bytes
            },
        ]?,
        stated: true,
        machine: Machine::new(40, row.big),
        processors,
    }))
}

/// What the points met.
#[derive(Clone, Copy, Debug, Default, PartialEq)]
struct Counts {
    /// Points that found nothing.
    clean: u64,
    /// Points that found something.
    stale: u64,
    /// Findings under a PCID that isn't the current one.
    elsewhere: u64,
    /// Findings that only a global translation may give.
    global: u64,
    /// Events that were refused.
    refused: u64,
}

impl Counts {
    /// Counts what a point found.
    fn add(&mut self, alloc: Global, moment: &Moment, findings: &[Finding]) -> Result<(), Fail> {
        if findings.is_empty() {
            self.clean = self.clean.wrapping_add(1);
        } else {
            self.stale = self.stale.wrapping_add(1);
        }
        for found in findings {
            let known = regs(moment, found.cpu).ok_or("no processor")?;
            if pcid(&known) != found.pcid {
                self.elsewhere = self.elsewhere.wrapping_add(1);
            }
            let usable = usable_translations(alloc, moment, found.cpu, found.pcid, found.page)?;
            if usable.iter().all(|entry| entry.is_global()) {
                self.global = self.global.wrapping_add(1);
            }
        }
        Ok(())
    }
}

/// The first finding at ascending pages of each pair that a point checks. Pages after it aren't looked at.
fn first_findings(
    alloc: Global,
    moment: &Moment,
    all: bool,
    pages: &[u64],
) -> Result<Vec<Finding>, AllocError> {
    let mut list = Vec::new(alloc);
    for (cpu, pcid) in scope(alloc, moment, all)? {
        for page in pages {
            let here = [*page];
            if let Some(first) = first_finding(alloc, moment, cpu, pcid, &here)? {
                list.push(first)?;
                break;
            }
        }
    }
    Ok(list)
}

/// Asserts that at least so much was met of each, and that few events were refused.
fn check_met(rt: &impl Abort, counts: &Counts, least: &Counts) {
    assert!(rt;
        counts.clean >= least.clean
            && counts.stale >= least.stale
            && counts.elsewhere >= least.elsewhere
            && counts.global >= least.global
            && counts.refused < counts.clean.saturating_add(counts.stale),
        "{counts:?}"
    );
}

/// Memory in two segments, of which the first ends within an entry.
fn two_segments(alloc: Global, bytes: &[u8]) -> Result<Segments<'_>, AllocError>
    requires { length bytes.now ≡ 0x5ffc }
{
    let mut segments = Segments::new(alloc);
    segments.push(Segment {
        phys: FIRST,
        bytes: &bytes[..MIDDLE],
    })?;
    segments.push(Segment {
        phys: FIRST + MIDDLE as u64,
        bytes: &bytes[MIDDLE..],
    })?;
    Ok(segments)
}

/// Compares the points of a random history.
fn compare(
    rt: &impl Abort,
    alloc: Global,
    chance: &mut Chance,
    row: &Row,
    pages: &[u64],
    counts: &mut Counts,
) -> Result<(), Fail>
    requires some { 0 < length pages.now }
    requires processors { 0 < row.now.processors }
{
    let seed = chance.state;
    let bytes = random_tables(alloc, chance, row)?;
    assert!(rt; bytes.len() == SIZE);
    let segments = two_segments(alloc, &bytes)?;
    let events = random_events(alloc, chance, row, pages)?;
    let (summary, _) = summary_over(alloc, segments, &events)?;
    let mut moment = first_moment(alloc, bytes, row)?;
    let mut said = summary.said.iter();
    for event in events {
        let answer = said.next().ok_or("no answer")?;
        if let Event::Point { all } = event {
            let findings = first_findings(alloc, &moment, all, pages)?;
            counts.add(alloc, &moment, &findings)?;
            assert_eq!(rt; *answer, Said::Verdict(findings), "{seed} of {row:?}");
        }
        moment = moment_with(alloc, moment, event, answer, counts)?;
    }
    Ok(())
}

/// The moment after an event, if it is one and was accepted.
fn moment_with(
    alloc: Global,
    moment: Moment,
    event: Event,
    answer: &Said,
    counts: &mut Counts,
) -> Result<Moment, AllocError> {
    if let Said::Refused(_) = answer {
        counts.refused = counts.refused.wrapping_add(1);
        return Ok(moment);
    }
    match event {
        Event::Machine(_) | Event::Cpu(..) => Ok(moment),
        event => moment_after(alloc, moment, event),
    }
}

/// Compares histories of these rows.
fn compare_rows(rt: &impl Abort, alloc: Global, rows: &[Row], seed: u64) -> Result<Counts, Fail> {
    let mut counts = Counts::default();
    let mut chance = Chance { state: seed };
    for row in rows {
        let pages = candidates(alloc, row)?;
        assert!(rt; !pages.is_empty() && row.processors > 0);
        for _ in 0..HISTORIES {
            compare(rt, alloc, &mut chance, row, &pages, &mut counts)?;
        }
    }
    Ok(counts)
}

#[test]
fn points_of_four_levels(rt: HostRuntime) -> Result<(), Fail> {
    let counts = compare_rows(&rt, rt.alloc(), &FOUR_LEVELS, 1)?;
    let least = Counts {
        clean: 3,
        stale: 4,
        elsewhere: 0,
        global: 2,
        refused: 0,
    };
    check_met(&rt, &counts, &least);
    Ok(())
}

#[test]
fn points_under_pcids(rt: HostRuntime) -> Result<(), Fail> {
    let counts = compare_rows(&rt, rt.alloc(), &PCIDS, 2)?;
    let least = Counts {
        clean: 1,
        stale: 6,
        elsewhere: 3,
        global: 3,
        refused: 0,
    };
    check_met(&rt, &counts, &least);
    Ok(())
}

#[test]
fn points_of_five_levels(rt: HostRuntime) -> Result<(), Fail> {
    let counts = compare_rows(&rt, rt.alloc(), &FIVE_LEVELS, 3)?;
    let least = Counts {
        clean: 2,
        stale: 6,
        elsewhere: 1,
        global: 5,
        refused: 0,
    };
    check_met(&rt, &counts, &least);
    Ok(())
}
