//! Points over tables that were built by hand, and how many reads of memory they take.

ghost use Rattle.std.specs.Prelude.{◌≡◌, ◌%◌, ⊤};

use super::*;
use phys_view::answer_and_steps;
use test_support::fields::put;

/// The bytes of memory, from physical address 0 on.
const LEN: usize = 0x9000;

/// The tables that the processor's root leads to: one of levels 4, 3 and 2 each, and two of level 1, which map a page
/// each.
const TABLES: [(usize, u64); 6] = [
    (0x1000, 0x2007),
    (0x2000, 0x3007),
    (0x3000, 0x4007),
    (0x3008, 0x5007),
    (0x4000, 0xa_0007),
    (0x5ff8, 0xb_0007),
];

/// Memory with the tables.
fn memory(alloc: Global) -> Result<Vec<u8>, AllocError> {
    let mut bytes = vec![in alloc; 0; LEN]?;
    for &(at, value) in &TABLES {
        put(&mut bytes, (at, 8, value));
    }
    Ok(bytes)
}

/// A change of a slot at time 1, from an old value.
#[derive(Clone, Copy)]
struct Noted {
    slot: u64,
    old: u64,
    ghost aligned: { slot % 8 ≡ 0 },
}

/// A point at time 1 over some changes, with a processor that has been as it is since time 0.
struct PointAfter<'a> {
    alloc: Global,
    segments: Segments<'a>,
    changes: &'a [Noted],
}

impl<'a> Reader for PointAfter<'a> {
    type Answer = Result<Findings, AllocError>;

    ghost gives = { λ _ _. ⊤ };

    fn read<L: Ledger>(self, steps: &mut Steps<L>) -> Result<Findings, AllocError> {
        let PointAfter {
            alloc,
            segments,
            changes,
        } = self;
        let view: View<'_, L> = View::new(alloc, segments);
        let mut pool = Pool::new(alloc);
        let mut store = Store::new(alloc);
        for change in changes {
            store.note(&mut pool, change.slot, 1, change.old)?;
        }
        point_of_one(alloc, &view, &store, steps)
    }
}

/// A point at time 1, with a processor that has been as it is since time 0.
fn point_of_one<L: Ledger>(
    alloc: Global,
    view: &View<'_, L>,
    store: &Store,
    steps: &mut Steps<L>,
) -> Result<Findings, AllocError> {
    let machine = Machine::new(40, true);
    let host = Host::new(alloc, 0, REGS, machine)?;
    let mut hosts = Vec::new(alloc);
    hosts.push(host)?;
    audit(
        alloc,
        view,
        store,
        hosts.as_slice(),
        &machine,
        1,
        false,
        steps,
    )
}

/// What a point finds, and in how many steps.
fn point_and_steps<'a>(
    rt: &impl Abort,
    alloc: Global,
    bytes: &'a [u8],
    changes: &'a [Noted],
) -> Result<(Findings, u64), AllocError> {
    assert!(rt; !bytes.is_empty() && bytes.len() <= LEN);
    let segments = Segments::from_vec(vec![in alloc; Segment { phys: 0, bytes }]?);
    let (findings, steps) = answer_and_steps(PointAfter {
        alloc,
        segments,
        changes,
    });
    Ok((findings?, steps))
}

#[test]
fn tables_are_cut_at_the_top_where_nothing_changed(rt: HostRuntime) -> Result<(), Fail> {
    let bytes = memory(rt.alloc())?;
    let (findings, steps) = point_and_steps(&rt, rt.alloc(), &bytes, &[])?;
    assert!(rt; findings.as_slice().is_empty());
    assert_eq!(rt; steps, 0);
    Ok(())
}

#[test]
fn a_table_is_cut_beside_one_that_changed(rt: HostRuntime) -> Result<(), Fail> {
    let mut bytes = memory(rt.alloc())?;
    put(&mut bytes, (0x5ff8, 8, 0));
    let change = Noted {
        slot: 0x5ff8,
        old: 0xb_0007,
    };
    let (findings, steps) = point_and_steps(&rt, rt.alloc(), &bytes, &[change])?;
    assert!(rt; findings.as_slice().len() == 1);
    assert_eq!(rt;
        (findings.as_slice()[0].page, findings.as_slice()[0].frame),
        (0x3f_f000, 0xb_0000)
    );
    // The slots of three tables on the way, once more those of two of them to find which table below changed, and two
    // reads of each slot on the way.
    assert_eq!(rt; steps, 5 * 512 + 2 * 4);
    Ok(())
}

#[test]
fn a_table_is_looked_through_once(rt: HostRuntime) -> Result<(), Fail> {
    let mut bytes = memory(rt.alloc())?;
    // A table that references itself at each of its slots, and so does each slot but the first of the top table.
    for i in 1..512usize {
        put(&mut bytes, (0x1000 + 8 * i, 8, 0x8007));
    }
    for i in 0..512usize {
        put(&mut bytes, (0x8000 + 8 * i, 8, 0x8007));
    }
    let change = Noted {
        slot: 0x4000,
        old: 0,
    };
    let (findings, steps) = point_and_steps(&rt, rt.alloc(), &bytes, &[change])?;
    assert!(rt; findings.as_slice().is_empty());
    // As many on the way, and the slots of the other table at two levels.
    assert_eq!(rt; steps, 5 * 512 + 2 * 4 + 2 * 512);
    Ok(())
}
