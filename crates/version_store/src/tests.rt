//! Changes that are noted, and what a plain list of them says.

ghost use Rattle.std.specs.Prelude.{◌≡◌, ◌%◌};

use super::*;
use block_pool::Pool;
use std::alloc::{AllocError, Global};
use std::test::Fail;

/// The time of the last change that is noted.
const LAST: u32 = 500;

/// A change in the plain list.
#[derive(Clone, Copy)]
struct Noted {
    slot: u64,
    time: u32,
    old: u64,
}

/// The next of numbers that look random.
fn next(random: u64) -> u64 {
    random
        .wrapping_mul(6_364_136_223_846_793_005)
        .wrapping_add(1_442_695_040_888_963_407)
}

/// A random change: of one of four slots of a frame, and mostly in the first frame.
fn random_change(random: u64, time: u32) -> Noted
    ensures { result.slot % 8 ≡ 0 }
{
    let page = u64::from([1u8, 1, 1, 1, 7, 200][(random >> 40) as usize % 6]);
    let place = u64::from([0u16, 1, 0x41, 0x1ff][(random >> 50) as usize % 4]);
    Noted {
        slot: 8 * (0x200 * page + place),
        time,
        old: (random >> 60) % 3,
    }
}

/// Many changes, two at each time, noted in a store and in a plain list.
fn note_many(alloc: Global, pool: &mut Pool, store: &mut Store) -> Result<Vec<Noted>, AllocError> {
    let mut list = Vec::new(alloc);
    let mut random = 1;
    for i in 0..2 * LAST {
        random = next(random);
        let noted = random_change(random, i / 2 + 1);
        store.note(pool, noted.slot, noted.time, noted.old)?;
        list.push(noted)?;
    }
    Ok(list)
}

/// The old value of the first change of a slot after a time, found in the plain list.
fn plain_at(list: &[Noted], slot: u64, time: u32) -> Option<u64> {
    list.iter()
        .find(|noted| noted.slot == slot && noted.time > time)
        .map(|noted| noted.old)
}

/// Whether a store and the plain list say the same of a slot, at each time.
fn agree_on(store: &Store, list: &[Noted], slot: u64) -> bool {
    for time in 0..LAST + 2 {
        if store.at(slot, time) != plain_at(list, slot, time) {
            return false;
        }
    }
    true
}

/// Whether a span of a slot has the value that the plain list says, at each of its times; now it is 9.
fn agrees(list: &[Noted], slot: u64, span: (u32, u32, u64)) -> bool {
    let (first, last, value) = span;
    for time in first..=last {
        if plain_at(list, slot, time).unwrap_or(9) != value {
            return false;
        }
    }
    true
}

/// Whether spans of a slot follow one another from a time on, with different values and those of the plain list.
fn follow(list: &[Noted], slot: u64, from: u32, spans: &[(u32, u32, u64)]) -> bool {
    let mut next_first = from;
    let mut before = None;
    for span in spans {
        if span.0 != next_first || before == Some(span.2) || !agrees(list, slot, *span) {
            return false;
        }
        next_first = span.1.saturating_add(1);
        before = Some(span.2);
    }
    true
}

#[test]
fn a_slot_holds_what_the_list_says(rt: HostRuntime) -> Result<(), Fail> {
    let mut pool = Pool::new(rt.alloc());
    let mut store = Store::new(rt.alloc());
    let list = note_many(rt.alloc(), &mut pool, &mut store)?;
    for slot in [
        0x1000, 0x1008, 0x1010, 0x1208, 0x1ff8, 0x7208, 0xc_8ff8, 0x2000,
    ] {
        assert!(rt; agree_on(&store, &list, slot));
    }
    Ok(())
}

#[test]
fn spans_say_what_each_time_says(rt: HostRuntime) -> Result<(), Fail> {
    let mut pool = Pool::new(rt.alloc());
    let mut store = Store::new(rt.alloc());
    let list = note_many(rt.alloc(), &mut pool, &mut store)?;
    for slot in [0x1000, 0x1208, 0x7008, 0x7ff8, 0x2000] {
        let spans = store.spans(rt.alloc(), slot, 7, LAST + 9, 9)?;
        assert!(rt; follow(&list, slot, 7, spans.as_slice()));
        assert!(rt;
            spans
                .as_slice()
                .last()
                .is_some_and(|span| span.1 == LAST + 9)
        );
    }
    Ok(())
}

#[test]
fn a_block_has_256_changes_of_a_frame(rt: HostRuntime) -> Result<(), Fail> {
    let mut pool = Pool::new(rt.alloc());
    let mut store = Store::new(rt.alloc());
    assert_eq!(rt; (store.blocks(), pool.live()), (0, 0));
    for time in 1..257 {
        store.note(&mut pool, 0x1000, time, 0)?;
    }
    assert_eq!(rt; (store.blocks(), pool.live()), (1, 1));
    store.note(&mut pool, 0x1000, 257, 0)?;
    assert_eq!(rt; (store.blocks(), pool.live()), (2, 2));
    store.note(&mut pool, 0x2000, 258, 0)?;
    assert_eq!(rt; (store.blocks(), pool.live()), (3, 3));
    Ok(())
}

#[test]
fn changed_slots_are_listed_once(rt: HostRuntime) -> Result<(), Fail> {
    let mut pool = Pool::new(rt.alloc());
    let mut store = Store::new(rt.alloc());
    note_many(rt.alloc(), &mut pool, &mut store)?;
    let slots = store.changed_under(rt.alloc(), 0x1000)?;
    assert_eq!(rt;
        slots.as_slice(),
        [0x1000, 0x1008, 0x1208, 0x1ff8].as_slice()
    );
    assert!(rt; store.has_changes(0x1000));
    assert!(rt; !store.has_changes(0x2000));
    Ok(())
}

#[test]
fn a_write_changes_the_slots_that_are_known(rt: HostRuntime) -> Result<(), Fail> {
    let mut pool = Pool::new(rt.alloc());
    let mut store = Store::new(rt.alloc());
    store.note_write(&mut pool, 0x1ff0, &[None, None], 1)?;
    assert!(rt; !store.has_changes(0x1000));
    assert_eq!(rt; (store.blocks(), pool.live()), (0, 0));
    store.note_write(&mut pool, 0x1008, &[Some(5), None, Some(6)], 2)?;
    assert_eq!(rt; (store.blocks(), pool.live()), (1, 1));
    assert_eq!(rt;
        (store.at(0x1008, 1), store.at(0x1018, 1)),
        (Some(5), Some(6))
    );
    assert_eq!(rt; (store.at(0x1008, 2), store.at(0x1010, 1)), (None, None));
    Ok(())
}

#[test]
fn the_last_time_is_the_greatest(rt: HostRuntime) -> Result<(), Fail> {
    let mut pool = Pool::new(rt.alloc());
    let mut store = Store::new(rt.alloc());
    assert_eq!(rt; (store.last_time(), store.last_time_under(0x1000)), (0, 0));
    store.note(&mut pool, 0x1000, 7, 0)?;
    store.note(&mut pool, 0x2008, 9, 0)?;
    store.note(&mut pool, 0x1ff8, 3, 0)?;
    assert_eq!(rt; store.last_time(), 9);
    assert_eq!(rt; store.last_time_under(0x1000), 7);
    assert_eq!(rt; store.last_time_under(0x2000), 9);
    assert_eq!(rt; store.last_time_under(0x3000), 0);
    Ok(())
}

#[test]
fn changes_of_slots_count_after_their_time_alone(rt: HostRuntime) -> Result<(), Fail> {
    let mut pool = Pool::new(rt.alloc());
    let mut store = Store::new(rt.alloc());
    store.note(&mut pool, 0x1000, 7, 0)?;
    store.note(&mut pool, 0x1ff8, 9, 0)?;
    store.note(&mut pool, 0x2008, 9, 0)?;
    let changed = store.changed_after(0x1000, 6);
    assert_eq!(rt;
        (changed.has(0), changed.has(1), changed.has(511)),
        (true, false, true)
    );
    assert_eq!(rt;
        (changed.next(0), changed.next(1), changed.next(512)),
        (0, 511, 512)
    );
    let changed = store.changed_after(0x1000, 7);
    assert_eq!(rt; (changed.has(0), changed.next(0)), (false, 511));
    assert_eq!(rt; store.changed_after(0x3000, 0).next(0), 512);
    Ok(())
}
