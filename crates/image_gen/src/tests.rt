//! A core and logs that are read again.

use super::*;
use edit_log::Lines;
use elf_core::parse;
use history_model::events::Event;
use std::alloc::{AllocError, Global};
use std::test::Fail;

#[test]
fn makes_the_first_lines_of_a_log(rt: HostRuntime) -> Result<(), Fail> {
    let made = make(rt.alloc(), 7, 3)?;
    let log = b"invpcid 0 2 0 0x0\ninvpcid 1 2 0 0x0\ninvlpg 0 0xa74000\n";
    assert!(rt; made.log.as_slice() == log.as_slice());
    Ok(())
}

#[test]
fn makes_a_core_of_one_segment_and_two_processors(rt: HostRuntime) -> Result<(), Fail> {
    let made = make(rt.alloc(), 0x7fff_ffff, 1)?;
    match parse(rt.alloc(), &made.core) {
        Ok(core) => {
            assert_eq!(rt; core.segments.as_slice().len(), 1);
            assert_eq!(rt; core.segments.as_slice()[0].bytes.len(), 0x10_0000);
            assert_eq!(rt; core.processors.as_slice().len(), 2);
            assert_eq!(rt; core.machine.m, 40);
        }
        Err(_) => panic!(rt; "refused"),
    }
    Ok(())
}

/// How many of a thousand lines there are of each form, in the order of [`Line`], and last how many are of none.
fn count_forms(alloc: Global, log: &[u8]) -> Result<[u32; 8], AllocError> {
    let mut lines = Lines::new(alloc);
    lines.feed(log)?;
    lines.finish();
    let mut counts = [0u32; 8];
    for _ in 0..1000 {
        let form = match lines.next() {
            Ok(Some(Event::Point { .. })) => 0,
            Ok(Some(Event::Invpcid { .. })) => 1,
            Ok(Some(Event::List { .. })) => 2,
            Ok(Some(Event::Write { .. })) => 3,
            Ok(Some(Event::Invlpg { .. })) => 4,
            Ok(Some(Event::Ask { .. })) => 5,
            Ok(Some(Event::Set { .. })) => 6,
            _ => 7,
        };
        counts[form] = counts[form].saturating_add(1);
    }
    Ok(counts)
}

#[test]
fn makes_lines_of_each_form(rt: HostRuntime) -> Result<(), Fail> {
    let made = make(rt.alloc(), 22, 1000)?;
    let counts = count_forms(rt.alloc(), &made.log)?;
    assert_eq!(rt; counts, [1, 2, 1, 524, 109, 251, 112, 0]);
    Ok(())
}
