//! Blocks of low and high pages.

use super::*;
use block_pool::{BLOCK_LEN, Pool};
use std::alloc::AllocError;
use std::test::Fail;

/// The first page that isn't low.
const HIGH: u64 = 1 << 24;

/// Gives a page a block that begins with a byte.
fn give(map: &mut BlockMap, pool: &mut Pool, number: u64, byte: u8) -> Result<(), AllocError> {
    pool.reserve(1)?;
    let mut block = pool.take();
    block.put(0, &[byte]);
    map.insert(number, block).map_err(|_| AllocError)
}

#[test]
fn each_page_has_its_own_block(rt: HostRuntime) -> Result<(), Fail> {
    let pages = [0, 1, 63, 64, HIGH - 1, HIGH, HIGH + 1, (1 << 52) - 1];
    let mut pool = Pool::new(rt.alloc());
    let mut map = BlockMap::new(rt.alloc());
    for (i, number) in pages.iter().enumerate() {
        give(&mut map, &mut pool, *number, i as u8)?;
    }
    assert_eq!(rt; map.len(), pages.len());
    for number in &pages {
        assert!(rt; map.put(*number, BLOCK_LEN - 1, b"z"));
    }
    for (i, number) in pages.iter().enumerate() {
        let Some(block) = map.get(*number) else {
            panic!(rt; "a block is lost");
        };
        assert!(rt; block.bytes().starts_with(&[i as u8, 0]));
        assert!(rt; block.bytes().ends_with(b"\0z"));
    }
    for absent in [2, 62, 65, HIGH - 2, HIGH + 2, HIGH << 1, u64::MAX] {
        assert!(rt; map.get(absent).is_none());
        assert!(rt; !map.put(absent, 0, b"z"));
    }
    Ok(())
}

#[test]
fn a_block_replaces_another(rt: HostRuntime) -> Result<(), Fail> {
    let mut pool = Pool::new(rt.alloc());
    let mut map = BlockMap::new(rt.alloc());
    for number in [5, HIGH + 5] {
        give(&mut map, &mut pool, number, b'a')?;
        give(&mut map, &mut pool, number, b'b')?;
        assert!(rt;
            map.get(number)
                .is_some_and(|block| block.bytes()[0] == b'b')
        );
    }
    assert_eq!(rt; map.len(), 2);
    Ok(())
}
