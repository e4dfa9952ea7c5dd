//! Blocks that are taken and given back.

use super::*;
use std::test::Fail;

#[test]
fn a_block_that_comes_back_is_zeros_again(rt: HostRuntime) -> Result<(), Fail> {
    let mut pool = Pool::new(rt.alloc());
    pool.reserve(2)?;
    assert_eq!(rt; (pool.live(), pool.spare()), (0, 2));
    let mut block = pool.take();
    assert_eq!(rt; (pool.live(), pool.spare()), (1, 1));
    block.put(0, b"ab");
    block.put(BLOCK_LEN - 1, b"c");
    assert!(rt; block.bytes().starts_with(b"ab\0"));
    assert!(rt; block.bytes().ends_with(b"\0c"));
    pool.give(block);
    assert_eq!(rt; (pool.live(), pool.spare()), (0, 2));
    pool.reserve(1)?;
    assert_eq!(rt; pool.spare(), 2);
    let (first, second) = (pool.take(), pool.take());
    assert!(rt; first.bytes().iter().all(|byte| *byte == 0));
    assert!(rt; second.bytes().iter().all(|byte| *byte == 0));
    pool.give(first);
    pool.give(second);
    assert_eq!(rt; (pool.live(), pool.spare()), (0, 2));
    Ok(())
}
