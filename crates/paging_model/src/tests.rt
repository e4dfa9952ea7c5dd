//! Sets and lists whose values were worked out by hand.

use crate::access::Access;
use crate::access_sets::Rights;
use crate::byte_strings::{Payload, Text};
use std::test::Fail;

#[test]
fn keeps_sets(rt: HostRuntime) {
    let reads = Rights::none()
        .with(Access::Ur)
        .with(Access::Sr)
        .with(Access::Ir);
    let user = Rights::none().with(Access::Uw).with(Access::Ur);
    assert_eq!(rt; reads.number(), 0b0100_1001);
    assert!(rt; reads.has(Access::Ir) && !reads.has(Access::Iw));
    assert_eq!(rt; reads.minus(&user).number(), 0b0100_1000);
    assert_eq!(rt; reads.meet(&user), Rights::none().with(Access::Ur));
    assert_eq!(rt; Rights::of_number(0b0100_1001), reads);
}

#[test]
fn keeps_bytes(rt: HostRuntime) -> Result<(), Fail> {
    let payload = Payload::from_vec([1, 2].to_vec(rt.alloc())?);
    assert_eq!(rt; payload.as_slice(), [1, 2].as_slice());
    let text = Text::from_vec(b"areas 2\n".to_vec(rt.alloc())?);
    assert_eq!(rt; text.as_slice(), b"areas 2\n".as_slice());
    Ok(())
}
