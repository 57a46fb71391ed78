use crate::class_bytes::{EVERY, SMALL};
use class_build::*;
use class_format::read_class;
use std::test::Fail;

// What was read is written as it stood.
#[test]
fn round_trips(rt: HostRuntime) -> Result<(), Fail> {
    let small = read_class(rt.alloc(), &SMALL)?;
    let text = write_class(rt.alloc(), &small)?;
    assert_eq!(rt; text.as_slice(), SMALL.as_slice());
    let every = read_class(rt.alloc(), &EVERY)?;
    let text = write_class(rt.alloc(), &every)?;
    assert_eq!(rt; text.as_slice(), EVERY.as_slice());
    Ok(())
}
