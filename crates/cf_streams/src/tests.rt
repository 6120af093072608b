//! The bytes of an input in memory, one by one.

use crate::take;
use cf_base::{MemSource, Memory};
use std::alloc::Global;
use std::process::Abort;
use std::test::Fail;

/// An input of one byte, whose second call fails.
fn input(alloc: Global) -> Result<MemSource, Memory> {
    Ok(MemSource::new(Vec::from_slice(alloc, b"A")?, Vec::from_slice(alloc, &[2])?))
}

/// The byte comes, then the failure, then the end, behind which the end comes again.
#[test]
fn byte_is_taken_once(rt: HostRuntime) -> Result<(), Fail> {
    let mut input = input(rt.alloc())?;
    let mut at_end = false;
    assert!(rt; take(&mut input, &mut at_end).ok() == Some(Some(65)));
    assert!(rt; take(&mut input, &mut at_end).is_err());
    assert!(rt; !at_end);
    assert!(rt; take(&mut input, &mut at_end).ok() == Some(None));
    assert!(rt; at_end);
    assert!(rt; take(&mut input, &mut at_end).ok() == Some(None));
    Ok(())
}
