//! The same over an input and an output.

use crate::build::Build;
use crate::ticks::echo;
use crate::trial::LONG;
use cf_base::{MemSink, MemSource, Memory};
use cf_core_drive::{Driven, End, drive};
use cf_core_objects::Integer;
use std::alloc::Global;
use std::process::Abort;
use std::test::Fail;

/// The numbers of the calls that fail.
fn failing(alloc: Global, calls: &[u32]) -> Result<Vec<u32>, Memory> {
    Ok(calls.to_vec(alloc)?)
}

/// The input is `hi`, and is echoed until a call fails: these of its calls and of the output's.
fn echoes(
    rt: &impl Abort,
    b: Build,
    fails: (&[u32], &[u32]),
    out: &[u8],
    end: End,
) -> Result<(), Fail> {
    let program = echo(b).whole()?;
    let (source, sink) = fails;
    let mut input = MemSource::new(b"hi".as_slice().to_vec(b.alloc)?, failing(b.alloc, source)?);
    let mut put = MemSink::new(b.alloc, 9, failing(b.alloc, sink)?)?;
    let driven = drive(b.alloc, &program, LONG, &mut input, &mut put)?;
    assert!(rt; driven == Driven { end, entered: 1 });
    assert!(rt; put.bytes() == out);
    Ok(())
}

#[test]
fn without_fault(rt: HostRuntime) -> Result<(), Fail> {
    let b = Build { alloc: rt.alloc() };
    let end = End::Ended(Integer::new(0));
    echoes(&rt, b, (&[], &[]), b"hi".as_slice(), end)
}

#[test]
fn output_fails(rt: HostRuntime) -> Result<(), Fail> {
    let b = Build { alloc: rt.alloc() };
    echoes(&rt, b, (&[], &[2]), b"h".as_slice(), End::SinkFault)
}

#[test]
fn input_fails(rt: HostRuntime) -> Result<(), Fail> {
    let b = Build { alloc: rt.alloc() };
    echoes(&rt, b, (&[2], &[]), b"h".as_slice(), End::SourceFault)
}
