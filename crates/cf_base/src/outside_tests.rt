//! Calls on the objects in memory, each of them failing in its turn.

use crate::{
    CleanFiles, CleanSink, CleanSource, Failed, Files, MemFiles, MemSink, MemSource, ReadErr, Sink,
    Source, WriteErr,
};
use std::alloc::{AllocError, Global};
use std::test::Fail;

/// The files `a` with `first` in it and `b` with `second` in it.
fn two_files(alloc: Global) -> Result<Vec<(String, Vec<u8>)>, AllocError> {
    let mut files = Vec::new(alloc);
    for (name, bytes) in [("a", "first"), ("b", "second")] {
        let bytes = Vec::from_slice(alloc, bytes.as_bytes())?;
        files.push((String::from_str(alloc, name)?, bytes))?;
    }
    Ok(files)
}

/// Whether a file reads as these bytes.
fn reads<F: Files>(files: &mut F, name: &str, want: &str) -> bool {
    match files.read(name, 100) {
        Ok(bytes) => bytes.as_slice() == want.as_bytes(),
        Err(_) => false,
    }
}

#[test]
fn files_read_and_write(rt: HostRuntime) -> Result<(), Fail> {
    let alloc = rt.alloc();
    let mut files = MemFiles::new(alloc, two_files(alloc)?, Vec::new(alloc));
    assert!(rt; reads(&mut files, "a", "first"));
    assert!(rt; matches!(files.read("a", 5), Ok(_)));
    assert!(rt; matches!(files.read("a", 4), Err(ReadErr::TooLong)));
    assert!(rt; matches!(files.read("c", 4), Err(ReadErr::Failed)));
    assert_eq!(rt; files.write("c", b"third"), Ok(()));
    assert_eq!(rt; files.write("a", b""), Ok(()));
    assert!(rt; reads(&mut files, "c", "third"));
    assert!(rt; reads(&mut files, "a", ""));
    assert!(rt; reads(&mut files, "b", "second"));
    Ok(())
}

#[test]
fn each_call_on_files_fails_in_turn(rt: HostRuntime) -> Result<(), Fail> {
    let alloc = rt.alloc();
    for failing in 0..5u32 {
        let fail = Vec::from_slice(alloc, &[failing])?;
        let mut files = MemFiles::new(alloc, two_files(alloc)?, fail);
        assert!(rt; matches!(files.read("a", 9), Err(ReadErr::Failed)) == (failing == 1));
        let wrote = files.write("b", b"new");
        assert!(rt; (wrote == Err(WriteErr::Failed)) == (failing == 2));
        let now = if failing == 2 { "second" } else { "new" };
        assert!(rt;
            reads(&mut files, "b", now) == (failing != 3),
            "at {failing}"
        );
        assert!(rt;
            reads(&mut files, "a", "first") == (failing != 4),
            "at {failing}"
        );
        assert!(rt; reads(&mut files, "b", now), "at {failing}");
    }
    Ok(())
}

#[test]
fn each_call_on_a_source_fails_in_turn(rt: HostRuntime) -> Result<(), Fail> {
    let alloc = rt.alloc();
    for failing in 0..5u32 {
        let fail = Vec::from_slice(alloc, &[failing])?;
        let mut source = MemSource::new(Vec::from_slice(alloc, b"hi")?, fail);
        let mut number = 1;
        for want in [Some(b'h'), Some(b'i'), None] {
            if number == failing {
                assert_eq!(rt; source.next(), Err(Failed), "at {failing}");
            }
            assert_eq!(rt; source.next(), Ok(want), "at {failing}");
            number = if number >= failing { 9 } else { number + 1 };
        }
    }
    Ok(())
}

#[test]
fn each_call_on_a_sink_fails_in_turn(rt: HostRuntime) -> Result<(), Fail> {
    let alloc = rt.alloc();
    for (failing, want) in [(0u32, "abcd"), (1, "cd"), (2, "ab"), (3, "abcd")] {
        let fail = Vec::from_slice(alloc, &[failing])?;
        let mut sink = MemSink::new(alloc, 4, fail)?;
        assert!(rt; (sink.put(b"ab") == Err(Failed)) == (failing == 1));
        assert!(rt; (sink.put(b"cd") == Err(Failed)) == (failing == 2));
        assert!(rt; (sink.flush() == Err(Failed)) == (failing == 3));
        assert_eq!(rt; sink.bytes(), want.as_bytes(), "at {failing}");
    }
    Ok(())
}

#[test]
fn a_piece_past_the_room_fails(rt: HostRuntime) -> Result<(), Fail> {
    let alloc = rt.alloc();
    let mut sink = MemSink::new(alloc, 3, Vec::new(alloc))?;
    assert_eq!(rt; sink.put(b"ab"), Ok(()));
    assert_eq!(rt; sink.put(b"cd"), Err(Failed));
    assert_eq!(rt; sink.put(b"c"), Ok(()));
    assert_eq!(rt; sink.bytes(), b"abc".as_slice());
    Ok(())
}

#[test]
fn clean_objects_never_fail(rt: HostRuntime) -> Result<(), Fail> {
    let alloc = rt.alloc();
    let mut files = CleanFiles::new(alloc, two_files(alloc)?);
    assert!(rt; reads(&mut files, "a", "first"));
    assert!(rt; reads(&mut files, "c", ""));
    assert_eq!(rt; files.write("c", b"third"), Ok(()));
    assert!(rt; reads(&mut files, "c", "third"));
    assert!(rt; matches!(files.read("c", 4), Err(ReadErr::TooLong)));

    let mut source = CleanSource::new(Vec::from_slice(alloc, b"x")?);
    assert_eq!(rt; source.next(), Ok(Some(b'x')));
    assert_eq!(rt; source.next(), Ok(None));
    assert_eq!(rt; source.next(), Ok(None));

    let mut sink = CleanSink::new(alloc, 3)?;
    assert_eq!(rt; sink.put(b"ab"), Ok(()));
    assert_eq!(rt; sink.put(b"cd"), Ok(()));
    assert_eq!(rt; sink.put(b"c"), Ok(()));
    assert_eq!(rt; sink.flush(), Ok(()));
    assert_eq!(rt; sink.bytes(), b"abc".as_slice());
    Ok(())
}
