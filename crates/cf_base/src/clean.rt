ghost use Rattle.std.specs.Prelude.{◌≡◌, [], IfOk, true, drop};
ghost use Rattle.cf_base.specs.Disk.{disk_without_faults};
ghost use Rattle.cf_base.specs.Held.{held_or_empty};
ghost use Rattle.cf_base.specs.Space.{empty_space};
ghost use Rattle.cf_base.specs.Stream.{stream_without_faults};

use crate::files::{Files, ReadErr, WriteErr};
use crate::held::{copy_file, find_file, put_file};
use crate::memory::{Failed, Memory};
use crate::room::Room;
use crate::sink::Sink;
use crate::source::Source;
use std::alloc::Global;

/// Files in memory of which no call fails. A name without a file reads as an empty file.
#[derive(Debug, Drop)]
pub struct CleanFiles {
    alloc: Global,
    files: Vec<(String, Vec<u8>)>,
}

/// Bytes in memory to take one by one, without failures.
#[derive(Debug, Drop)]
pub struct CleanSource {
    bytes: Vec<u8>,
    taken: usize,
}

/// A place in memory for bytes, with its room from the start, without failures. A piece that passes the room is dropped, and
/// from then on the sink doesn't tell its bytes.
#[derive(Debug, Drop)]
pub struct CleanSink {
    room: Room,
    handed_on: usize,
    is_whole: bool,
}

impl Files for CleanFiles {
    ghost disk = { λ f. disk_without_faults (held_or_empty f.files.items) };

    fn read(&mut self, name: &str, cap: u32) -> Result<Vec<u8>, ReadErr> {
        match find_file(&self.files, name) {
            None => Ok(Vec::new(self.alloc)),
            Some(file) => copy_file(self.alloc, &file.1, cap),
        }
    }

    fn write(&mut self, name: &str, bytes: &[u8]) -> Result<(), WriteErr> {
        put_file(self.alloc, &mut self.files, name, bytes)?;
        Ok(())
    }
}

impl CleanFiles {
    /// The files of these names, the first of a name before others.
    pub fn new(alloc: Global, pairs: Vec<(String, Vec<u8>)>) -> CleanFiles
        ensures { ⟦<CleanFiles as Files>⟧.disk result ≡ disk_without_faults (held_or_empty pairs.items) }
    {
        CleanFiles {
            alloc,
            files: pairs,
        }
    }
}

impl Source for CleanSource {
    ghost stream = { λ s. stream_without_faults (drop s.taken s.bytes.items) };

    fn next(&mut self) -> Result<Option<u8>, Failed> {
        match self.bytes.get(self.taken) {
            None => Ok(None),
            Some(byte) => {
                self.taken += 1;
                Ok(Some(*byte))
            }
        }
    }
}

impl CleanSource {
    pub fn new(bytes: Vec<u8>) -> CleanSource
        ensures { ⟦<CleanSource as Source>⟧.stream result ≡ stream_without_faults bytes.items }
    {
        CleanSource { bytes, taken: 0 }
    }
}

impl Sink for CleanSink {
    ghost use Rattle.std.specs.Prelude.{◌&&◌, Ok};
    ghost use Rattle.cf_base.specs.Space.{fits, with_piece};

    ghost stream = { λ s. record { told = s.is_whole; bytes = s.room.bytes; handed_on = s.handed_on; faults = 0 } };

    fn put(&mut self, piece: &[u8]) -> Result<(), Failed>
        ensures answer { result ≡ Ok tt }
        ensures room { self.new.room ≡ with_piece piece.now self.old.room }
        ensures whole { self.new.is_whole ≡ self.old.is_whole && fits piece.now self.old.room }
        ensures handed_on { self.new.handed_on ≡ self.old.handed_on }
    {
        if !self.room.add(piece) {
            self.is_whole = false;
        }
        Ok(())
    }

    fn flush(&mut self) -> Result<(), Failed> {
        self.handed_on = self.room.bytes().len();
        Ok(())
    }
}

impl CleanSink {
    /// Room for `cap` bytes.
    pub fn new(alloc: Global, cap: u32) -> Result<CleanSink, Memory>
        ensures stream { IfOk result (λ sink. ⟦<CleanSink as Sink>⟧.stream sink ≡ stream_without_faults []) }
        ensures room { IfOk result (λ sink. sink.room ≡ empty_space cap) }
    {
        let room = Room::new(alloc, cap)?;
        Ok(CleanSink {
            room,
            handed_on: 0,
            is_whole: true,
        })
    }

    /// What was written, without the pieces that were dropped.
    pub fn bytes(&self) -> &[u8]
        ensures { result.now ≡ (⟦<CleanSink as Sink>⟧.stream self.now).bytes }
    {
        self.room.bytes()
    }
}
