ghost use Rattle.std.specs.Prelude.{◌<◌, ◌≤◌, IfOk, map, string_bytes, vec_capacity, vec_len};
ghost use Rattle.cf_base.specs.Disk.{Rises};
ghost use Rattle.cf_base.specs.Failures.{times};

use cf_base::{Files, ReadErr, WriteErr};
use std::alloc::Global;
use std::io::{Read, Write};
use std::{fs, rt};

/// How many bytes a call reads at most.
const PIECE: usize = 4096;

/// The files of the system. Nothing is told of what they hold.
#[derive(Drop)]
pub struct DiskFiles<'a, R: rt::Files> {
    rt: &'a R,
    alloc: Global,
    failed_reads: Vec<String>,
    failed_writes: Vec<String>,
}

impl<'a, R: rt::Files> DiskFiles<'a, R> {
    pub fn new(rt: &'a R, alloc: Global) -> DiskFiles<'a, R> {
        DiskFiles {
            rt,
            alloc,
            failed_reads: Vec::new(alloc),
            failed_writes: Vec::new(alloc),
        }
    }
}

/// A call has room for the note of its failure before it is made.
impl<R: rt::Files> Files for DiskFiles<'_, R> {
    ghost use Rattle.std.specs.Prelude.{false, None, map, string_bytes};
    ghost use Rattle.cf_base.specs.Failures.{times};

    ghost disk = { λ f. record { told = false; content = λ _. None; read_faults = times (map string_bytes f.failed_reads.items); write_faults = times (map string_bytes f.failed_writes.items) } };

    fn read(&mut self, name: &str, cap: u32) -> Result<Vec<u8>, ReadErr> {
        let failed = String::from_str(self.alloc, name)?;
        self.failed_reads.reserve(1)?;
        match read_file(self.rt, self.alloc, name, cap) {
            Ok(bytes) => Ok(bytes),
            Err(ReadErr::Failed) => {
                note(&mut self.failed_reads, failed);
                Err(ReadErr::Failed)
            }
            Err(ReadErr::TooLong) => Err(ReadErr::TooLong),
            Err(ReadErr::Memory) => Err(ReadErr::Memory),
        }
    }

    fn write(&mut self, name: &str, bytes: &[u8]) -> Result<(), WriteErr> {
        let Ok(failed) = String::from_str(self.alloc, name) else {
            return Err(WriteErr::Memory);
        };
        if self.failed_writes.reserve(1).is_err() {
            return Err(WriteErr::Memory);
        }
        if write_file(self.rt, name, bytes) {
            Ok(())
        } else {
            note(&mut self.failed_writes, failed);
            Err(WriteErr::Failed)
        }
    }
}

/// Notes that a call on this name failed.
fn note(failed: &mut Vec<String>, name: String)
    requires { vec_len failed.old < vec_capacity failed.old }
    ensures { Rises (string_bytes name) (times (map string_bytes failed.old.items)) (times (map string_bytes failed.new.items)) }
{
    failed.push(name).unwrap();
}

/// The bytes of a file, of which at most `cap` are wanted.
fn read_file<R: rt::Files>(rt: &R, alloc: Global, name: &str, cap: u32) -> Result<Vec<u8>, ReadErr>
    ensures { IfOk result (λ bytes. vec_len bytes ≤ cap) }
{
    let mut file = match fs::open(rt, name) {
        Ok(file) => file,
        Err(_) => return Err(ReadErr::Failed),
    };
    let mut bytes = Vec::new(alloc);
    let mut piece = [0u8; PIECE];
    for _ in 0..u64::MAX {
        match file.read(&mut piece) {
            Ok(0) => return Ok(bytes),
            Ok(count) if count > cap as usize - bytes.len() => return Err(ReadErr::TooLong),
            Ok(count) => bytes.extend_from_slice(&piece[..count])?,
            Err(_) => return Err(ReadErr::Failed),
        }
    }
    Err(ReadErr::Failed)
}

/// Writes a file whole, and tells whether that was done.
fn write_file<R: rt::Files>(rt: &R, name: &str, bytes: &[u8]) -> bool {
    match fs::create(rt, name) {
        Ok(mut file) => write_whole(&mut file, bytes),
        Err(_) => false,
    }
}

/// Writes all bytes, and tells whether that was done. A write of no byte is a fault.
pub fn write_whole<W: Write>(writer: &mut W, bytes: &[u8]) -> bool {
    let mut rest = bytes;
    while !rest.is_empty() {
        match writer.write(rest) {
            Ok(0) => return false,
            Ok(count) => rest = &rest[count..],
            Err(_) => return false,
        }
    }
    true
}
