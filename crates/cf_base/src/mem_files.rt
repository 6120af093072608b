ghost use Rattle.std.specs.Prelude.{◌≡◌};
ghost use Rattle.cf_base.specs.Held.{held};

use crate::failures::Failures;
use crate::files::{Files, ReadErr, WriteErr};
use crate::held::{copy_file, find_file, put_file};
use crate::planned::Planned;
use std::alloc::Global;

/// Files in memory, of which the calls with the given numbers fail. A name without a file fails too.
#[derive(Debug, Drop)]
pub struct MemFiles {
    alloc: Global,
    files: Vec<(String, Vec<u8>)>,
    planned: Planned,
    failed_reads: Failures,
    failed_writes: Failures,
}

impl Files for MemFiles {
    ghost use Rattle.std.specs.Prelude.{◌≡◌, ◌≤◌, true, IfOk, vec_len};
    ghost use Rattle.cf_base.specs.Disk.{Reads, Writes, CountsReads, CountsWrites};
    ghost use Rattle.cf_base.specs.Failures.{times};
    ghost use Rattle.cf_base.specs.Held.{held};
    ghost use Rattle.cf_base.specs.Plan.{fails_next, one_later, ReadsByPlan, WritesByPlan};

    ghost disk = { λ f. record { told = true; content = held f.files.items; read_faults = times f.failed_reads; write_faults = times f.failed_writes } };

    /// Fails exactly where that is planned or there is no file of the name.
    fn read(&mut self, name: &str, cap: u32) -> Result<Vec<u8>, ReadErr>
        ensures short { IfOk result (λ bytes. vec_len bytes ≤ cap) }
        ensures answer { Reads (λ bytes. bytes.items) (held self.old.files.items name.now) cap result }
        ensures content { self.new.files ≡ self.old.files }
        ensures reads { CountsReads name.now (times self.old.failed_reads) (times self.new.failed_reads) result }
        ensures writes { self.new.failed_writes ≡ self.old.failed_writes }
        ensures cause { ReadsByPlan (fails_next self.old.planned) (held self.old.files.items name.now) result }
        ensures plan { self.new.planned ≡ one_later self.old.planned }
    {
        if self.planned.fails_next() {
            self.failed_reads.note(name)?;
            return Err(ReadErr::Failed);
        }
        match find_file(&self.files, name) {
            None => {
                self.failed_reads.note(name)?;
                Err(ReadErr::Failed)
            }
            Some(file) => copy_file(self.alloc, &file.1, cap),
        }
    }

    /// Fails exactly where that is planned.
    fn write(&mut self, name: &str, bytes: &[u8]) -> Result<(), WriteErr>
        ensures content { Writes name.now bytes.now (held self.old.files.items) (held self.new.files.items) result }
        ensures reads { self.new.failed_reads ≡ self.old.failed_reads }
        ensures writes { CountsWrites name.now (times self.old.failed_writes) (times self.new.failed_writes) result }
        ensures cause { WritesByPlan (fails_next self.old.planned) result }
        ensures plan { self.new.planned ≡ one_later self.old.planned }
    {
        if self.planned.fails_next() {
            self.failed_writes.note(name)?;
            return Err(WriteErr::Failed);
        }
        put_file(self.alloc, &mut self.files, name, bytes)?;
        Ok(())
    }
}

impl MemFiles {
    ghost use Rattle.std.specs.Prelude.{◌≡◌, true};
    ghost use Rattle.cf_base.specs.Held.{held};
    ghost use Rattle.cf_base.specs.Disk.{disk_without_faults};
    ghost use Rattle.cf_base.specs.Plan.{plan_of};

    /// The files of these names, the first of a name before others; `fail` has the numbers, from 1, of the calls that fail.
    pub fn new(alloc: Global, pairs: Vec<(String, Vec<u8>)>, fail: Vec<u32>) -> MemFiles
        ensures disk { ⟦<MemFiles as Files>⟧.disk result ≡ disk_without_faults (held pairs.items) }
        ensures plan { result.planned ≡ plan_of fail.items }
    {
        MemFiles {
            alloc,
            files: pairs,
            planned: Planned::new(fail),
            failed_reads: Failures::new(alloc),
            failed_writes: Failures::new(alloc),
        }
    }
}
