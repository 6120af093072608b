ghost use Rattle.std.specs.Prelude.{◌≡◌, ◌≤◌, IsTrue, IfOk, vec_len};
ghost use Rattle.cf_base.specs.Disk.{Disk, Reads, Writes, CountsReads, CountsWrites};
ghost use Rattle.cf_base.specs.declared.files.ReadErr.TheVariants as read;
ghost use Rattle.cf_base.specs.declared.files.WriteErr.TheVariants as write;

use crate::memory::Memory;
use std::alloc::AllocError;

/// Why a file could not be read.
#[derive(Clone, Copy, Debug, PartialEq, Eq)]
pub enum ReadErr {
    /// The call failed, and the count of reads that failed on this name rose.
    Failed,
    /// The file has more bytes than are wanted.
    TooLong,
    Memory,
}

/// Why a file could not be written.
#[derive(Clone, Copy, Debug, PartialEq, Eq)]
pub enum WriteErr {
    /// The call failed, and the count of writes that failed on this name rose.
    Failed,
    Memory,
}

impl From<AllocError> for ReadErr {
    ghost from_gives = { λ _ e. e ≡ read.Memory };

    fn from(_error: AllocError) -> ReadErr {
        ReadErr::Memory
    }
}

impl From<Memory> for ReadErr {
    ghost from_gives = { λ _ e. e ≡ read.Memory };

    fn from(_error: Memory) -> ReadErr {
        ReadErr::Memory
    }
}

impl From<Memory> for WriteErr {
    ghost from_gives = { λ _ e. e ≡ write.Memory };

    fn from(_error: Memory) -> WriteErr {
        WriteErr::Memory
    }
}

/// Named files. What a name holds is claimed where it is told; two counts for each name, of its reads and of its writes that
/// failed, are always there.
pub trait Files {
    ghost disk: { Self → Disk };

    /// All bytes of the file of this name, of which at most `cap` are wanted. No file changes.
    fn read(&mut self, name: &str, cap: u32) -> Result<Vec<u8>, ReadErr>
        ensures short { IfOk result (λ bytes. vec_len bytes ≤ cap) }
        ensures answer { IsTrue (disk self.old).told → Reads (λ bytes. bytes.items) ((disk self.old).content name.now) cap result }
        ensures told { IsTrue (disk self.old).told → IsTrue (disk self.new).told }
        ensures content { (disk self.new).content ≡ (disk self.old).content }
        ensures reads { CountsReads name.now (disk self.old).read_faults (disk self.new).read_faults result }
        ensures writes { (disk self.new).write_faults ≡ (disk self.old).write_faults };

    /// Makes the file of this name hold these bytes. After `Failed` its content is open, and all other files stand.
    fn write(&mut self, name: &str, bytes: &[u8]) -> Result<(), WriteErr>
        ensures content { IsTrue (disk self.old).told → Writes name.now bytes.now (disk self.old).content (disk self.new).content result }
        ensures told { IsTrue (disk self.old).told → IsTrue (disk self.new).told }
        ensures reads { (disk self.new).read_faults ≡ (disk self.old).read_faults }
        ensures writes { CountsWrites name.now (disk self.old).write_faults (disk self.new).write_faults result };
}
