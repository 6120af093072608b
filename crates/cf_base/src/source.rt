ghost use Rattle.std.specs.Prelude.{IsTrue};
ghost use Rattle.cf_base.specs.Stream.{Stream, Gives};
ghost use Rattle.cf_base.specs.Rose.{CountsFaults};

use crate::memory::Failed;

/// Bytes to take one by one. Which are left is claimed where they are told; the count of calls that failed is always there.
pub trait Source {
    ghost stream: { Self → Stream };

    /// The next byte, or none at the end. After `Failed` the bytes left are as before. Takes no memory.
    fn next(&mut self) -> Result<Option<u8>, Failed>
        ensures bytes { IsTrue (stream self.old).told → Gives (stream self.old).bytes (stream self.new).bytes result }
        ensures told { IsTrue (stream self.old).told → IsTrue (stream self.new).told }
        ensures faults { CountsFaults (stream self.old).faults (stream self.new).faults result };
}
