ghost use Rattle.std.specs.Prelude.{◌≡◌, IsTrue};
ghost use Rattle.cf_base.specs.Stream.{Stream, Puts, HandsOn};
ghost use Rattle.cf_base.specs.Rose.{CountsFaults};

use crate::memory::Failed;

/// A place for bytes. What was written, and how many bytes of it were handed on, is claimed where it is told, and a sink that
/// doesn't tell never tells later; the count of calls that failed is always there.
pub trait Sink {
    ghost stream: { Self → Stream };

    /// Adds a piece at the end, and hands on nothing. After `Failed` a front of it was added. Takes no memory.
    fn put(&mut self, piece: &[u8]) -> Result<(), Failed>
        ensures bytes { IsTrue (stream self.new).told → Puts piece.now (stream self.old).bytes (stream self.new).bytes result }
        ensures handed_on { IsTrue (stream self.new).told → (stream self.new).handed_on ≡ (stream self.old).handed_on }
        ensures told { IsTrue (stream self.new).told → IsTrue (stream self.old).told }
        ensures faults { CountsFaults (stream self.old).faults (stream self.new).faults result };

    /// Hands on what was put so far. After `Failed` no more is handed on than before. Takes no memory.
    fn flush(&mut self) -> Result<(), Failed>
        ensures bytes { IsTrue (stream self.new).told → (stream self.new).bytes ≡ (stream self.old).bytes }
        ensures handed_on { IsTrue (stream self.new).told → HandsOn (stream self.old) (stream self.new) result }
        ensures told { IsTrue (stream self.new).told → IsTrue (stream self.old).told }
        ensures faults { CountsFaults (stream self.old).faults (stream self.new).faults result };
}
