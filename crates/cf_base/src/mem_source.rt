use crate::memory::Failed;
use crate::planned::Planned;
use crate::source::Source;

/// Bytes in memory to take one by one; the calls with the given numbers fail.
#[derive(Debug, Drop)]
pub struct MemSource {
    bytes: Vec<u8>,
    taken: usize,
    planned: Planned,
    faults: u64,
}

impl Source for MemSource {
    ghost use Rattle.std.specs.Prelude.{◌≡◌, true, drop, not, is_ok};
    ghost use Rattle.cf_base.specs.Plan.{fails_next, one_later};
    ghost use Rattle.cf_base.specs.Rose.{CountsFaults};
    ghost use Rattle.cf_base.specs.Stream.{Gives};

    ghost stream = { λ s. record { told = true; bytes = drop s.taken s.bytes.items; handed_on = 0; faults = s.faults } };

    /// Fails exactly where that is planned.
    fn next(&mut self) -> Result<Option<u8>, Failed>
        ensures bytes { Gives (drop self.old.taken self.old.bytes.items) (drop self.new.taken self.new.bytes.items) result }
        ensures faults { CountsFaults self.old.faults self.new.faults result }
        ensures answer { is_ok result ≡ not (fails_next self.old.planned) }
        ensures plan { self.new.planned ≡ one_later self.old.planned }
    {
        if self.planned.fails_next() {
            self.faults = self.faults.saturating_add(1);
            return Err(Failed);
        }
        match self.bytes.get(self.taken) {
            None => Ok(None),
            Some(byte) => {
                self.taken += 1;
                Ok(Some(*byte))
            }
        }
    }
}

impl MemSource {
    ghost use Rattle.std.specs.Prelude.{◌≡◌};
    ghost use Rattle.cf_base.specs.Plan.{plan_of};
    ghost use Rattle.cf_base.specs.Stream.{stream_without_faults};

    /// `fail` has the numbers, from 1, of the calls that fail.
    pub fn new(bytes: Vec<u8>, fail: Vec<u32>) -> MemSource
        ensures stream { ⟦<MemSource as Source>⟧.stream result ≡ stream_without_faults bytes.items }
        ensures plan { result.planned ≡ plan_of fail.items }
    {
        MemSource {
            bytes,
            taken: 0,
            planned: Planned::new(fail),
            faults: 0,
        }
    }
}
