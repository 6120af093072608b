use crate::memory::{Failed, Memory};
use crate::planned::Planned;
use crate::room::Room;
use crate::sink::Sink;
use std::alloc::Global;

/// A place in memory for bytes, with its room from the start; the calls with the given numbers fail, and so does a piece that
/// passes the room.
#[derive(Debug, Drop)]
pub struct MemSink {
    room: Room,
    handed_on: usize,
    planned: Planned,
    faults: u64,
}

impl Sink for MemSink {
    ghost use Rattle.std.specs.Prelude.{◌≡◌, true, not, ◌&&◌, if◌then◌else◌, is_ok, length};
    ghost use Rattle.cf_base.specs.Plan.{fails_next, one_later};
    ghost use Rattle.cf_base.specs.Rose.{CountsFaults};
    ghost use Rattle.cf_base.specs.Space.{fits, with_piece};
    ghost use Rattle.cf_base.specs.Stream.{Puts};

    ghost stream = { λ s. record { told = true; bytes = s.room.bytes; handed_on = s.handed_on; faults = s.faults } };

    /// Fails exactly where that is planned or the piece passes the room.
    fn put(&mut self, piece: &[u8]) -> Result<(), Failed>
        ensures bytes { Puts piece.now self.old.room.bytes self.new.room.bytes result }
        ensures handed_on { self.new.handed_on ≡ self.old.handed_on }
        ensures faults { CountsFaults self.old.faults self.new.faults result }
        ensures answer { is_ok result ≡ not (fails_next self.old.planned) && fits piece.now self.old.room }
        ensures room { self.new.room ≡ (if fails_next self.old.planned then self.old.room else with_piece piece.now self.old.room) }
        ensures plan { self.new.planned ≡ one_later self.old.planned }
    {
        if self.planned.fails_next() || !self.room.add(piece) {
            self.faults = self.faults.saturating_add(1);
            return Err(Failed);
        }
        Ok(())
    }

    /// Fails exactly where that is planned.
    fn flush(&mut self) -> Result<(), Failed>
        ensures handed_on { self.new.handed_on ≡ (if fails_next self.old.planned then self.old.handed_on else length self.old.room.bytes) }
        ensures faults { CountsFaults self.old.faults self.new.faults result }
        ensures answer { is_ok result ≡ not (fails_next self.old.planned) }
        ensures room { self.new.room ≡ self.old.room }
        ensures plan { self.new.planned ≡ one_later self.old.planned }
    {
        if self.planned.fails_next() {
            self.faults = self.faults.saturating_add(1);
            return Err(Failed);
        }
        self.handed_on = self.room.bytes().len();
        Ok(())
    }
}

impl MemSink {
    ghost use Rattle.std.specs.Prelude.{◌≡◌, [], IfOk};
    ghost use Rattle.cf_base.specs.Plan.{plan_of};
    ghost use Rattle.cf_base.specs.Space.{empty_space};
    ghost use Rattle.cf_base.specs.Stream.{stream_without_faults};

    /// Room for `cap` bytes; `fail` has the numbers, from 1, of the calls that fail.
    pub fn new(alloc: Global, cap: u32, fail: Vec<u32>) -> Result<MemSink, Memory>
        ensures stream { IfOk result (λ sink. ⟦<MemSink as Sink>⟧.stream sink ≡ stream_without_faults []) }
        ensures room { IfOk result (λ sink. sink.room ≡ empty_space cap) }
        ensures plan { IfOk result (λ sink. sink.planned ≡ plan_of fail.items) }
    {
        let room = Room::new(alloc, cap)?;
        Ok(MemSink {
            room,
            handed_on: 0,
            planned: Planned::new(fail),
            faults: 0,
        })
    }

    /// What was written.
    pub fn bytes(&self) -> &[u8]
        ensures { result.now ≡ (⟦<MemSink as Sink>⟧.stream self.now).bytes }
    {
        self.room.bytes()
    }
}
