ghost use Rattle.std.specs.Prelude.{IsTrue, map, string_bytes};
ghost use Rattle.std.specs.List.{concat};
ghost use Rattle.cf_base.specs.Stream.{Puts};
ghost use Rattle.cf_base.specs.Rose.{CountsFaults};
ghost use Rattle.cfront.specs.Answer.{EndsWith};
ghost use Rattle.cfront.specs.LastLine.{last_line};

use crate::answer::Answer;
use crate::last_line::{Digits, line_pieces};
use crate::outcome::Outcome;
use cf_base::{Failed, Sink};

/// Puts pieces one after another, up to the first call that fails.
fn put_all<S: Sink>(sink: &mut S, pieces: &[&[u8]]) -> Result<(), Failed>
    ensures bytes { IsTrue (S.stream sink.new).told
        → Puts (concat (map (λ piece. piece.now) pieces.now)) (S.stream sink.old).bytes (S.stream sink.new).bytes result }
    ensures told { IsTrue (S.stream sink.new).told → IsTrue (S.stream sink.old).told }
    ensures faults { CountsFaults (S.stream sink.old).faults (S.stream sink.new).faults result }
{
    for piece in pieces {
        match sink.put(piece) {
            Ok(()) => {}
            Err(Failed) => return Err(Failed),
        }
    }
    Ok(())
}

/// Writes the last line of an answer. Where that fails the answer is that.
pub fn finished<E: Sink>(names: &[String], answer: Answer, err: &mut E) -> Outcome
    ensures { EndsWith (last_line (map string_bytes names.now) answer.position answer.outcome) answer.outcome result
        (E.stream err.old) (E.stream err.new) }
{
    let mut digits = Digits::new();
    let pieces = line_pieces(names, &answer, &mut digits);
    match put_all(err, &pieces) {
        Ok(()) => answer.outcome,
        Err(Failed) => Outcome::SinkFault,
    }
}
