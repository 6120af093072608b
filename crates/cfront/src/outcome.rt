ghost use Rattle.std.specs.Prelude.{◌≡◌};
ghost use Rattle.cf_base.specs.Integers.{bits_of};
ghost use Rattle.cfront.specs.LastLine.{status_of, exit_status};

use cc_whole_memory::Act;
use cf_base::{Limit, Memory, Name, Rule};

/// The answer of a job. A `file` counts the FILEs of the job from 1.
#[derive(Debug, Drop, PartialEq, Eq)]
pub enum Outcome {
    /// The program ended with this status.
    Ended { status: i64 },
    /// No tick was left.
    Ticks,
    /// No level of depth was left.
    Depth,
    /// An act of the program has no meaning.
    Undefined { act: Act },
    /// The words are no job.
    Usage,
    /// The file breaks this rule, at this byte place.
    Refused { file: u32, rule: Rule, at: u32 },
    /// The text does not link: this rule of linking is broken, 1 to 6, about this name.
    LinkRefused { rule: u8, name: Name },
    /// The greatest bound of the functions' frames times the depth, in bytes, is this, which is more than 2^23.
    Frames { product: u64 },
    /// A limit is passed, of a file or of the job.
    Limit { file: Option<u32>, limit: Limit },
    /// A call on the files failed.
    FileFault,
    /// A call on the input failed.
    SourceFault,
    /// A call on a sink failed.
    SinkFault,
}

/// The status that the program ends with.
pub fn status(answer: &Result<Outcome, Memory>) -> u8
    ensures { result ≡ exit_status answer.now }
{
    match answer {
        Ok(outcome) => status_of_outcome(outcome),
        Err(Memory) => 109,
    }
}

fn status_of_outcome(outcome: &Outcome) -> u8
    ensures { result ≡ status_of outcome.now }
{
    match outcome {
        Outcome::Ended { status } => low_byte(*status),
        Outcome::Usage => 101,
        Outcome::Refused { .. } => 102,
        Outcome::LinkRefused { .. } => 103,
        Outcome::FileFault => 104,
        Outcome::SourceFault => 105,
        Outcome::SinkFault => 106,
        Outcome::Ticks => 107,
        Outcome::Depth => 108,
        Outcome::Undefined { .. } => 110,
        Outcome::Frames { .. } => 111,
        Outcome::Limit { .. } => 113,
    }
}

/// The status modulo 256.
fn low_byte(status: i64) -> u8
    ensures { result ≡ bits_of 8 status }
{
    status.rem_euclid(256) as u8
}
