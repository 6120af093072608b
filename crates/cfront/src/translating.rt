ghost use Rattle.std.specs.Prelude.{◌≡◌, ◌≤◌, IfOk, length};
ghost use Rattle.cc_whole_linker.specs.Answers.{number};
ghost use Rattle.cfront.specs.Steps.{DiskTold, ReadLeaves, CompileLeaves, WriteLeaves, LinkLeaves, TranslateLeaves};

use crate::answer::{Answer, Stop};
use crate::outcome::Outcome;
use crate::position::Position;
use crate::words::text_name_of;
use cc_whole::{CProgram, CUnit};
use cc_whole_link::LinkRule;
use cc_whole_linker::LinkErr;
use cf_base::{Bound, Broken, Files, Limit, ReadErr, WriteErr};
use cf_compile::{Compiled, Fault};
use std::alloc::Global;

/// The most bytes of a source file.
const MAX_BYTES: u32 = 1 << 20;

/// A program to run.
#[derive(Drop)]
pub struct Program {
    pub program: CProgram,
    /// The greatest bound of the frames of the source's functions, in bytes.
    pub frame: u64,
}

/// The bytes of a source file.
pub fn source_bytes<F: Files>(files: &mut F, file: &str) -> Result<Vec<u8>, Stop>
    ensures leaves { ReadLeaves (λ bytes. bytes.items) file.now (F.disk files.old) (F.disk files.new) result }
    ensures told { DiskTold (F.disk files.old) (F.disk files.new) }
{
    match files.read(file, MAX_BYTES) {
        Ok(bytes) => Ok(bytes),
        Err(ReadErr::Failed) => Err(Stop::Answer(Answer::plain(Outcome::FileFault))),
        Err(ReadErr::TooLong) => Err(Stop::Answer(Answer::plain(Outcome::Limit {
            file: Some(1),
            limit: Limit {
                bound: Bound::Bytes,
                most: MAX_BYTES as u64,
            },
        }))),
        Err(ReadErr::Memory) => Err(Stop::Memory),
    }
}

/// The unit of these bytes, with its text.
pub fn compiled(alloc: Global, bytes: &[u8]) -> Result<Compiled, Stop>
    requires { length bytes.now ≤ 1048576 }
    ensures { CompileLeaves bytes.now result }
{
    match cf_compile::compile(alloc, bytes) {
        Ok(made) => Ok(made),
        Err(Fault::Broken(Broken { rule, at })) => Err(Stop::Answer(Answer {
            outcome: Outcome::Refused { file: 1, rule, at },
            position: Position::at(bytes, at),
        })),
        Err(Fault::Limit(limit)) => Err(Stop::Answer(Answer::plain(Outcome::Limit {
            file: Some(1),
            limit,
        }))),
        Err(Fault::Memory) => Err(Stop::Memory),
    }
}

/// Writes a text under a name.
pub fn written<F: Files>(files: &mut F, name: &str, text: &[u8]) -> Result<(), Stop>
    ensures leaves { WriteLeaves name.now text.now (F.disk files.old) (F.disk files.new) result }
    ensures told { DiskTold (F.disk files.old) (F.disk files.new) }
{
    match files.write(name, text) {
        Ok(()) => Ok(()),
        Err(WriteErr::Failed) => Err(Stop::Answer(Answer::plain(Outcome::FileFault))),
        Err(WriteErr::Memory) => Err(Stop::Memory),
    }
}

/// The number of a rule of linking.
fn rule_number(rule: LinkRule) -> u8
    ensures { result ≡ number rule }
{
    match rule {
        LinkRule::L1 => 1,
        LinkRule::L2 => 2,
        LinkRule::L3 => 3,
        LinkRule::L4 => 4,
        LinkRule::L5 => 5,
        LinkRule::L6 => 6,
    }
}

/// The program that a unit links to by itself.
fn linked(alloc: Global, unit: CUnit) -> Result<CProgram, Stop>
    ensures { LinkLeaves unit result }
{
    let mut units = Vec::new(alloc);
    units.push(unit)?;
    match cc_whole_linker::link(alloc, units.as_slice()) {
        Ok(program) => Ok(program),
        Err(LinkErr::Refused(broken)) => Err(Stop::Answer(Answer::plain(Outcome::LinkRefused {
            rule: rule_number(broken.rule),
            name: broken.name,
        }))),
        Err(LinkErr::Limit(limit)) => {
            Err(Stop::Answer(Answer::plain(Outcome::Limit { file: None, limit })))
        }
        Err(LinkErr::Memory) => Err(Stop::Memory),
    }
}

/// Writes the text of a file beside it, and gives the program that its unit links to.
pub fn translated<F: Files>(alloc: Global, file: &str, files: &mut F) -> Result<Program, Stop>
    ensures frame { IfOk result (λ p. p.frame ≤ 65536) }
    ensures leaves { TranslateLeaves file.now (F.disk files.old) (F.disk files.new) result }
    ensures told { DiskTold (F.disk files.old) (F.disk files.new) }
{
    let bytes = source_bytes(files, file)?;
    let made = compiled(alloc, &bytes)?;
    let name = text_name_of(alloc, file)?;
    written(files, name.as_str(), &made.text)?;
    let frame = made.frame;
    let program = linked(alloc, made.unit)?;
    Ok(Program { program, frame })
}
