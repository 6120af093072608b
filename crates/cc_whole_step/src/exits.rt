ghost use Rattle.std.specs.Prelude.{◌≡◌, []};
ghost use Rattle.cc_whole_memory.specs.Store.{answer};
ghost use Rattle.cc_whole_mean.specs.Mean as mean;
ghost use Rattle.cc_whole_mean.specs.Start as start;
ghost use Rattle.cc_whole_callee.specs.View.{answer_of};
ghost use Rattle.cc_whole_step.specs.Running.{ending_all, ending_with, exiting, functions_in};
ghost use Rattle.cc_whole_step.specs.Comes.{Comes};

use crate::calls::callee_typed;
use crate::mark::{Flow, Level};
use crate::moment::{End, Moment, Step};
use crate::stop::Stop;
use cc_whole::{CProgram, CSignature};
use cc_whole_callee::Callee;
use cc_whole_memory::{Act, Value};
use cf_base::Items;
use std::alloc::Global;

/// The status that `main` returns.
fn status_of(v: Option<Value>) -> Result<i64, Act>
    ensures { answer result ≡ start.status_of v }
{
    match v {
        None => Err(Act::A11),
        Some(Value::Number(_, number)) => Ok(number),
        Some(Value::Address(_)) => Err(Act::A7),
        Some(Value::Function(_)) => Err(Act::A7),
    }
}

/// `void(void)`, the type that a registered function is called with.
fn no_arguments(alloc: Global) -> CSignature
    ensures { result ≡ start.no_arguments }
{
    CSignature {
        result: None,
        parameters: Items::new(alloc),
    }
}

/// The function of this number, as one that was registered.
fn registered_callee(alloc: Global, program: &CProgram, number: usize) -> Result<Callee<'_>, Act>
    ensures { answer_of result ≡ mean.callee_of (functions_in program.now) (mean.pointer start.no_arguments number) }
{
    let signature = no_arguments(alloc);
    callee_typed(program, &signature, number)
}

impl<'a> Moment<'a> {
    /// `main` or a registered function has ended.
    pub fn end(&mut self, flow: Flow) -> Result<Step<'a>, Stop>
        requires { self.old.frames.marks.items ≡ [] }
        ensures { Comes (ending_all flow) result self.old self.new }
    {
        match flow {
            Flow::Exits(status) => self.exit(status),
            Flow::Returns(v) => self.end_with(v),
            _ => self.end_with(None),
        }
    }

    /// `main` has returned this, or a registered function has come back.
    fn end_with(&mut self, v: Option<Value>) -> Result<Step<'a>, Stop>
        requires { self.old.frames.marks.items ≡ [] }
        ensures { Comes (ending_with v) result self.old self.new }
    {
        let status = match self.status {
            Some(status) => status,
            None => status_of(v)?,
        };
        self.exit(status)
    }

    /// The newest registration is removed and its function called; where none is left the run ends.
    fn exit(&mut self, status: i64) -> Result<Step<'a>, Stop>
        requires { self.old.frames.marks.items ≡ [] }
        ensures { Comes (exiting status) result self.old self.new }
    {
        match self.registered.pop() {
            None => Ok(Step::Ends(End::Ended { status })),
            Some(function) => {
                let callee = registered_callee(self.alloc, self.program, function)?;
                self.status = Some(status);
                self.level = Level {
                    depth: self.depth,
                    in_helper: false,
                };
                self.invoke(callee, &[])
            }
        }
    }
}
