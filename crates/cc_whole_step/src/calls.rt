ghost use Rattle.std.specs.Prelude.{◌≡◌, map, option_map};
ghost use Rattle.cc_whole.specs.Plain.{call, callee_of as called_of, expression_of, place_of};
ghost use Rattle.cc_whole_memory.specs.Store.{answer, memory_of};
ghost use Rattle.cc_whole_mean.specs.Mean as mean;
ghost use Rattle.cc_whole_callee.specs.View.{answer_of, callee_of};
ghost use Rattle.cc_whole_step.specs.Frames.{scope_of};
ghost use Rattle.cc_whole_step.specs.Chosen.{chosen_answer, chosen_of};
ghost use Rattle.cc_whole_step.specs.Running.{beginning, calling, functions_in};
ghost use Rattle.cc_whole_step.specs.Comes.{Comes};

use crate::frames::Frames;
use crate::mark::Mark;
use crate::moment::{Moment, Step};
use crate::stop::Stop;
use cc_whole::{CCallee, CExpression, CPlace, CProgram, CSignature};
use cc_whole_callee::{Callee, callee_named, callee_numbered, has_type};
use cc_whole_eval::{target, value, values};
use cc_whole_mean::Target;
use cc_whole_memory::{Act, Store, Value};

/// What is called, before it is looked up.
#[derive(Clone, Copy)]
pub enum Chosen<'c> {
    Name(&'c [u8]),
    /// The function of this number, called with this type.
    Pointer(&'c CSignature, usize),
}

/// The place that gets a call's result, if it is stored.
fn targeted(
    place: &Option<CPlace>,
    frames: &Frames<'_>,
    store: &Store,
) -> Result<Option<Target>, Act>
    ensures { answer result ≡ mean.targeted (option_map place_of place.now) (scope_of frames.now) (memory_of store.now) }
{
    match place {
        None => Ok(None),
        Some(place) => {
            let at = target(place, frames, store)?;
            Ok(Some(at))
        }
    }
}

/// The number of the function that a value is.
fn function_number(v: Value) -> Result<usize, Act>
    ensures { answer result ≡ mean.function_number v }
{
    match v {
        Value::Function(number) => Ok(number),
        Value::Number(_, _) => Err(Act::A7),
        Value::Address(_) => Err(Act::A7),
    }
}

/// What a call calls. A helper calls by name only.
fn choose_callee<'c>(
    in_helper: bool,
    f: &'c CCallee,
    frames: &Frames<'_>,
    store: &Store,
) -> Result<Chosen<'c>, Act>
    ensures { chosen_answer result ≡ mean.chosen in_helper (called_of f.now) (scope_of frames.now) (memory_of store.now) }
{
    match f {
        CCallee::Name(name) => Ok(Chosen::Name(name.as_slice())),
        CCallee::Pointer(signature, e) => {
            if in_helper {
                return Err(Act::A9);
            }
            let v = value(e.get(), frames, store)?;
            let number = function_number(v)?;
            Ok(Chosen::Pointer(signature, number))
        }
    }
}

/// The function of this number, if it has this type.
pub fn callee_typed<'p>(
    program: &'p CProgram,
    signature: &CSignature,
    number: usize,
) -> Result<Callee<'p>, Act>
    ensures { answer_of result ≡ mean.callee_of (functions_in program.now) (mean.pointer signature.now number) }
{
    let callee = callee_numbered(program, number)?;
    if has_type(signature, callee) {
        Ok(callee)
    } else {
        Err(Act::A9)
    }
}

/// The function that is called.
fn look_up<'p>(program: &'p CProgram, chosen: Chosen<'_>) -> Result<Callee<'p>, Act>
    ensures { answer_of result ≡ mean.callee_of (functions_in program.now) (chosen_of chosen.entry) }
{
    match chosen {
        Chosen::Name(name) => callee_named(program, name),
        Chosen::Pointer(signature, number) => callee_typed(program, signature, number),
    }
}

impl<'a> Moment<'a> {
    /// `[place =] callee(arguments);`: the place first, then what is called, then the arguments in order.
    pub fn call(
        &mut self,
        place: &Option<CPlace>,
        f: &CCallee,
        arguments: &[CExpression],
    ) -> Result<Step<'a>, Stop>
        ensures { Comes (beginning (call (option_map place_of place.now) (called_of f.now) (map expression_of arguments.now))) result self.old self.new }
    {
        let at = targeted(place, &self.frames, &self.store)?;
        let chosen = choose_callee(self.level.in_helper, f, &self.frames, &self.store)?;
        let found = values(self.alloc, arguments, &self.frames, &self.store)?;
        let callee = look_up(self.program, chosen)?;
        self.frames.marks.push(Mark::Back(at))?;
        self.invoke(callee, &found)
    }

    /// What is called runs, and comes back to what stands above the marks.
    pub fn invoke(&mut self, callee: Callee<'a>, found: &[Value]) -> Result<Step<'a>, Stop>
        ensures { Comes (calling (callee_of callee.entry) found.now) result self.old self.new }
    {
        match callee {
            Callee::Own(f) => self.invoke_own(f, found),
            Callee::BuiltIn(library) => self.invoke_library(library, found),
        }
    }
}
