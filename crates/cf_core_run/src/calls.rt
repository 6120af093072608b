ghost use Rattle.std.specs.Prelude.{◌≡◌, [], ◌∷◌, map, find, bytes_eq, nat_eq, Some, None, Option, IfOk, ◌≤◌, ◌+◌};
ghost use Rattle.std.specs.Option.{option_copied};
ghost use Rattle.cf_base.specs.World.{World};
ghost use Rattle.cf_core.specs.Calls.{name_function, body, root};
ghost use Rattle.cf_core.specs.Calls as calls;
ghost use Rattle.cf_core.specs.Core as cores;
ghost use Rattle.cf_core.specs.FromTypes.{Tables};
ghost use Rattle.cf_core.specs.Places as places;
ghost use Rattle.cf_core.specs.Run.{State};
ghost use Rattle.cf_core.specs.Store.{Code};
ghost use Rattle.cf_run_tree.specs.Tree.{core_of, signature_type, function_head, function_of, program_of};
ghost use Rattle.cf_run_tree.specs.declared.program.RunFn.{RunFn as Defined};
ghost use Rattle.cf_run_tree.specs.declared.program.Signature.{Signature as Head};
ghost use Rattle.cf_core_objects.specs.Answer.{Told};
ghost use Rattle.cf_core_objects.specs.Then.{◌▷◌};
ghost use Rattle.cf_core_run.specs.Going.{Comes, from_value, from_flow, valued, passing, called, again, starting, OpensScope};
ghost use Rattle.cf_core_run.specs.Going as going;
ghost use Rattle.cf_core_objects.specs.declared.object.Entered.{Entered};
ghost use Rattle.cf_core_objects.specs.Store.{value_of};
ghost use Rattle.cf_core_run.specs.Nearer.{weight, weights, arguments_left, marks_left, onward, one_more};

use crate::mark::{Calling, Doing, FlowMark, Mark, ValueMark};
use crate::state::{Machine, RunEnd, Step};
use cf_core_objects::{Entered, Stop, Value, new_object, used};
use cf_core_place::Goal;
use cf_run_tree::{Node, Program, RunFn, Shape, Signature};
use std::alloc::{AllocError, Global};
use std::mem::replace;

/// The function that a program defines by this name.
fn function_named<'a>(program: &'a Program, name: &[u8]) -> Option<&'a RunFn>
    ensures { option_copied result ≡ find (λ (f : Defined). bytes_eq f.name name.now) program.now.functions }
{
    for f in program.functions.as_slice() {
        if f.name.as_slice() == name {
            return Some(f);
        }
    }
    None
}

/// Whether it is a function of the library.
fn is_library(name: &[u8]) -> bool
    ensures { result ≡ calls.is_library name.now }
{
    name == b"putchar".as_slice() || name == b"getchar".as_slice() || name == b"exit".as_slice()
}

/// Whether so many objects were made as there are parameters.
fn as_many(made: usize, params: usize) -> bool
    ensures { result ≡ nat_eq made params }
{
    made == params
}

/// The type of a function that is named: that of its definition in the program, or else the one that it is declared with.
fn head<'a>(program: &'a Program, name: &[u8], declared: &'a Signature) -> &'a Signature
    ensures { result.now ≡ function_head program.now name.now declared.now }
{
    match function_named(program, name) {
        None => declared,
        Some(f) => &f.signature,
    }
}

/// A function is named, as the program defines it, or as the library has it.
fn named(program: &Program, name: &[u8]) -> Result<(), Stop>
    ensures { (T : Tables) (declared : Head) (s : State) (w : World) → Told (λ u. tt) result s w (name_function (program_of T program.now) name.now (signature_type T (function_head program.now name.now declared)) s w) }
{
    if is_library(name) {
        return Ok(());
    }
    match function_named(program, name) {
        None => Err(Stop::Malformed),
        Some(_) => Ok(()),
    }
}

/// The objects of the parameters, as those of the first locals.
fn locals_of(alloc: Global, made: &[usize]) -> Result<Vec<Option<usize>>, AllocError>
    ensures { IfOk result (λ found. found.items ≡ map Some made.now) }
{
    let mut found = Vec::new(alloc);
    for object in made {
        found.push(Some(*object))?;
    }
    Ok(found)
}

impl<'a> Machine<'a> {
    /// A function is called by its name.
    pub fn call(
        &mut self,
        name: &'a [u8],
        signature: &'a Signature,
        all: &'a [Node],
        program: &'a Program,
    ) -> Result<Step<'a>, Stop>
        ensures comes { (into : Option places.Place) → Comes program.now (λ T o. from_value T program.now self.old (valued T program.now self.old.fuel (cores.call name.now (signature_type T (function_head program.now name.now signature.now)) cores.absent (going.cores T program.now all.now)) into) o) result self.new }
        ensures ticks { self.new.ticks ≡ self.old.ticks }
        ensures within { (p : Program) → onward p result self.new ≤ 4 + weights all.now + marks_left self.old.stack.items }
    {
        match named(program, name) {
            Err(stop) => Err(stop),
            Ok(()) => self.start_call(Value::Code(name), head(program, name, signature), all),
        }
    }

    /// A function is named.
    pub fn function(
        &mut self,
        name: &'a [u8],
        signature: &'a Signature,
        program: &'a Program,
    ) -> Result<Step<'a>, Stop>
        ensures comes { Comes program.now (λ T o. from_value T program.now self.old (going.naming T program.now name.now (signature_type T (function_head program.now name.now signature.now))) o) result self.new }
        ensures ticks { self.new.ticks ≡ self.old.ticks }
        ensures within { (p : Program) → onward p result self.new ≤ 1 + marks_left self.old.stack.items }
    {
        match named(program, name) {
            Err(stop) => Err(stop),
            Ok(()) => {
                self.doing = Doing::Gives(Value::Code(name));
                Ok(Step::On)
            }
        }
    }

    /// What is called through a pointer is there, and its arguments come.
    pub fn callee(
        &mut self,
        signature: &'a Signature,
        all: &'a [Node],
        v: Value<'a>,
    ) -> Result<Step<'a>, Stop>
        ensures comes { (p : Program) → Comes p (λ T o. from_value T p self.old (going.go_callee T p self.old.fuel signature.now all.now (value_of v.entry)) o) result self.new }
        ensures ticks { self.new.ticks ≡ self.old.ticks }
        ensures within { (p : Program) → onward p result self.new ≤ 4 + weights all.now + marks_left self.old.stack.items }
    {
        match used(v) {
            Err(stop) => Err(stop),
            Ok(callee) => self.start_call(callee, signature, all),
        }
    }

    /// The arguments of a call begin.
    fn start_call(
        &mut self,
        callee: Value<'a>,
        signature: &'a Signature,
        all: &'a [Node],
    ) -> Result<Step<'a>, Stop>
        ensures comes { (p : Program) (into : Option places.Place) → Comes p (λ T o. from_value T p self.old (starting T p self.old.fuel (value_of callee.entry) (signature_type T signature.now) (going.cores T p all.now) into) o) result self.new }
        ensures ticks { self.new.ticks ≡ self.old.ticks }
        ensures within { (p : Program) → onward p result self.new ≤ 4 + weights all.now + marks_left self.old.stack.items }
    {
        self.doing = Doing::Passes(Calling {
            callee,
            params: signature.params.as_slice(),
            rest: all,
            made: Vec::new(self.alloc),
        });
        Ok(Step::On)
    }

    /// The next argument of a call, or the call.
    pub fn pass(&mut self, calling: Calling<'a>, program: &'a Program) -> Result<Step<'a>, Stop>
        ensures comes { Comes program.now (λ T o. from_value T program.now self.old (passing T program.now self.old.fuel calling.entry) o) result self.new }
        ensures ticks { self.new.ticks ≡ self.old.ticks }
        ensures within { (p : Program) → onward p result self.new ≤ arguments_left calling.entry + marks_left self.old.stack.items }
    {
        match calling.params.split_first() {
            None => self.pass_none(calling, program),
            Some((shape, params)) => self.pass_one(calling, *shape, params),
        }
    }

    /// No parameter is left.
    fn pass_none(&mut self, calling: Calling<'a>, program: &'a Program) -> Result<Step<'a>, Stop>
        requires { calling.params.now ≡ [] }
        ensures comes { Comes program.now (λ T o. from_value T program.now self.old (passing T program.now self.old.fuel calling.entry) o) result self.new }
        ensures ticks { self.new.ticks ≡ self.old.ticks }
        ensures within { (p : Program) → onward p result self.new ≤ arguments_left calling.entry + marks_left self.old.stack.items }
    {
        match calling.rest.split_first() {
            None => self.call_with(calling.callee, calling.made, program),
            Some(_) => Err(Stop::Malformed),
        }
    }

    /// A parameter of this type is next.
    fn pass_one(
        &mut self,
        calling: Calling<'a>,
        shape: Shape,
        params: &'a [Shape],
    ) -> Result<Step<'a>, Stop>
        requires { calling.params.now ≡ shape ∷ params.now }
        ensures comes { (p : Program) → Comes p (λ T o. from_value T p self.old (passing T p self.old.fuel calling.entry) o) result self.new }
        ensures ticks { self.new.ticks ≡ self.old.ticks }
        ensures within { (p : Program) → onward p result self.new ≤ arguments_left calling.entry + marks_left self.old.stack.items }
    {
        match calling.rest.split_first() {
            None => Err(Stop::Malformed),
            Some((first, rest)) => {
                let left = Calling {
                    callee: calling.callee,
                    params,
                    rest,
                    made: calling.made,
                };
                self.pass_next(left, shape, first)
            }
        }
    }

    /// A parameter of this type is built by its argument.
    fn pass_next(
        &mut self,
        left: Calling<'a>,
        shape: Shape,
        first: &'a Node,
    ) -> Result<Step<'a>, Stop>
        ensures comes { (p : Program) → Comes p (λ T o. from_value T p self.old (going.pass_next T p self.old.fuel left.entry shape first.now) o) result self.new }
        ensures ticks { self.new.ticks ≡ self.old.ticks }
        ensures within { (p : Program) → onward p result self.new ≤ 2 + weight first.now + arguments_left left.entry + marks_left self.old.stack.items }
    {
        match new_object(shape, &mut self.objects) {
            Err(stop) => Err(stop),
            Ok(object) => self.pass_in(left, object, first),
        }
    }

    /// The argument for the parameter with this object.
    fn pass_in(
        &mut self,
        left: Calling<'a>,
        object: usize,
        first: &'a Node,
    ) -> Result<Step<'a>, Stop>
        ensures comes { (p : Program) → Comes p (λ T o. from_value T p self.old (λ s w. valued T p self.old.fuel (core_of T p first.now) (Some (root object)) s w ▷ going.go_argument T p self.old.fuel left.entry object) o) result self.new }
        ensures ticks { self.new.ticks ≡ self.old.ticks }
        ensures within { (p : Program) → onward p result self.new ≤ 2 + weight first.now + arguments_left left.entry + marks_left self.old.stack.items }
    {
        self.stack
            .push(Mark::Value(self.fuel, ValueMark::Argument(left, object)))?;
        self.doing = Doing::Evaluate(first, Some(Goal::whole(object)));
        Ok(Step::On)
    }

    /// What is called is run with these objects as its parameters.
    fn call_with(
        &mut self,
        callee: Value<'a>,
        made: Vec<usize>,
        program: &'a Program,
    ) -> Result<Step<'a>, Stop>
        ensures comes { Comes program.now (λ T o. from_value T program.now self.old (called T program.now self.old.fuel (value_of callee.entry) made.items) o) result self.new }
        ensures ticks { self.new.ticks ≡ self.old.ticks }
        ensures within { (p : Program) → onward p result self.new ≤ 3 + marks_left self.old.stack.items }
    {
        match callee {
            Value::Code(name) => self.call_named(name, made, program),
            Value::Null => Err(Stop::Act(4)),
            Value::Nothing => Err(Stop::Malformed),
            Value::Missing => Err(Stop::Malformed),
            Value::Built => Err(Stop::Malformed),
            Value::Number(_) => Err(Stop::Malformed),
            Value::At(_) => Err(Stop::Malformed),
        }
    }

    /// A function is run with these objects as its parameters.
    fn call_named(
        &mut self,
        name: &'a [u8],
        made: Vec<usize>,
        program: &'a Program,
    ) -> Result<Step<'a>, Stop>
        ensures comes { Comes program.now (λ T o. from_value T program.now self.old (called T program.now self.old.fuel (Code name.now) made.items) o) result self.new }
        ensures ticks { self.new.ticks ≡ self.old.ticks }
        ensures within { (p : Program) → onward p result self.new ≤ 3 + marks_left self.old.stack.items }
    {
        if is_library(name) {
            self.call_library(name, made)
        } else {
            self.call_function(name, made, program)
        }
    }

    /// A function of the program is called.
    fn call_function(
        &mut self,
        name: &[u8],
        made: Vec<usize>,
        program: &'a Program,
    ) -> Result<Step<'a>, Stop>
        ensures comes { Comes program.now (λ T o. from_value T program.now self.old (calls.enter_found (again T program.now self.old.fuel) (calls.function_named (program_of T program.now) name.now) made.items None None) o) result self.new }
        ensures ticks { self.new.ticks ≡ self.old.ticks }
        ensures within { (p : Program) → onward p result self.new ≤ 1 + marks_left self.old.stack.items }
    {
        match function_named(program, name) {
            None => Err(Stop::Malformed),
            Some(f) => self.enter_on(f, made),
        }
    }

    /// It is entered on as many objects as it has parameters.
    fn enter_on(&mut self, f: &'a RunFn, made: Vec<usize>) -> Result<Step<'a>, Stop>
        ensures comes { (p : Program) → Comes p (λ T o. from_value T p self.old (calls.enter_found (again T p self.old.fuel) (Some (function_of T p f.now)) made.items None None) o) result self.new }
        ensures ticks { self.new.ticks ≡ self.old.ticks }
        ensures within { (p : Program) → onward p result self.new ≤ 1 + marks_left self.old.stack.items }
    {
        if as_many(made.len(), f.signature.params.len()) {
            self.doing = Doing::Enter(f, made);
            Ok(Step::On)
        } else {
            Err(Stop::Malformed)
        }
    }

    /// A function is entered: a tick and a level of depth are spent, and it shows.
    pub fn enter(&mut self, f: &'a RunFn, made: Vec<usize>) -> Result<Step<'a>, Stop>
        ensures comes { (p : Program) → Comes p (λ T o. from_value T p self.old (calls.enter (again T p self.old.fuel) (function_of T p f.now) made.items None None) o) result self.new }
        ensures spends { one_more result self.new ≤ self.old.ticks }
    {
        if self.ticks == 0 {
            return Ok(Step::Ends(RunEnd::Ticks));
        }
        if self.entered.depth == 0 {
            return Ok(Step::Ends(RunEnd::Depth));
        }
        let name = f.name.as_slice();
        let params = f.signature.params.as_slice();
        let count = params.len() + f.locals.as_slice().len();
        let locals = locals_of(self.alloc, made.as_slice())?;
        let entered = Entered {
            name,
            depth: self.entered.depth - 1,
            count,
            locals,
            scope: Vec::new(self.alloc),
            temporaries: Vec::new(self.alloc),
        };
        let caller = replace(&mut self.entered, entered);
        self.ticks -= 1;
        self.stack
            .push(Mark::Back(self.fuel, f.signature.result, caller))?;
        self.doing = Doing::Body(f, made);
        Ok(Step::Enters(name))
    }

    /// The body of a function begins.
    pub fn begin_body(&mut self, f: &'a RunFn, made: Vec<usize>) -> Result<Step<'a>, Stop>
        ensures comes { (p : Program) → Comes p (λ T o. from_flow T p self.old (again T p self.old.fuel (body (function_of T p f.now) made.items)) o) result self.new }
        ensures ticks { self.new.ticks ≡ self.old.ticks }
        ensures within { (p : Program) → onward p result self.new ≤ 3 + weight f.now.body + marks_left self.old.stack.items }
    {
        if self.fuel == 0 {
            return Ok(Step::Ends(RunEnd::Ticks));
        }
        self.fuel -= 1;
        self.stack
            .push(Mark::Flow(self.fuel, FlowMark::Parameters(made)))?;
        self.open_scope()?;
        self.doing = Doing::Perform(&f.body);
        Ok(Step::On)
    }

    /// A scope is opened.
    pub fn open_scope(&mut self) -> Result<(), AllocError>
        ensures opens { IfOk result (λ u. OpensScope self.old self.new) }
        ensures ticks { self.new.ticks ≡ self.old.ticks }
        ensures within { IfOk result (λ u. marks_left self.new.stack.items ≡ 1 + marks_left self.old.stack.items) }
    {
        let around = replace(&mut self.entered.scope, Vec::new(self.alloc));
        self.stack
            .push(Mark::Flow(self.fuel, FlowMark::Scope(around)))?;
        Ok(())
    }
}
