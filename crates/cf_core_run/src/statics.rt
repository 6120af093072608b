ghost use Rattle.std.specs.Prelude.{◌≡◌, [], Option, Some, codes, ◌≤◌, ◌+◌};
ghost use Rattle.cf_core.specs.Access.{followed};
ghost use Rattle.cf_core.specs.Calls.{root};
ghost use Rattle.cf_core.specs.Core as cores;
ghost use Rattle.cf_core.specs.FromTypes.{Tables};
ghost use Rattle.cf_core.specs.Joined as files;
ghost use Rattle.cf_core.specs.Objects.{static_number};
ghost use Rattle.cf_core.specs.Places as places;
ghost use Rattle.cf_core.specs.Program.{first_state};
ghost use Rattle.cf_core.specs.Store.{Code};
ghost use Rattle.cf_run_tree.specs.Tree.{core_of, object_type, program_of, static_of, static_type};
ghost use Rattle.cf_run_tree.specs.declared.shape.ObjectType.{ObjectType as Declared};
ghost use Rattle.cf_run_tree.specs.declared.program.Program.{Program};
ghost use Rattle.cf_core_run.specs.Going.{Comes, from_value, valued, initialised, called, setting, setting_with, reaching};
ghost use Rattle.cf_core_run.specs.Nearer.{weight, statics_left, marks_left, onward};

use crate::mark::{Calling, Doing, ValueMark};
use crate::state::{Machine, Step};
use cf_core_objects::{Entered, Stop, Value, reach, static_objects, static_value};
use cf_core_place::Goal;
use cf_run_tree::{Node, Program, RunStatic};

/// The number of the static object that a program defines by this name.
fn static_named(program: &Program, name: &[u8]) -> Option<usize>
    ensures { (T : Tables) → result ≡ static_number (program_of T program.now) name.now }
{
    let mut number = 0;
    for x in program.statics.as_slice() {
        if x.name.as_slice() == name {
            return Some(number);
        }
        number += 1;
    }
    None
}

/// Whether a static object has a constant initialiser that does something.
fn sets_constant(x: &RunStatic) -> bool
    ensures { (T : Tables) (p : Program) → result ≡ files.sets_constant (static_of T p x.now) }
{
    x.is_constant && !is_blank(&x.start)
}

/// Whether an initialiser does nothing.
fn is_blank(start: &Node) -> bool
    ensures { (T : Tables) (p : Program) → result ≡ files.is_nothing (core_of T p start.now) }
{
    match start {
        Node::Blank => true,
        _ => false,
    }
}

/// The function in which the literals of a constant initialiser are numbered: its own, or the one that initialises the file.
fn setter(x: &RunStatic) -> &[u8]
    ensures { (T : Tables) (p : Program) → result.now ≡ files.owner_or (files.in_file 1 (codes "__sti")) (static_of T p x.now).owner }
{
    match &x.owner {
        None => b"__sti__u1".as_slice(),
        Some(name) => name.as_slice(),
    }
}

impl<'a> Machine<'a> {
    /// A static object is named.
    pub fn name_static(&mut self, name: &'a [u8], program: &'a Program) -> Result<Step<'a>, Stop>
        ensures comes { (ty : Declared) (into : Option places.Place) → Comes program.now (λ T o. from_value T program.now self.old (valued T program.now self.old.fuel (cores.static_object name.now (object_type T (static_type program.now name.now ty))) into) o) result self.new }
        ensures ticks { self.new.ticks ≡ self.old.ticks }
        ensures within { (p : Program) → onward p result self.new ≤ 1 + marks_left self.old.stack.items }
    {
        match static_named(program, name) {
            None => Err(Stop::Malformed),
            Some(number) => self.follow_static(number),
        }
    }

    /// The static object of this number, or what is bound to it if it is a reference.
    fn follow_static(&mut self, number: usize) -> Result<Step<'a>, Stop>
        ensures comes { (p : Program) → Comes p (λ T o. from_value T p self.old (followed [] (root number)) o) result self.new }
        ensures ticks { self.new.ticks ≡ self.old.ticks }
        ensures within { (p : Program) → onward p result self.new ≤ 1 + marks_left self.old.stack.items }
    {
        match static_value(number, &self.objects) {
            Err(stop) => Err(stop),
            Ok(v) => {
                self.doing = Doing::Gives(v);
                Ok(Step::On)
            }
        }
    }

    /// The program begins: its static objects are there, and zeroed (8.4).
    pub fn start_program(&mut self, program: &'a Program) -> Result<Step<'a>, Stop>
        ensures comes { Comes program.now (λ T o. from_value T program.now self.old (λ s w. setting T program.now self.old.fuel program.now.statics (first_state (program_of T program.now) self.old.entered.depth) w) o) result self.new }
        ensures ticks { self.new.ticks ≡ self.old.ticks }
        ensures within { (p : Program) → onward p result self.new ≤ 1 + statics_left program.now.statics + marks_left self.old.stack.items }
    {
        let objects = static_objects(self.alloc, program)?;
        self.entered = Entered {
            name: b"".as_slice(),
            depth: self.entered.depth,
            count: 0,
            locals: Vec::new(self.alloc),
            scope: Vec::new(self.alloc),
            temporaries: Vec::new(self.alloc),
        };
        self.objects = objects;
        self.doing = Doing::Sets(program.statics.as_slice());
        Ok(Step::On)
    }

    /// The next static object gets its constant initialiser, or `main` is called.
    pub fn set_next(&mut self, all: &'a [RunStatic], program: &'a Program) -> Result<Step<'a>, Stop>
        ensures comes { Comes program.now (λ T o. from_value T program.now self.old (setting T program.now self.old.fuel all.now) o) result self.new }
        ensures ticks { self.new.ticks ≡ self.old.ticks }
        ensures within { (p : Program) → onward p result self.new ≤ statics_left all.now + marks_left self.old.stack.items }
    {
        match all.split_first() {
            None => self.call_main(),
            Some((first, rest)) => {
                if sets_constant(first) {
                    self.set(first, rest, program)
                } else {
                    self.doing = Doing::Sets(rest);
                    Ok(Step::On)
                }
            }
        }
    }

    /// `main` is called.
    fn call_main(&mut self) -> Result<Step<'a>, Stop>
        ensures comes { (p : Program) → Comes p (λ T o. from_value T p self.old (called T p self.old.fuel (Code (codes "__main")) []) o) result self.new }
        ensures ticks { self.new.ticks ≡ self.old.ticks }
        ensures within { (p : Program) → onward p result self.new ≤ 4 + marks_left self.old.stack.items }
    {
        self.doing = Doing::Passes(Calling {
            callee: Value::Code(b"__main".as_slice()),
            params: &[],
            rest: &[],
            made: Vec::new(self.alloc),
        });
        Ok(Step::On)
    }

    /// This static object gets its constant initialiser, and then the others.
    fn set(
        &mut self,
        x: &'a RunStatic,
        rest: &'a [RunStatic],
        program: &'a Program,
    ) -> Result<Step<'a>, Stop>
        ensures comes { Comes program.now (λ T o. from_value T program.now self.old (setting_with T program.now self.old.fuel x.now rest.now) o) result self.new }
        ensures ticks { self.new.ticks ≡ self.old.ticks }
        ensures within { (p : Program) → onward p result self.new ≤ 3 + weight x.now.start + statics_left rest.now + marks_left self.old.stack.items }
    {
        match static_named(program, x.name.as_slice()) {
            None => Err(Stop::Malformed),
            Some(number) => {
                self.entered.name = setter(x);
                self.reach(x, number, rest)
            }
        }
    }

    /// Control has reached the static object of this number.
    fn reach(
        &mut self,
        x: &'a RunStatic,
        number: usize,
        rest: &'a [RunStatic],
    ) -> Result<Step<'a>, Stop>
        ensures comes { (p : Program) → Comes p (λ T o. from_value T p self.old (reaching T p self.old.fuel x.now number rest.now) o) result self.new }
        ensures ticks { self.new.ticks ≡ self.old.ticks }
        ensures within { (p : Program) → onward p result self.new ≤ 3 + weight x.now.start + statics_left rest.now + marks_left self.old.stack.items }
    {
        match reach(&mut self.objects, x.name.as_slice()) {
            Err(stop) => Err(stop),
            Ok(()) => self.open_static(&x.start, number, rest),
        }
    }

    /// The initialiser of the static object of this number.
    fn open_static(
        &mut self,
        start: &'a Node,
        number: usize,
        rest: &'a [RunStatic],
    ) -> Result<Step<'a>, Stop>
        ensures comes { (p : Program) → Comes p (λ T o. from_value T p self.old (initialised T p self.old.fuel (core_of T p start.now) (root number) (setting T p self.old.fuel rest.now)) o) result self.new }
        ensures ticks { self.new.ticks ≡ self.old.ticks }
        ensures within { (p : Program) → onward p result self.new ≤ 3 + weight start.now + statics_left rest.now + marks_left self.old.stack.items }
    {
        let goal = Goal::whole(number);
        self.open_part(goal, ValueMark::Constant(rest))?;
        self.doing = Doing::Evaluate(start, Some(goal));
        Ok(Step::On)
    }

    /// A static object has its value: the others come.
    pub fn constant(&mut self, rest: &'a [RunStatic]) -> Result<Step<'a>, Stop>
        ensures comes { (p : Program) → Comes p (λ T o. from_value T p self.old (setting T p self.old.fuel rest.now) o) result self.new }
        ensures ticks { self.new.ticks ≡ self.old.ticks }
        ensures within { (p : Program) → onward p result self.new ≤ 1 + statics_left rest.now + marks_left self.old.stack.items }
    {
        self.doing = Doing::Sets(rest);
        Ok(Step::On)
    }
}
