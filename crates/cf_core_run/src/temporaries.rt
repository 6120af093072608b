ghost use Rattle.std.specs.Prelude.{◌≡◌, [], Option, Some, IfOk, reverse, ◌≤◌, ◌+◌};
ghost use Rattle.cf_core.specs.Calls.{root};
ghost use Rattle.cf_core.specs.Core as cores;
ghost use Rattle.cf_core.specs.Objects as meaning;
ghost use Rattle.cf_core.specs.Places as places;
ghost use Rattle.cf_core.specs.FromTypes.{Tables};
ghost use Rattle.cf_base.specs.World.{World};
ghost use Rattle.cf_core_objects.specs.Answer.{Told};
ghost use Rattle.cf_core_objects.specs.declared.object.Entered.{Entered};
ghost use Rattle.cf_run_tree.specs.Tree.{core_of, shape_type};
ghost use Rattle.cf_run_tree.specs.declared.program.Program.{Program};
ghost use Rattle.cf_core_objects.specs.Store.{state_of, value_of};
ghost use Rattle.cf_core_objects.specs.Then.{◌▷◌};
ghost use Rattle.cf_core_run.specs.Going.{Comes, OpensWhole, OpensStart, OpensPart, from_value, valued, closed, go_stored, go_temporary, go_held};
ghost use Rattle.cf_core_run.specs.Nearer.{weight, behind_value, behind_test, marks_left, onward};

use crate::mark::{Doing, Mark, TestMark, ValueMark};
use crate::state::{Machine, Step};
use cf_base::Boxed;
use cf_core_objects::{Objects, Stop, Value, end_temporaries, new_object, new_scalar, settle};
use cf_core_place::{Goal, Part, Place};
use cf_run_tree::{Node, Shape};
use std::alloc::AllocError;
use std::mem::replace;

/// An initialiser has given a value for an object.
pub fn settle_object<'a>(objects: &mut Objects<'a>, object: usize, v: Value<'a>) -> Result<(), Stop>
    ensures { (T : Tables) (e : Entered) (w : World) → Told (λ u. tt) result (state_of T e objects.new) w (meaning.settle [] (root object) (value_of v.entry) (state_of T e objects.old) w) }
{
    let place = Place {
        object,
        part: Part::Whole,
    };
    settle(objects, place, v)
}

impl<'a> Machine<'a> {
    /// A full expression begins, without temporaries, and the mark says what its value leads to.
    pub fn open_whole(&mut self, mark: TestMark<'a>) -> Result<(), AllocError>
        ensures opens { IfOk result (λ u. OpensWhole self.old self.new mark.entry) }
        ensures ticks { self.new.ticks ≡ self.old.ticks }
        ensures within { IfOk result (λ u. marks_left self.new.stack.items ≡ behind_test mark.entry + 1 + marks_left self.old.stack.items) }
    {
        self.stack.push(Mark::Test(self.fuel, mark))?;
        let around = replace(&mut self.entered.temporaries, Vec::new(self.alloc));
        self.stack
            .push(Mark::Value(self.fuel, ValueMark::Whole(around)))?;
        Ok(())
    }

    /// An initialiser of this goal begins, as a full expression of its own, and the mark says what follows once its value is stored.
    pub fn open_start(&mut self, goal: Goal, mark: TestMark<'a>) -> Result<(), AllocError>
        ensures opens { IfOk result (λ u. OpensStart self.old self.new goal mark.entry) }
        ensures ticks { self.new.ticks ≡ self.old.ticks }
        ensures within { IfOk result (λ u. marks_left self.new.stack.items ≡ behind_test mark.entry + 1 + marks_left self.old.stack.items) }
    {
        self.stack.push(Mark::Test(self.fuel, mark))?;
        let around = replace(&mut self.entered.temporaries, Vec::new(self.alloc));
        self.stack
            .push(Mark::Value(self.fuel, ValueMark::Stored(goal, around)))?;
        Ok(())
    }

    /// The same inside an expression, or before a further initialiser.
    pub fn open_part(&mut self, goal: Goal, mark: ValueMark<'a>) -> Result<(), AllocError>
        ensures opens { IfOk result (λ u. OpensPart self.old self.new goal mark.entry) }
        ensures ticks { self.new.ticks ≡ self.old.ticks }
        ensures within { IfOk result (λ u. marks_left self.new.stack.items ≡ behind_value mark.entry + 1 + marks_left self.old.stack.items) }
    {
        self.stack.push(Mark::Value(self.fuel, mark))?;
        let around = replace(&mut self.entered.temporaries, Vec::new(self.alloc));
        self.stack
            .push(Mark::Value(self.fuel, ValueMark::Stored(goal, around)))?;
        Ok(())
    }

    /// A full expression has ended: its temporaries end, and those of the one around it stand again.
    pub fn close_whole(&mut self, around: Vec<usize>, v: Value<'a>) -> Result<Step<'a>, Stop>
        ensures comes { (p : Program) → Comes p (λ T o. from_value T p self.old (closed T p self.old.fuel (reverse around.items) (value_of v.entry)) o) result self.new }
        ensures ticks { self.new.ticks ≡ self.old.ticks }
        ensures within { (p : Program) → onward p result self.new ≤ 1 + marks_left self.old.stack.items }
    {
        match end_temporaries(&self.entered, &mut self.objects) {
            Err(stop) => Err(stop),
            Ok(()) => {
                self.entered.temporaries = around;
                self.doing = Doing::Gives(v);
                Ok(Step::On)
            }
        }
    }

    /// The value of an initialiser is there: it is stored, and then its full expression ends.
    pub fn close_stored(
        &mut self,
        goal: Goal,
        around: Vec<usize>,
        v: Value<'a>,
    ) -> Result<Step<'a>, Stop>
        ensures comes { (p : Program) → Comes p (λ T o. from_value T p self.old (go_stored T p self.old.fuel goal around.items (value_of v.entry)) o) result self.new }
        ensures ticks { self.new.ticks ≡ self.old.ticks }
        ensures within { (p : Program) → onward p result self.new ≤ 1 + marks_left self.old.stack.items }
    {
        match settle(&mut self.objects, goal.place(), v) {
            Err(stop) => Err(stop),
            Ok(()) => self.close_whole(around, Value::Built),
        }
    }

    /// A temporary of the full expression is made.
    pub fn temporary(&mut self, shape: Shape, start: &'a Boxed<Node>) -> Result<Step<'a>, Stop>
        ensures comes { (p : Program) (into : Option places.Place) → Comes p (λ T o. from_value T p self.old (valued T p self.old.fuel (cores.temporary (shape_type T shape) (core_of T p start.now)) into) o) result self.new }
        ensures ticks { self.new.ticks ≡ self.old.ticks }
        ensures within { (p : Program) → onward p result self.new ≤ 2 + weight start.now + marks_left self.old.stack.items }
    {
        match new_object(shape, &mut self.objects) {
            Err(stop) => Err(stop),
            Ok(object) => self.make(object, start),
        }
    }

    /// The initialiser of a temporary with this object.
    fn make(&mut self, object: usize, start: &'a Boxed<Node>) -> Result<Step<'a>, Stop>
        ensures comes { (p : Program) → Comes p (λ T o. from_value T p self.old (λ s w. valued T p self.old.fuel (core_of T p start.now) (Some (root object)) s w ▷ go_temporary T p self.old.fuel object) o) result self.new }
        ensures ticks { self.new.ticks ≡ self.old.ticks }
        ensures within { (p : Program) → onward p result self.new ≤ 2 + weight start.now + marks_left self.old.stack.items }
    {
        self.stack
            .push(Mark::Value(self.fuel, ValueMark::Temporary(object)))?;
        self.doing = Doing::Evaluate(start.get(), Some(Goal::whole(object)));
        Ok(Step::On)
    }

    /// The value of a temporary is there.
    pub fn made(&mut self, object: usize, v: Value<'a>) -> Result<Step<'a>, Stop>
        ensures comes { (p : Program) → Comes p (λ T o. from_value T p self.old (go_temporary T p self.old.fuel object (value_of v.entry)) o) result self.new }
        ensures ticks { self.new.ticks ≡ self.old.ticks }
        ensures within { (p : Program) → onward p result self.new ≤ 1 + marks_left self.old.stack.items }
    {
        match settle_object(&mut self.objects, object, v) {
            Err(stop) => Err(stop),
            Ok(()) => {
                self.entered.temporaries.push(object)?;
                self.doing = Doing::Gives(Value::At(Place {
                    object,
                    part: Part::Whole,
                }));
                Ok(Step::On)
            }
        }
    }

    /// A temporary that a local reference binds is made: it is a local of its own.
    pub fn hold(
        &mut self,
        number: u32,
        shape: Shape,
        start: &'a Boxed<Node>,
    ) -> Result<Step<'a>, Stop>
        ensures comes { (p : Program) (into : Option places.Place) → Comes p (λ T o. from_value T p self.old (valued T p self.old.fuel (cores.bind (cores.local_temporary number (shape_type T shape)) (core_of T p start.now)) into) o) result self.new }
        ensures ticks { self.new.ticks ≡ self.old.ticks }
        ensures within { (p : Program) → onward p result self.new ≤ 2 + weight start.now + marks_left self.old.stack.items }
    {
        match new_scalar(number, shape, &mut self.entered, &mut self.objects) {
            Err(stop) => Err(stop),
            Ok(object) => self.hold_in(object, start),
        }
    }

    /// The initialiser of such a temporary with this object.
    fn hold_in(&mut self, object: usize, start: &'a Boxed<Node>) -> Result<Step<'a>, Stop>
        ensures comes { (p : Program) → Comes p (λ T o. from_value T p self.old (λ s w. valued T p self.old.fuel (core_of T p start.now) (Some (root object)) s w ▷ go_held T p self.old.fuel object) o) result self.new }
        ensures ticks { self.new.ticks ≡ self.old.ticks }
        ensures within { (p : Program) → onward p result self.new ≤ 2 + weight start.now + marks_left self.old.stack.items }
    {
        self.stack
            .push(Mark::Value(self.fuel, ValueMark::Held(object)))?;
        self.doing = Doing::Evaluate(start.get(), Some(Goal::whole(object)));
        Ok(Step::On)
    }

    /// The value of such a temporary is there.
    pub fn held(&mut self, object: usize, v: Value<'a>) -> Result<Step<'a>, Stop>
        ensures comes { (p : Program) → Comes p (λ T o. from_value T p self.old (go_held T p self.old.fuel object (value_of v.entry)) o) result self.new }
        ensures ticks { self.new.ticks ≡ self.old.ticks }
        ensures within { (p : Program) → onward p result self.new ≤ 1 + marks_left self.old.stack.items }
    {
        match settle_object(&mut self.objects, object, v) {
            Err(stop) => Err(stop),
            Ok(()) => {
                self.entered.scope.push(object)?;
                self.doing = Doing::Gives(Value::At(Place {
                    object,
                    part: Part::Whole,
                }));
                Ok(Step::On)
            }
        }
    }
}
