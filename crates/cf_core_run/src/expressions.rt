ghost use Rattle.std.specs.Prelude.{◌≡◌, None, option_map, true, false, Option, ◌≤◌, ◌+◌};
ghost use Rattle.cf_core.specs.Core as cores;
ghost use Rattle.cf_core.specs.Places as places;
ghost use Rattle.cf_core.specs.Run.{gives, when};
ghost use Rattle.cf_run_tree.specs.Tree.{core_of};
ghost use Rattle.cf_core_objects.specs.Named.{named};
ghost use Rattle.cf_core_place.specs.Routes.{goal_place};
ghost use Rattle.cf_core_objects.specs.Then.{◌▷◌};
ghost use Rattle.cf_core_run.specs.Going.{Comes, from_value, valued, go_value, go_and, go_or, go_choice, go_right, go_argument, last_of, truth_by};
ghost use Rattle.cf_core_store.specs.Values.{of_value};
ghost use Rattle.cf_core.specs.Pointers.{truth_value};
ghost use Rattle.cf_core_objects.specs.Store.{value_of};
ghost use Rattle.cf_core_run.specs.Nearer.{weight, weights, arguments_left, behind_value, marks_left, onward};

use crate::mark::{Calling, Doing, Mark, ValueMark};
use crate::state::{Machine, Step};
use crate::temporaries::settle_object;
use cf_base::Boxed;
use cf_core_objects::{Stop, Value, literal_object, local_value};
use cf_core_place::{Goal, Part, Place};
use cf_core_store::{Applied, apply, ready, truth, truth_number};
use cf_run_tree::{Binary, Node, Program};

impl<'a> Machine<'a> {
    /// An expression, or an initialiser of an object, begins.
    pub fn begin(
        &mut self,
        e: &'a Node,
        into: Option<Goal>,
        program: &'a Program,
    ) -> Result<Step<'a>, Stop>
        ensures comes { Comes program.now (λ T o. from_value T program.now self.old (valued T program.now self.old.fuel (core_of T program.now e.now) (option_map goal_place into)) o) result self.new }
        ensures ticks { self.new.ticks ≡ self.old.ticks }
        ensures within { (p : Program) → onward p result self.new ≤ weight e.now + marks_left self.old.stack.items }
    {
        match e {
            Node::Number(value) => {
                self.doing = Doing::Gives(Value::Number(*value));
                Ok(Step::On)
            }
            Node::Text(number, bytes) => self.text(*number, bytes.as_slice()),
            Node::Function(name, signature) => {
                self.function(name.as_slice(), signature, program)
            }
            Node::Local(number) => self.name_local(*number),
            Node::Static(name, _) => self.name_static(name.as_slice(), program),
            Node::Apply(op, a) => self.down(ValueMark::Apply(Applied::One(op)), a),
            Node::Join(op, a, b) => self.down(ValueMark::Right(*op, b), a),
            Node::And(a, b) => self.down(ValueMark::And(b), a),
            Node::Or(a, b) => self.down(ValueMark::Or(b), a),
            Node::Conditional(condition, a, b) => self.down(ValueMark::Choice(a, b), condition),
            Node::Comma(all) => self.comma(all.as_slice()),
            Node::Call(name, signature, all) => self.call(
                name.as_slice(),
                signature,
                all.as_slice(),
                program,
            ),
            Node::PointerCall(callee, signature, all) => {
                self.down(ValueMark::Callee(signature, all.as_slice()), callee)
            }
            Node::Bind(a) => {
                self.doing = Doing::Evaluate(a.get(), None);
                Ok(Step::On)
            }
            Node::Temporary(shape, start) => self.temporary(*shape, start),
            Node::Hold(number, shape, start) => self.hold(*number, *shape, start),
            Node::List(all, rest) => self.begin_list(all.as_slice(), rest, into),
            Node::Characters(bytes) => self.characters(bytes.as_slice(), into),
            Node::Zeros => self.zeros(into),
            Node::Blank => {
                self.doing = Doing::Gives(Value::Built);
                Ok(Step::On)
            }
            _ => Err(Stop::Malformed),
        }
    }

    /// A part is evaluated first, and the mark says what follows.
    pub fn down(&mut self, mark: ValueMark<'a>, a: &'a Boxed<Node>) -> Result<Step<'a>, Stop>
        ensures comes { (p : Program) → Comes p (λ T o. from_value T p self.old (λ s w. valued T p self.old.fuel (core_of T p a.now) None s w ▷ go_value T p self.old.fuel mark.entry) o) result self.new }
        ensures ticks { self.new.ticks ≡ self.old.ticks }
        ensures within { (p : Program) → onward p result self.new ≤ 1 + weight a.now + behind_value mark.entry + marks_left self.old.stack.items }
    {
        self.stack.push(Mark::Value(self.fuel, mark))?;
        self.doing = Doing::Evaluate(a.get(), None);
        Ok(Step::On)
    }

    /// A part is evaluated, and nothing is left of what it is a part of.
    fn turn_to(&mut self, a: &'a Boxed<Node>) -> Result<Step<'a>, Stop>
        ensures comes { (p : Program) → Comes p (λ T o. from_value T p self.old (valued T p self.old.fuel (core_of T p a.now) None) o) result self.new }
        ensures ticks { self.new.ticks ≡ self.old.ticks }
        ensures within { (p : Program) → onward p result self.new ≤ 1 + weight a.now + marks_left self.old.stack.items }
    {
        self.doing = Doing::Evaluate(a.get(), None);
        Ok(Step::On)
    }

    /// A parameter or local is named.
    fn name_local(&mut self, number: u32) -> Result<Step<'a>, Stop>
        ensures comes { (p : Program) → Comes p (λ T o. from_value T p self.old (named number) o) result self.new }
        ensures ticks { self.new.ticks ≡ self.old.ticks }
        ensures within { (p : Program) → onward p result self.new ≤ 1 + marks_left self.old.stack.items }
    {
        match local_value(number, &self.entered, &self.objects) {
            Err(stop) => Err(stop),
            Ok(v) => {
                self.doing = Doing::Gives(v);
                Ok(Step::On)
            }
        }
    }

    /// A string literal is named: it is one object for the whole run.
    fn text(&mut self, number: u32, bytes: &'a [u8]) -> Result<Step<'a>, Stop>
        ensures comes { (p : Program) (into : Option places.Place) → Comes p (λ T o. from_value T p self.old (valued T p self.old.fuel (cores.text number bytes.now) into) o) result self.new }
        ensures ticks { self.new.ticks ≡ self.old.ticks }
        ensures within { (p : Program) → onward p result self.new ≤ 1 + marks_left self.old.stack.items }
    {
        match literal_object(number, bytes, &self.entered, &mut self.objects) {
            Err(stop) => Err(stop),
            Ok(object) => {
                self.doing = Doing::Gives(Value::At(Place {
                    object,
                    part: Part::Whole,
                }));
                Ok(Step::On)
            }
        }
    }

    /// The expressions of a comma, in order.
    fn comma(&mut self, all: &'a [Node]) -> Result<Step<'a>, Stop>
        ensures comes { (p : Program) → Comes p (λ T o. from_value T p self.old (last_of T p self.old.fuel all.now) o) result self.new }
        ensures ticks { self.new.ticks ≡ self.old.ticks }
        ensures within { (p : Program) → onward p result self.new ≤ weights all.now + marks_left self.old.stack.items }
    {
        match all.split_first() {
            None => Err(Stop::Malformed),
            Some((first, rest)) => match rest.split_first() {
                None => self.evaluate(first),
                Some(_) => self.comma_rest(first, rest),
            },
        }
    }

    /// An expression is next, and nothing is left of what it is a part of.
    fn evaluate(&mut self, e: &'a Node) -> Result<Step<'a>, Stop>
        ensures comes { (p : Program) → Comes p (λ T o. from_value T p self.old (valued T p self.old.fuel (core_of T p e.now) None) o) result self.new }
        ensures ticks { self.new.ticks ≡ self.old.ticks }
        ensures within { (p : Program) → onward p result self.new ≤ 1 + weight e.now + marks_left self.old.stack.items }
    {
        self.doing = Doing::Evaluate(e, None);
        Ok(Step::On)
    }

    /// An expression comes, and then the others of a comma.
    fn comma_rest(&mut self, first: &'a Node, rest: &'a [Node]) -> Result<Step<'a>, Stop>
        ensures comes { (p : Program) → Comes p (λ T o. from_value T p self.old (λ s w. valued T p self.old.fuel (core_of T p first.now) None s w ▷ (λ v. last_of T p self.old.fuel rest.now)) o) result self.new }
        ensures ticks { self.new.ticks ≡ self.old.ticks }
        ensures within { (p : Program) → onward p result self.new ≤ 1 + weight first.now + weights rest.now + marks_left self.old.stack.items }
    {
        self.stack
            .push(Mark::Value(self.fuel, ValueMark::Comma(rest)))?;
        self.doing = Doing::Evaluate(first, None);
        Ok(Step::On)
    }

    /// The value of a part is there.
    pub fn take_value(&mut self, mark: ValueMark<'a>, v: Value<'a>) -> Result<Step<'a>, Stop>
        ensures comes { (p : Program) → Comes p (λ T o. from_value T p self.old (go_value T p self.old.fuel mark.entry (value_of v.entry)) o) result self.new }
        ensures ticks { self.new.ticks ≡ self.old.ticks }
        ensures within { (p : Program) → onward p result self.new ≤ behind_value mark.entry + marks_left self.old.stack.items }
    {
        match mark {
            ValueMark::Apply(op) => self.applied(op, v),
            ValueMark::Right(op, b) => self.right(op, b, v),
            ValueMark::And(b) => self.and(b, v),
            ValueMark::Or(b) => self.or(b, v),
            ValueMark::Choice(a, b) => self.choice(a, b, v),
            ValueMark::Comma(rest) => self.comma(rest),
            ValueMark::Callee(signature, all) => self.callee(signature, all, v),
            ValueMark::Argument(calling, object) => self.argument(calling, object, v),
            ValueMark::Temporary(object) => self.made(object, v),
            ValueMark::Held(object) => self.held(object, v),
            ValueMark::Library(made) => self.end_library(made, v),
            ValueMark::Element(listing) => self.element(listing),
            ValueMark::Constant(rest) => self.constant(rest),
            ValueMark::Whole(around) => self.close_whole(around, v),
            ValueMark::Stored(goal, around) => self.close_stored(goal, around, v),
        }
    }

    /// The left operand of `&&` is there.
    fn and(&mut self, b: &'a Boxed<Node>, v: Value<'a>) -> Result<Step<'a>, Stop>
        ensures comes { (p : Program) → Comes p (λ T o. from_value T p self.old (go_and T p self.old.fuel b.now (value_of v.entry)) o) result self.new }
        ensures ticks { self.new.ticks ≡ self.old.ticks }
        ensures within { (p : Program) → onward p result self.new ≤ 2 + weight b.now + marks_left self.old.stack.items }
    {
        match truth(v) {
            Err(stop) => Err(stop),
            Ok(holds) => self.and_on(holds, b),
        }
    }

    fn and_on(&mut self, holds: bool, b: &'a Boxed<Node>) -> Result<Step<'a>, Stop>
        ensures comes { (p : Program) → Comes p (λ T o. from_value T p self.old (when holds (truth_by T p self.old.fuel b.now) (gives (truth_value false))) o) result self.new }
        ensures ticks { self.new.ticks ≡ self.old.ticks }
        ensures within { (p : Program) → onward p result self.new ≤ 2 + weight b.now + marks_left self.old.stack.items }
    {
        if holds {
            self.down(ValueMark::Apply(Applied::Truth), b)
        } else {
            self.gives_truth(false)
        }
    }

    /// The left operand of `||` is there.
    fn or(&mut self, b: &'a Boxed<Node>, v: Value<'a>) -> Result<Step<'a>, Stop>
        ensures comes { (p : Program) → Comes p (λ T o. from_value T p self.old (go_or T p self.old.fuel b.now (value_of v.entry)) o) result self.new }
        ensures ticks { self.new.ticks ≡ self.old.ticks }
        ensures within { (p : Program) → onward p result self.new ≤ 2 + weight b.now + marks_left self.old.stack.items }
    {
        match truth(v) {
            Err(stop) => Err(stop),
            Ok(holds) => self.or_on(holds, b),
        }
    }

    fn or_on(&mut self, holds: bool, b: &'a Boxed<Node>) -> Result<Step<'a>, Stop>
        ensures comes { (p : Program) → Comes p (λ T o. from_value T p self.old (when holds (gives (truth_value true)) (truth_by T p self.old.fuel b.now)) o) result self.new }
        ensures ticks { self.new.ticks ≡ self.old.ticks }
        ensures within { (p : Program) → onward p result self.new ≤ 2 + weight b.now + marks_left self.old.stack.items }
    {
        if holds {
            self.gives_truth(true)
        } else {
            self.down(ValueMark::Apply(Applied::Truth), b)
        }
    }

    /// The condition of `?:` is there.
    fn choice(
        &mut self,
        a: &'a Boxed<Node>,
        b: &'a Boxed<Node>,
        v: Value<'a>,
    ) -> Result<Step<'a>, Stop>
        ensures comes { (p : Program) → Comes p (λ T o. from_value T p self.old (go_choice T p self.old.fuel a.now b.now (value_of v.entry)) o) result self.new }
        ensures ticks { self.new.ticks ≡ self.old.ticks }
        ensures within { (p : Program) → onward p result self.new ≤ 1 + weight a.now + weight b.now + marks_left self.old.stack.items }
    {
        match truth(v) {
            Err(stop) => Err(stop),
            Ok(holds) => self.choice_on(holds, a, b),
        }
    }

    fn choice_on(
        &mut self,
        holds: bool,
        a: &'a Boxed<Node>,
        b: &'a Boxed<Node>,
    ) -> Result<Step<'a>, Stop>
        ensures comes { (p : Program) → Comes p (λ T o. from_value T p self.old (when holds (valued T p self.old.fuel (core_of T p a.now) None) (valued T p self.old.fuel (core_of T p b.now) None)) o) result self.new }
        ensures ticks { self.new.ticks ≡ self.old.ticks }
        ensures within { (p : Program) → onward p result self.new ≤ 1 + weight a.now + weight b.now + marks_left self.old.stack.items }
    {
        if holds {
            self.turn_to(a)
        } else {
            self.turn_to(b)
        }
    }

    /// 1 or 0 is given.
    fn gives_truth(&mut self, holds: bool) -> Result<Step<'a>, Stop>
        ensures comes { (p : Program) → Comes p (λ T o. from_value T p self.old (gives (truth_value holds)) o) result self.new }
        ensures ticks { self.new.ticks ≡ self.old.ticks }
        ensures within { (p : Program) → onward p result self.new ≤ 1 + marks_left self.old.stack.items }
    {
        self.doing = Doing::Gives(truth_number(holds));
        Ok(Step::On)
    }

    /// Something is made of a value.
    fn applied(&mut self, op: Applied<'a>, v: Value<'a>) -> Result<Step<'a>, Stop>
        ensures comes { (p : Program) → Comes p (λ T o. from_value T p self.old (of_value T op.entry (value_of v.entry)) o) result self.new }
        ensures ticks { self.new.ticks ≡ self.old.ticks }
        ensures within { (p : Program) → onward p result self.new ≤ 1 + marks_left self.old.stack.items }
    {
        match apply(&op, v, &mut self.objects) {
            Err(stop) => Err(stop),
            Ok(x) => {
                self.doing = Doing::Gives(x);
                Ok(Step::On)
            }
        }
    }

    /// The left operand is there.
    fn right(&mut self, op: Binary, b: &'a Boxed<Node>, v: Value<'a>) -> Result<Step<'a>, Stop>
        ensures comes { (p : Program) → Comes p (λ T o. from_value T p self.old (go_right T p self.old.fuel op b.now (value_of v.entry)) o) result self.new }
        ensures ticks { self.new.ticks ≡ self.old.ticks }
        ensures within { (p : Program) → onward p result self.new ≤ 2 + weight b.now + marks_left self.old.stack.items }
    {
        match ready(op, v) {
            Err(stop) => Err(stop),
            Ok(x) => self.down(ValueMark::Apply(Applied::Two(op, x)), b),
        }
    }

    /// An argument of a call is there.
    fn argument(
        &mut self,
        calling: Calling<'a>,
        object: usize,
        v: Value<'a>,
    ) -> Result<Step<'a>, Stop>
        ensures comes { (p : Program) → Comes p (λ T o. from_value T p self.old (go_argument T p self.old.fuel calling.entry object (value_of v.entry)) o) result self.new }
        ensures ticks { self.new.ticks ≡ self.old.ticks }
        ensures within { (p : Program) → onward p result self.new ≤ 1 + arguments_left calling.entry + marks_left self.old.stack.items }
    {
        match settle_object(&mut self.objects, object, v) {
            Err(stop) => Err(stop),
            Ok(()) => {
                let mut calling = calling;
                calling.made.push(object)?;
                self.doing = Doing::Passes(calling);
                Ok(Step::On)
            }
        }
    }
}
