ghost use Rattle.std.specs.Prelude.{◌≡◌, [], ◌≤◌, ◌+◌};
ghost use Rattle.cf_base.specs.World.{World};
ghost use Rattle.cf_core.specs.Calls.{turn, Falls};
ghost use Rattle.cf_core.specs.Calls as calls;
ghost use Rattle.cf_core.specs.FromTypes.{Tables};
ghost use Rattle.cf_core.specs.Run.{State, gives, when};
ghost use Rattle.cf_core.specs.Statements.{falling, turning, leaving, tests_first};
ghost use Rattle.cf_run_tree.specs.Tree.{core_of, shape_type};
ghost use Rattle.cf_core_objects.specs.Answer.{Told};
ghost use Rattle.cf_run_tree.specs.declared.program.Program.{Program};
ghost use Rattle.cf_core_run.specs.Going.{Comes, from_value, from_flow, performed, performed_all, performed_other, cores, turned, body_turn, again, loop_of, go_test, go_if, go_first, go_last, go_flow, go_back, go_declared, go_scope, go_parameters, flow_of};
ghost use Rattle.cf_core_objects.specs.Store.{value_of};
ghost use Rattle.cf_core_run.specs.Nearer.{weight, maybe_weight, statements_left, turn_left, behind_test, behind_flow, marks_left, onward};

use crate::mark::{Doing, Flow, FlowMark, Mark, Repeated, TestMark};
use crate::state::{Machine, RunEnd, Step};
use cf_base::Boxed;
use cf_core_objects::{Entered, Integer, Stop, Value, end_objects, end_scope};
use cf_core_store::truth;
use cf_run_tree::{Form, Node, Shape};

/// A mark goes that waits for something else.
fn lost(_mark: Mark<'_>) {}

impl<'a> Machine<'a> {
    /// A value is there: the newest mark says what follows.
    pub fn take(&mut self, v: Value<'a>) -> Result<Step<'a>, Stop>
        ensures comes { (p : Program) → Comes p (λ T o. from_value T p self.old (gives (value_of v.entry)) o) result self.new }
        ensures ticks { self.new.ticks ≡ self.old.ticks }
        ensures within { (p : Program) → onward p result self.new ≤ marks_left self.old.stack.items }
    {
        match self.stack.pop() {
            None => end_with(v),
            Some(Mark::Value(fuel, mark)) => {
                self.fuel = fuel;
                self.take_value(mark, v)
            }
            Some(Mark::Test(fuel, mark)) => {
                self.fuel = fuel;
                self.take_test(mark, v)
            }
            Some(Mark::Flow(fuel, mark)) => {
                lost(Mark::Flow(fuel, mark));
                Err(Stop::Malformed)
            }
            Some(Mark::Back(fuel, shape, entered)) => {
                lost(Mark::Back(fuel, shape, entered));
                Err(Stop::Malformed)
            }
        }
    }

    /// The value of a full expression is there.
    fn take_test(&mut self, mark: TestMark<'a>, v: Value<'a>) -> Result<Step<'a>, Stop>
        ensures comes { (p : Program) → Comes p (λ T o. from_flow T p self.old (go_test T p self.old.fuel mark.entry (value_of v.entry)) o) result self.new }
        ensures ticks { self.new.ticks ≡ self.old.ticks }
        ensures within { (p : Program) → onward p result self.new ≤ behind_test mark.entry + marks_left self.old.stack.items }
    {
        match mark {
            TestMark::Statement => self.ends(Flow::Falls),
            TestMark::If(yes, no) => self.choose(yes, no, v),
            TestMark::First(repeated) => self.tested_first(repeated, v),
            TestMark::Last(repeated) => self.tested_last(repeated, v),
            TestMark::Stepped(repeated) => self.repeat_next(repeated),
            TestMark::Declared(object) => self.declared(object),
            TestMark::Result => self.ends(Flow::Returns(v)),
            TestMark::Switch(all) => self.switch(all, v),
        }
    }

    /// The condition of an `if` is there.
    fn choose(
        &mut self,
        yes: &'a Boxed<Node>,
        no: &'a Option<Boxed<Node>>,
        v: Value<'a>,
    ) -> Result<Step<'a>, Stop>
        ensures comes { (p : Program) → Comes p (λ T o. from_flow T p self.old (go_if T p self.old.fuel yes.now no.now (value_of v.entry)) o) result self.new }
        ensures ticks { self.new.ticks ≡ self.old.ticks }
        ensures within { (p : Program) → onward p result self.new ≤ 1 + weight yes.now + maybe_weight no.now + marks_left self.old.stack.items }
    {
        match truth(v) {
            Err(stop) => Err(stop),
            Ok(holds) => self.choose_on(holds, yes, no),
        }
    }

    fn choose_on(
        &mut self,
        holds: bool,
        yes: &'a Boxed<Node>,
        no: &'a Option<Boxed<Node>>,
    ) -> Result<Step<'a>, Stop>
        ensures comes { (p : Program) → Comes p (λ T o. from_flow T p self.old (when holds (performed T p self.old.fuel (core_of T p yes.now)) (performed_other T p self.old.fuel no.now)) o) result self.new }
        ensures ticks { self.new.ticks ≡ self.old.ticks }
        ensures within { (p : Program) → onward p result self.new ≤ 1 + weight yes.now + maybe_weight no.now + marks_left self.old.stack.items }
    {
        if holds {
            self.perform_next(yes)
        } else {
            self.perform_other(no)
        }
    }

    /// The condition before the body of a loop is there.
    fn tested_first(&mut self, repeated: Repeated<'a>, v: Value<'a>) -> Result<Step<'a>, Stop>
        ensures comes { (p : Program) → Comes p (λ T o. from_flow T p self.old (go_first T p self.old.fuel repeated.entry (value_of v.entry)) o) result self.new }
        ensures ticks { self.new.ticks ≡ self.old.ticks }
        ensures within { (p : Program) → onward p result self.new ≤ 2 + turn_left repeated.entry + weight repeated.entry.body.now + marks_left self.old.stack.items }
    {
        match truth(v) {
            Err(stop) => Err(stop),
            Ok(holds) => self.first_on(holds, repeated),
        }
    }

    fn first_on(&mut self, holds: bool, repeated: Repeated<'a>) -> Result<Step<'a>, Stop>
        ensures comes { (p : Program) → Comes p (λ T o. from_flow T p self.old (when holds (body_turn T p self.old.fuel repeated.entry) (gives Falls)) o) result self.new }
        ensures ticks { self.new.ticks ≡ self.old.ticks }
        ensures within { (p : Program) → onward p result self.new ≤ 2 + turn_left repeated.entry + weight repeated.entry.body.now + marks_left self.old.stack.items }
    {
        if holds {
            self.open_body(repeated)
        } else {
            self.ends(Flow::Falls)
        }
    }

    /// The condition behind the body of a loop is there.
    fn tested_last(&mut self, repeated: Repeated<'a>, v: Value<'a>) -> Result<Step<'a>, Stop>
        ensures comes { (p : Program) → Comes p (λ T o. from_flow T p self.old (go_last T p self.old.fuel repeated.entry (value_of v.entry)) o) result self.new }
        ensures ticks { self.new.ticks ≡ self.old.ticks }
        ensures within { (p : Program) → onward p result self.new ≤ 1 + marks_left self.old.stack.items }
    {
        match truth(v) {
            Err(stop) => Err(stop),
            Ok(holds) => self.last_on(holds, repeated),
        }
    }

    fn last_on(&mut self, holds: bool, repeated: Repeated<'a>) -> Result<Step<'a>, Stop>
        ensures comes { (p : Program) → Comes p (λ T o. from_flow T p self.old (when holds (again T p self.old.fuel (turn (loop_of T p repeated.entry))) (gives Falls)) o) result self.new }
        ensures ticks { self.new.ticks ≡ self.old.ticks }
        ensures within { (p : Program) → onward p result self.new ≤ 1 + marks_left self.old.stack.items }
    {
        if holds {
            self.repeat_next(repeated)
        } else {
            self.ends(Flow::Falls)
        }
    }

    /// A statement is next.
    fn perform_next(&mut self, s: &'a Boxed<Node>) -> Result<Step<'a>, Stop>
        ensures comes { (p : Program) → Comes p (λ T o. from_flow T p self.old (performed T p self.old.fuel (core_of T p s.now)) o) result self.new }
        ensures ticks { self.new.ticks ≡ self.old.ticks }
        ensures within { (p : Program) → onward p result self.new ≤ 1 + weight s.now + marks_left self.old.stack.items }
    {
        self.doing = Doing::Perform(s.get());
        Ok(Step::On)
    }

    /// The statement behind `else`, if there is one.
    fn perform_other(&mut self, no: &'a Option<Boxed<Node>>) -> Result<Step<'a>, Stop>
        ensures comes { (p : Program) → Comes p (λ T o. from_flow T p self.old (performed_other T p self.old.fuel no.now) o) result self.new }
        ensures ticks { self.new.ticks ≡ self.old.ticks }
        ensures within { (p : Program) → onward p result self.new ≤ 1 + maybe_weight no.now + marks_left self.old.stack.items }
    {
        match no {
            None => self.ends(Flow::Falls),
            Some(s) => self.perform_next(s),
        }
    }

    /// The next turn of a loop is next.
    fn repeat_next(&mut self, repeated: Repeated<'a>) -> Result<Step<'a>, Stop>
        ensures comes { (p : Program) → Comes p (λ T o. from_flow T p self.old (again T p self.old.fuel (turn (loop_of T p repeated.entry))) o) result self.new }
        ensures ticks { self.new.ticks ≡ self.old.ticks }
        ensures within { (p : Program) → onward p result self.new ≤ 1 + marks_left self.old.stack.items }
    {
        self.doing = Doing::Repeat(repeated);
        Ok(Step::On)
    }

    /// A local has its value.
    fn declared(&mut self, object: usize) -> Result<Step<'a>, Stop>
        ensures comes { (p : Program) → Comes p (λ T o. from_flow T p self.old (go_declared T p self.old.fuel object) o) result self.new }
        ensures ticks { self.new.ticks ≡ self.old.ticks }
        ensures within { (p : Program) → onward p result self.new ≤ 1 + marks_left self.old.stack.items }
    {
        self.entered.scope.push(object)?;
        self.ends(Flow::Falls)
    }

    /// A statement has ended: the newest mark says what follows.
    pub fn leave(&mut self, flow: Flow<'a>) -> Result<Step<'a>, Stop>
        ensures comes { (p : Program) → Comes p (λ T o. from_flow T p self.old (gives (flow_of flow.entry)) o) result self.new }
        ensures ticks { self.new.ticks ≡ self.old.ticks }
        ensures within { (p : Program) → onward p result self.new ≤ marks_left self.old.stack.items }
    {
        match self.stack.pop() {
            None => Err(Stop::Malformed),
            Some(Mark::Flow(fuel, mark)) => {
                self.fuel = fuel;
                self.leave_part(mark, flow)
            }
            Some(Mark::Back(fuel, shape, entered)) => {
                self.fuel = fuel;
                self.go_back(shape, entered, flow)
            }
            Some(Mark::Value(fuel, mark)) => {
                lost(Mark::Value(fuel, mark));
                Err(Stop::Malformed)
            }
            Some(Mark::Test(fuel, mark)) => {
                lost(Mark::Test(fuel, mark));
                Err(Stop::Malformed)
            }
        }
    }

    /// A part of a statement has ended.
    fn leave_part(&mut self, mark: FlowMark<'a>, flow: Flow<'a>) -> Result<Step<'a>, Stop>
        ensures comes { (p : Program) → Comes p (λ T o. from_flow T p self.old (go_flow T p self.old.fuel mark.entry (flow_of flow.entry)) o) result self.new }
        ensures ticks { self.new.ticks ≡ self.old.ticks }
        ensures within { (p : Program) → onward p result self.new ≤ behind_flow mark.entry + marks_left self.old.stack.items }
    {
        match mark {
            FlowMark::Rest(rest) => self.go_on(rest, flow),
            FlowMark::Scope(around) => self.close_scope(around, flow),
            FlowMark::Turn(repeated) => self.turned(repeated, flow),
            FlowMark::Leaving => self.left(flow),
            FlowMark::Parameters(made) => self.end_parameters(made, flow),
        }
    }

    /// The statements behind one that has ended.
    fn go_on(&mut self, rest: &'a [Node], flow: Flow<'a>) -> Result<Step<'a>, Stop>
        ensures comes { (p : Program) → Comes p (λ T o. from_flow T p self.old (falling (performed_all T p self.old.fuel (cores T p rest.now)) (flow_of flow.entry)) o) result self.new }
        ensures ticks { self.new.ticks ≡ self.old.ticks }
        ensures within { (p : Program) → onward p result self.new ≤ 1 + statements_left rest.now + marks_left self.old.stack.items }
    {
        match flow {
            Flow::Falls => {
                self.doing = Doing::Follow(rest);
                Ok(Step::On)
            }
            Flow::Breaks => self.ends(flow),
            Flow::Continues => self.ends(flow),
            Flow::Returns(_) => self.ends(flow),
        }
    }

    /// The body of a loop has ended.
    fn turned(&mut self, repeated: Repeated<'a>, flow: Flow<'a>) -> Result<Step<'a>, Stop>
        ensures comes { (p : Program) → Comes p (λ T o. from_flow T p self.old (turning (turned T p self.old.fuel repeated.entry (tests_first repeated.entry.form)) (flow_of flow.entry)) o) result self.new }
        ensures ticks { self.new.ticks ≡ self.old.ticks }
        ensures within { (p : Program) → onward p result self.new ≤ turn_left repeated.entry + marks_left self.old.stack.items }
    {
        match flow {
            Flow::Falls => self.turn_on(repeated),
            Flow::Continues => self.turn_on(repeated),
            Flow::Breaks => self.ends(Flow::Falls),
            Flow::Returns(_) => self.ends(flow),
        }
    }

    /// A switch has ended.
    fn left(&mut self, flow: Flow<'a>) -> Result<Step<'a>, Stop>
        ensures comes { (p : Program) → Comes p (λ T o. from_flow T p self.old (leaving (flow_of flow.entry)) o) result self.new }
        ensures ticks { self.new.ticks ≡ self.old.ticks }
        ensures within { (p : Program) → onward p result self.new ≤ 1 + marks_left self.old.stack.items }
    {
        match flow {
            Flow::Breaks => self.ends(Flow::Falls),
            Flow::Falls => self.ends(flow),
            Flow::Continues => self.ends(flow),
            Flow::Returns(_) => self.ends(flow),
        }
    }

    /// The objects of a scope end.
    fn close_scope(&mut self, around: Vec<usize>, flow: Flow<'a>) -> Result<Step<'a>, Stop>
        ensures comes { (p : Program) → Comes p (λ T o. from_flow T p self.old (go_scope T p self.old.fuel around.items (flow_of flow.entry)) o) result self.new }
        ensures ticks { self.new.ticks ≡ self.old.ticks }
        ensures within { (p : Program) → onward p result self.new ≤ 1 + marks_left self.old.stack.items }
    {
        match end_scope(&self.entered, &mut self.objects) {
            Err(stop) => Err(stop),
            Ok(()) => {
                self.entered.scope = around;
                self.ends(flow)
            }
        }
    }

    /// The parameters of a function end.
    fn end_parameters(&mut self, made: Vec<usize>, flow: Flow<'a>) -> Result<Step<'a>, Stop>
        ensures comes { (p : Program) → Comes p (λ T o. from_flow T p self.old (go_parameters T p self.old.fuel made.items (flow_of flow.entry)) o) result self.new }
        ensures ticks { self.new.ticks ≡ self.old.ticks }
        ensures within { (p : Program) → onward p result self.new ≤ 1 + marks_left self.old.stack.items }
    {
        match end_objects(&mut self.objects, made.as_slice()) {
            Err(stop) => Err(stop),
            Ok(()) => self.ends(flow),
        }
    }

    /// A function has ended, and the one that called it goes on.
    fn go_back(
        &mut self,
        shape: Shape,
        entered: Entered<'a>,
        flow: Flow<'a>,
    ) -> Result<Step<'a>, Stop>
        ensures comes { (p : Program) → Comes p (λ T o. from_value T p self.old (go_back T p self.old.fuel shape entered.entry (flow_of flow.entry)) o) result self.new }
        ensures ticks { self.new.ticks ≡ self.old.ticks }
        ensures within { (p : Program) → onward p result self.new ≤ 1 + marks_left self.old.stack.items }
    {
        self.entered = entered;
        match returned(shape, flow) {
            Err(stop) => Err(stop),
            Ok(v) => {
                self.doing = Doing::Gives(v);
                Ok(Step::On)
            }
        }
    }
}

/// The value with which a function of this result type ended.
fn returned<'a>(shape: Shape, flow: Flow<'a>) -> Result<Value<'a>, Stop>
    ensures { (T : Tables) (s : State) (w : World) → Told value_of result s w (calls.returned (shape_type T shape) (flow_of flow.entry) s w) }
{
    match flow {
        Flow::Falls => Ok(without_value(shape)),
        Flow::Returns(Value::Nothing) => Ok(without_value(shape)),
        Flow::Returns(v) => Ok(v),
        Flow::Breaks => Err(Stop::Malformed),
        Flow::Continues => Err(Stop::Malformed),
    }
}

/// What a function of this type gives where it ended without a value.
fn without_value<'a>(shape: Shape) -> Value<'a>
    ensures { (T : Tables) → value_of result ≡ calls.without_value (shape_type T shape) }
{
    match shape.form {
        Form::Void => Value::Nothing,
        _ => Value::Missing,
    }
}

/// The first function has ended with a value, whose number is the status.
fn end_with<'a>(v: Value<'a>) -> Result<Step<'a>, Stop>
    ensures comes { (p : Program) (m : Machine) → m.stack.items ≡ [] → Comes p (λ T o. from_value T p m (gives (value_of v.entry)) o) result m }
    ensures stops { (p : Program) (m : Machine) → onward p result m ≡ 0 }
{
    match v {
        Value::Number(status) => Ok(Step::Ends(RunEnd::Ended(Integer::new(status)))),
        Value::Missing => Ok(Step::Ends(RunEnd::Ended(Integer::new(0)))),
        _ => Err(Stop::Malformed),
    }
}
