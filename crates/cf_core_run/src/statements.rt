ghost use Rattle.std.specs.Prelude.{◌≡◌, None, Some, true, false, ◌≤◌, ◌+◌};
ghost use Rattle.cf_core.specs.Calls.{root, turn};
ghost use Rattle.cf_core.specs.Core as nodes;
ghost use Rattle.cf_core.specs.Run.{gives};
ghost use Rattle.cf_core.specs.Statements.{tests_first};
ghost use Rattle.cf_run_tree.specs.Tree.{core_of, object_type};
ghost use Rattle.cf_run_tree.specs.declared.program.Program.{Program};
ghost use Rattle.cf_core_objects.specs.Then.{◌▷◌};
ghost use Rattle.cf_core_run.specs.Going.{Comes, from_flow, valued, full, full_by, initialised, performed, performed_all, scoped, cores, maybe_core, again, loop_of, first_turn, body_turn, turned, go_test, go_declared, flow_of};
ghost use Rattle.cf_core_run.specs.Nearer.{weight, weights, maybe_weight, statements_left, turn_left, behind_test, marks_left, onward, one_more, Nearer};

use crate::mark::{Doing, Flow, FlowMark, Mark, Repeated, TestMark, ValueMark};
use crate::state::{Machine, RunEnd, Step};
use cf_base::Boxed;
use cf_core::LoopForm;
use cf_core_objects::{Stop, Value, new_local};
use cf_core_place::Goal;
use cf_core_store::Applied;
use cf_run_tree::{Node, ObjectType};

impl<'a> Machine<'a> {
    /// A statement begins.
    pub fn perform(&mut self, s: &'a Node) -> Result<Step<'a>, Stop>
        ensures comes { (p : Program) → Comes p (λ T o. from_flow T p self.old (performed T p self.old.fuel (core_of T p s.now)) o) result self.new }
        ensures nearer { (p : Program) → Nearer p self.old.ticks (1 + weight s.now + marks_left self.old.stack.items) result self.new }
    {
        match s {
            Node::Full(e) => self.test(TestMark::Statement, e),
            Node::Block(all) => self.block(all.as_slice()),
            Node::Sequence(all) => {
                self.doing = Doing::Follow(all.as_slice());
                Ok(Step::On)
            }
            Node::Declare(number, ty, start) => self.declare(*number, ty, start),
            Node::If(condition, yes, no) => {
                self.test_by(Applied::Truth, TestMark::If(yes, no), condition)
            }
            Node::Loop(form, condition, step, body) => self.start_loop(Repeated {
                form: *form,
                condition,
                step,
                body,
            }),
            Node::Switch(e, all) => {
                self.test_by(Applied::Used, TestMark::Switch(all.as_slice()), e)
            }
            Node::Case(_) => self.ends(Flow::Falls),
            Node::Default => self.ends(Flow::Falls),
            Node::Break => self.ends(Flow::Breaks),
            Node::Continue => self.ends(Flow::Continues),
            Node::Return(value) => self.give(value),
            _ => Err(Stop::Malformed),
        }
    }

    /// A function returns, with a value or without.
    fn give(&mut self, value: &'a Option<Boxed<Node>>) -> Result<Step<'a>, Stop>
        ensures comes { (p : Program) → Comes p (λ T o. from_flow T p self.old (performed T p self.old.fuel (nodes.give (maybe_core T p value.now))) o) result self.new }
        ensures ticks { self.new.ticks ≡ self.old.ticks }
        ensures within { (p : Program) → onward p result self.new ≤ 4 + maybe_weight value.now + marks_left self.old.stack.items }
    {
        match value {
            None => self.ends(Flow::Returns(Value::Nothing)),
            Some(e) => self.test_by(Applied::Used, TestMark::Result, e),
        }
    }

    /// A statement has ended.
    pub fn ends(&mut self, flow: Flow<'a>) -> Result<Step<'a>, Stop>
        ensures comes { (p : Program) → Comes p (λ T o. from_flow T p self.old (gives (flow_of flow.entry)) o) result self.new }
        ensures ticks { self.new.ticks ≡ self.old.ticks }
        ensures within { (p : Program) → onward p result self.new ≤ 1 + marks_left self.old.stack.items }
    {
        self.doing = Doing::Ends(flow);
        Ok(Step::On)
    }

    /// A full expression is evaluated first, and the mark says what follows.
    pub fn test(&mut self, mark: TestMark<'a>, e: &'a Boxed<Node>) -> Result<Step<'a>, Stop>
        ensures comes { (p : Program) → Comes p (λ T o. from_flow T p self.old (λ s w. full T p self.old.fuel (valued T p self.old.fuel (core_of T p e.now) None) s w ▷ go_test T p self.old.fuel mark.entry) o) result self.new }
        ensures ticks { self.new.ticks ≡ self.old.ticks }
        ensures within { (p : Program) → onward p result self.new ≤ 2 + behind_test mark.entry + weight e.now + marks_left self.old.stack.items }
    {
        self.open_whole(mark)?;
        self.doing = Doing::Evaluate(e.get(), None);
        Ok(Step::On)
    }

    /// A full expression is evaluated first, with what is made of its value in it, and the mark says what follows.
    pub fn test_by(
        &mut self,
        op: Applied<'a>,
        mark: TestMark<'a>,
        e: &'a Boxed<Node>,
    ) -> Result<Step<'a>, Stop>
        ensures comes { (p : Program) → Comes p (λ T o. from_flow T p self.old (λ s w. full_by T p self.old.fuel (core_of T p e.now) op.entry s w ▷ go_test T p self.old.fuel mark.entry) o) result self.new }
        ensures ticks { self.new.ticks ≡ self.old.ticks }
        ensures within { (p : Program) → onward p result self.new ≤ 3 + behind_test mark.entry + weight e.now + marks_left self.old.stack.items }
    {
        self.open_whole(mark)?;
        self.down(ValueMark::Apply(op), e)
    }

    /// A block.
    fn block(&mut self, all: &'a [Node]) -> Result<Step<'a>, Stop>
        ensures comes { (p : Program) → Comes p (λ T o. from_flow T p self.old (scoped T p self.old.fuel (performed_all T p self.old.fuel (cores T p all.now))) o) result self.new }
        ensures ticks { self.new.ticks ≡ self.old.ticks }
        ensures within { (p : Program) → onward p result self.new ≤ 3 + weights all.now + marks_left self.old.stack.items }
    {
        self.open_scope()?;
        self.doing = Doing::Follow(all);
        Ok(Step::On)
    }

    /// Statements in order.
    pub fn follow(&mut self, all: &'a [Node]) -> Result<Step<'a>, Stop>
        ensures comes { (p : Program) → Comes p (λ T o. from_flow T p self.old (performed_all T p self.old.fuel (cores T p all.now)) o) result self.new }
        ensures ticks { self.new.ticks ≡ self.old.ticks }
        ensures within { (p : Program) → onward p result self.new ≤ statements_left all.now + marks_left self.old.stack.items }
    {
        match all.split_first() {
            None => self.ends(Flow::Falls),
            Some((first, rest)) => {
                self.stack
                    .push(Mark::Flow(self.fuel, FlowMark::Rest(rest)))?;
                self.doing = Doing::Perform(first);
                Ok(Step::On)
            }
        }
    }

    /// A local is declared.
    fn declare(
        &mut self,
        number: u32,
        ty: &'a ObjectType,
        start: &'a Boxed<Node>,
    ) -> Result<Step<'a>, Stop>
        ensures comes { (p : Program) → Comes p (λ T o. from_flow T p self.old (performed T p self.old.fuel (nodes.declare number (object_type T ty.now) (core_of T p start.now))) o) result self.new }
        ensures ticks { self.new.ticks ≡ self.old.ticks }
        ensures within { (p : Program) → onward p result self.new ≤ 3 + weight start.now + marks_left self.old.stack.items }
    {
        match new_local(number, ty, &mut self.entered, &mut self.objects) {
            Err(stop) => Err(stop),
            Ok(object) => self.initialise(object, start),
        }
    }

    /// The initialiser of a local with this object.
    fn initialise(&mut self, object: usize, start: &'a Boxed<Node>) -> Result<Step<'a>, Stop>
        ensures comes { (p : Program) → Comes p (λ T o. from_flow T p self.old (initialised T p self.old.fuel (core_of T p start.now) (root object) (go_declared T p self.old.fuel object)) o) result self.new }
        ensures ticks { self.new.ticks ≡ self.old.ticks }
        ensures within { (p : Program) → onward p result self.new ≤ 3 + weight start.now + marks_left self.old.stack.items }
    {
        let goal = Goal::whole(object);
        self.open_start(goal, TestMark::Declared(object))?;
        self.doing = Doing::Evaluate(start.get(), Some(goal));
        Ok(Step::On)
    }

    /// A turn of a loop begins: a tick is spent.
    fn start_loop(&mut self, repeated: Repeated<'a>) -> Result<Step<'a>, Stop>
        ensures comes { (p : Program) → Comes p (λ T o. from_flow T p self.old (performed T p self.old.fuel (loop_of T p repeated.entry)) o) result self.new }
        ensures spends { one_more result self.new ≤ self.old.ticks }
    {
        if self.ticks == 0 {
            return Ok(Step::Ends(RunEnd::Ticks));
        }
        self.ticks -= 1;
        match repeated.form {
            LoopForm::Do => self.open_body(repeated),
            LoopForm::While => self.test_first(repeated),
            LoopForm::For => self.test_first(repeated),
        }
    }

    /// The condition before the body.
    fn test_first(&mut self, repeated: Repeated<'a>) -> Result<Step<'a>, Stop>
        ensures comes { (p : Program) → Comes p (λ T o. from_flow T p self.old (first_turn T p self.old.fuel repeated.entry) o) result self.new }
        ensures ticks { self.new.ticks ≡ self.old.ticks }
    {
        match repeated.condition {
            None => self.open_body(repeated),
            Some(e) => self.test_by(Applied::Truth, TestMark::First(repeated), e),
        }
    }

    /// The body of a loop begins.
    pub fn open_body(&mut self, repeated: Repeated<'a>) -> Result<Step<'a>, Stop>
        ensures comes { (p : Program) → Comes p (λ T o. from_flow T p self.old (body_turn T p self.old.fuel repeated.entry) o) result self.new }
        ensures ticks { self.new.ticks ≡ self.old.ticks }
        ensures within { (p : Program) → onward p result self.new ≤ 2 + turn_left repeated.entry + weight repeated.entry.body.now + marks_left self.old.stack.items }
    {
        self.stack
            .push(Mark::Flow(self.fuel, FlowMark::Turn(repeated)))?;
        self.open_scope()?;
        self.doing = Doing::Perform(repeated.body.get());
        Ok(Step::On)
    }

    /// The next turn of a loop.
    pub fn repeat(&mut self, repeated: Repeated<'a>) -> Result<Step<'a>, Stop>
        ensures comes { (p : Program) → Comes p (λ T o. from_flow T p self.old (again T p self.old.fuel (turn (loop_of T p repeated.entry))) o) result self.new }
        ensures spends { one_more result self.new ≤ self.old.ticks }
    {
        if self.fuel == 0 {
            return Ok(Step::Ends(RunEnd::Ticks));
        }
        self.fuel -= 1;
        self.start_loop(repeated)
    }

    /// The body of a loop was done: the step or the condition comes, and then the next turn.
    pub fn turn_on(&mut self, repeated: Repeated<'a>) -> Result<Step<'a>, Stop>
        ensures comes { (p : Program) → Comes p (λ T o. from_flow T p self.old (turned T p self.old.fuel repeated.entry (tests_first repeated.entry.form)) o) result self.new }
        ensures ticks { self.new.ticks ≡ self.old.ticks }
        ensures within { (p : Program) → onward p result self.new ≤ turn_left repeated.entry + marks_left self.old.stack.items }
    {
        match repeated.form {
            LoopForm::Do => self.test_last(repeated),
            LoopForm::While => self.do_step(repeated),
            LoopForm::For => self.do_step(repeated),
        }
    }

    /// The condition behind the body.
    fn test_last(&mut self, repeated: Repeated<'a>) -> Result<Step<'a>, Stop>
        ensures comes { (p : Program) → Comes p (λ T o. from_flow T p self.old (turned T p self.old.fuel repeated.entry false) o) result self.new }
        ensures ticks { self.new.ticks ≡ self.old.ticks }
        ensures within { (p : Program) → onward p result self.new ≤ turn_left repeated.entry + marks_left self.old.stack.items }
    {
        match repeated.condition {
            None => {
                self.doing = Doing::Repeat(repeated);
                Ok(Step::On)
            }
            Some(e) => self.test_by(Applied::Truth, TestMark::Last(repeated), e),
        }
    }

    /// The step of a `for`.
    fn do_step(&mut self, repeated: Repeated<'a>) -> Result<Step<'a>, Stop>
        ensures comes { (p : Program) → Comes p (λ T o. from_flow T p self.old (turned T p self.old.fuel repeated.entry true) o) result self.new }
        ensures ticks { self.new.ticks ≡ self.old.ticks }
        ensures within { (p : Program) → onward p result self.new ≤ turn_left repeated.entry + marks_left self.old.stack.items }
    {
        match repeated.step {
            None => {
                self.doing = Doing::Repeat(repeated);
                Ok(Step::On)
            }
            Some(e) => self.test(TestMark::Stepped(repeated), e),
        }
    }
}
