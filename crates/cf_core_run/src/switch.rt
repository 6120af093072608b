ghost use Rattle.std.specs.Prelude.{◌≡◌, ◌≤◌, ◌+◌};
ghost use Rattle.cf_base.specs.World.{World};
ghost use Rattle.cf_core.specs.FromTypes.{Tables};
ghost use Rattle.cf_core.specs.Statements as statements;
ghost use Rattle.cf_run_tree.specs.Tree.{core_of, object_type, program_of};
ghost use Rattle.cf_run_tree.specs.declared.program.Program.{Program};
ghost use Rattle.cf_core_objects.specs.Answer.{Told};
ghost use Rattle.cf_core_objects.specs.Store.{state_of, value_of};
ghost use Rattle.cf_core_run.specs.Going.{Comes, from_flow, cores, again, go_switch, selected, labelled};
ghost use Rattle.cf_core_run.specs.Labels.{is_case as its_case, is_default as its_default, row, passes_before, passes_blank, passes_local};
ghost use Rattle.cf_core_run.specs.Nearer.{statements_left, marks_left, onward};

use crate::mark::{Doing, Flow, FlowMark, Mark};
use crate::state::{Machine, Step};
use cf_base::Boxed;
use cf_core_objects::{Entered, Integer, Objects, Stop, Value, new_local};
use cf_run_tree::{Node, ObjectType};

/// Whether a statement is the label for this number.
fn is_case(number: Integer, s: &Node) -> bool
    ensures { (T : Tables) (p : Program) → result ≡ its_case number (core_of T p s.now) }
{
    match s {
        Node::Case(value) => *value == number.get(),
        _ => false,
    }
}

/// Whether a statement is the label `default`.
fn is_default(s: &Node) -> bool
    ensures { (T : Tables) (p : Program) → result ≡ its_default (core_of T p s.now) }
{
    match s {
        Node::Default => true,
        _ => false,
    }
}

/// Whether there is a label for this number (6.4.2).
fn has_case(number: Integer, all: &[Node]) -> bool
    ensures { (T : Tables) (p : Program) → result ≡ statements.has_case number (row T p all.now) }
{
    for s in all {
        if is_case(number, s) {
            return true;
        }
    }
    false
}

/// Whether there is a label `default`.
fn has_default(all: &[Node]) -> bool
    ensures { (T : Tables) (p : Program) → result ≡ statements.has_default (row T p all.now) }
{
    for s in all {
        if is_default(s) {
            return true;
        }
    }
    false
}

/// A label passes a statement: a local that is declared without an initialiser is there (6.7).
#[cycle(pass_over)]
fn pass_over(s: &Node, entered: &mut Entered<'_>, objects: &mut Objects<'_>) -> Result<(), Stop>
    ensures { (T : Tables) (p : Program) (w : World) → Told (λ u. tt) result (state_of T entered.new objects.new) w (statements.passes (core_of T p s.now) (state_of T entered.old objects.old) w) }
{
    match s {
        Node::Declare(number, ty, start) => pass_declared(*number, ty, start, entered, objects),
        Node::Sequence(all) => pass_all(all.as_slice(), entered, objects),
        _ => Ok(()),
    }
}

/// Statements are passed in order.
#[cycle(pass_over)]
fn pass_all(all: &[Node], entered: &mut Entered<'_>, objects: &mut Objects<'_>) -> Result<(), Stop>
    ensures { (T : Tables) (p : Program) (w : World) → Told (λ u. tt) result (state_of T entered.new objects.new) w (statements.passes_all (row T p all.now) (state_of T entered.old objects.old) w) }
{
    for s in all {
        match pass_over(s, entered, objects) {
            Err(stop) => return Err(stop),
            Ok(()) => {}
        }
    }
    Ok(())
}

/// A declaration is passed.
fn pass_declared(
    number: u32,
    ty: &ObjectType,
    start: &Boxed<Node>,
    entered: &mut Entered<'_>,
    objects: &mut Objects<'_>,
) -> Result<(), Stop>
    ensures { (T : Tables) (p : Program) (w : World) → Told (λ u. tt) result (state_of T entered.new objects.new) w (passes_local number (object_type T ty.now) (core_of T p start.now) (state_of T entered.old objects.old) w) }
{
    match start.get() {
        Node::Blank => pass_blank(number, ty, entered, objects),
        _ => Err(Stop::Malformed),
    }
}

/// A local without an initialiser is there.
fn pass_blank(
    number: u32,
    ty: &ObjectType,
    entered: &mut Entered<'_>,
    objects: &mut Objects<'_>,
) -> Result<(), Stop>
    ensures { (T : Tables) (w : World) → Told (λ u. tt) result (state_of T entered.new objects.new) w (passes_blank number (object_type T ty.now) (state_of T entered.old objects.old) w) }
{
    match new_local(number, ty, entered, objects) {
        Err(stop) => Err(stop),
        Ok(object) => {
            entered.scope.push(object)?;
            Ok(())
        }
    }
}

impl<'a> Machine<'a> {
    /// The value of a switch is there.
    pub fn switch(&mut self, all: &'a [Node], v: Value<'a>) -> Result<Step<'a>, Stop>
        ensures comes { (p : Program) → Comes p (λ T o. from_flow T p self.old (go_switch T p self.old.fuel (cores T p all.now) (value_of v.entry)) o) result self.new }
        ensures ticks { self.new.ticks ≡ self.old.ticks }
        ensures within { (p : Program) → onward p result self.new ≤ 3 + statements_left all.now + marks_left self.old.stack.items }
    {
        match v {
            Value::Number(number) => self.select(Integer::new(number), all),
            Value::Nothing => Err(Stop::Malformed),
            Value::Missing => Err(Stop::Malformed),
            Value::Built => Err(Stop::Malformed),
            Value::Null => Err(Stop::Malformed),
            Value::At(_) => Err(Stop::Malformed),
            Value::Code(_) => Err(Stop::Malformed),
        }
    }

    /// The statements behind the label for this number come, in a scope.
    fn select(&mut self, number: Integer, all: &'a [Node]) -> Result<Step<'a>, Stop>
        ensures comes { (p : Program) → Comes p (λ T o. from_flow T p self.old (selected T p self.old.fuel (cores T p all.now) number) o) result self.new }
        ensures ticks { self.new.ticks ≡ self.old.ticks }
        ensures within { (p : Program) → onward p result self.new ≤ 3 + statements_left all.now + marks_left self.old.stack.items }
    {
        self.stack.push(Mark::Flow(self.fuel, FlowMark::Leaving))?;
        self.open_scope()?;
        self.seek(number, all)
    }

    /// The label for this number is sought, or `default`.
    fn seek(&mut self, number: Integer, all: &'a [Node]) -> Result<Step<'a>, Stop>
        ensures comes { (p : Program) → Comes p (λ T o. from_flow T p self.old (labelled T p self.old.fuel number (cores T p all.now)) o) result self.new }
        ensures ticks { self.new.ticks ≡ self.old.ticks }
        ensures within { (p : Program) → onward p result self.new ≤ 1 + statements_left all.now + marks_left self.old.stack.items }
    {
        if has_case(number, all) {
            self.doing = Doing::Case(number, all);
            return Ok(Step::On);
        }
        if has_default(all) {
            self.doing = Doing::Default(all);
            return Ok(Step::On);
        }
        self.ends(Flow::Falls)
    }

    /// The next statement is the label for this number, or is passed.
    pub fn seek_case(&mut self, number: Integer, all: &'a [Node]) -> Result<Step<'a>, Stop>
        ensures comes { (p : Program) → Comes p (λ T o. from_flow T p self.old (statements.from_case (again T p self.old.fuel) (program_of T p) number (cores T p all.now)) o) result self.new }
        ensures ticks { self.new.ticks ≡ self.old.ticks }
        ensures within { (p : Program) → onward p result self.new ≤ statements_left all.now + marks_left self.old.stack.items }
    {
        match all.split_first() {
            None => self.ends(Flow::Falls),
            Some((first, rest)) => {
                if is_case(number, first) {
                    self.doing = Doing::Follow(rest);
                    return Ok(Step::On);
                }
                self.pass_to_case(number, first, rest)
            }
        }
    }

    /// A statement before the label for this number is passed.
    fn pass_to_case(
        &mut self,
        number: Integer,
        first: &'a Node,
        rest: &'a [Node],
    ) -> Result<Step<'a>, Stop>
        ensures comes { (p : Program) → Comes p (λ T o. from_flow T p self.old (passes_before (core_of T p first.now) (statements.from_case (again T p self.old.fuel) (program_of T p) number (cores T p rest.now))) o) result self.new }
        ensures ticks { self.new.ticks ≡ self.old.ticks }
        ensures within { (p : Program) → onward p result self.new ≤ 1 + statements_left rest.now + marks_left self.old.stack.items }
    {
        match pass_over(first, &mut self.entered, &mut self.objects) {
            Err(stop) => Err(stop),
            Ok(()) => {
                self.doing = Doing::Case(number, rest);
                Ok(Step::On)
            }
        }
    }

    /// The next statement is the label `default`, or is passed.
    pub fn seek_default(&mut self, all: &'a [Node]) -> Result<Step<'a>, Stop>
        ensures comes { (p : Program) → Comes p (λ T o. from_flow T p self.old (statements.from_default (again T p self.old.fuel) (program_of T p) (cores T p all.now)) o) result self.new }
        ensures ticks { self.new.ticks ≡ self.old.ticks }
        ensures within { (p : Program) → onward p result self.new ≤ statements_left all.now + marks_left self.old.stack.items }
    {
        match all.split_first() {
            None => self.ends(Flow::Falls),
            Some((first, rest)) => {
                if is_default(first) {
                    self.doing = Doing::Follow(rest);
                    return Ok(Step::On);
                }
                self.pass_to_default(first, rest)
            }
        }
    }

    /// A statement before `default` is passed.
    fn pass_to_default(&mut self, first: &'a Node, rest: &'a [Node]) -> Result<Step<'a>, Stop>
        ensures comes { (p : Program) → Comes p (λ T o. from_flow T p self.old (passes_before (core_of T p first.now) (statements.from_default (again T p self.old.fuel) (program_of T p) (cores T p rest.now))) o) result self.new }
        ensures ticks { self.new.ticks ≡ self.old.ticks }
        ensures within { (p : Program) → onward p result self.new ≤ 1 + statements_left rest.now + marks_left self.old.stack.items }
    {
        match pass_over(first, &mut self.entered, &mut self.objects) {
            Err(stop) => Err(stop),
            Ok(()) => {
                self.doing = Doing::Default(rest);
                Ok(Step::On)
            }
        }
    }
}
