ghost use Rattle.std.specs.Prelude.{◌≡◌, ◌≤◌, ◌+◌, false, Option, option_map};
ghost use Rattle.cf_base.specs.Integers.{bits_of};
ghost use Rattle.cf_core.specs.Calls.{argument};
ghost use Rattle.cf_core.specs.Calls as calls;
ghost use Rattle.cf_core.specs.FromTypes.{Tables};
ghost use Rattle.cf_run_tree.specs.declared.program.Program.{Program};
ghost use Rattle.cf_core_objects.specs.Store.{state_of, value_of};
ghost use Rattle.cf_core_run.specs.Going.{Comes, from_value};
ghost use Rattle.cf_core_run.specs.Going as going;
ghost use Rattle.cf_core_run.specs.Nearer.{marks_left, onward};

use crate::mark::{Doing, Mark, ValueMark};
use crate::state::{Machine, RunEnd, Step};
use cf_core_objects::{Integer, Stop, Value, end_objects, whole_held};

/// The byte that a number is modulo 256.
fn byte_of(value: i64) -> u8
    ensures { result ≡ bits_of 8 value }
{
    if value < 0 {
        255 - ((-(value + 1)) % 256) as u8
    } else {
        (value % 256) as u8
    }
}

impl<'a> Machine<'a> {
    /// A function of the library is called: behind it the storage of its parameters ends.
    pub fn call_library(&mut self, name: &'a [u8], made: Vec<usize>) -> Result<Step<'a>, Stop>
        ensures comes { (p : Program) → Comes p (λ T o. from_value T p self.old (calls.call_library name.now made.items) o) result self.new }
        ensures ticks { self.new.ticks ≡ self.old.ticks }
        ensures within { (p : Program) → onward p result self.new ≤ 3 + marks_left self.old.stack.items }
    {
        let first = self.first_argument(made.as_slice());
        let mut made = made;
        made.reverse();
        self.stack
            .push(Mark::Value(self.fuel, ValueMark::Library(made)))?;
        self.run_library(name, first)
    }

    /// A function of the library runs, where its first parameter holds this.
    fn run_library(&mut self, name: &'a [u8], first: Option<Value<'a>>) -> Result<Step<'a>, Stop>
        ensures comes { (p : Program) → Comes p (λ T o. from_value T p self.old (going.library_on T p name.now (option_map value_of first.entry)) o) result self.new }
        ensures ticks { self.new.ticks ≡ self.old.ticks }
        ensures within { (p : Program) → onward p result self.new ≤ 2 + marks_left self.old.stack.items }
    {
        if name == b"getchar".as_slice() {
            self.doing = Doing::Asks;
            Ok(Step::On)
        } else {
            self.run_on(name, first)
        }
    }

    /// `putchar` or `exit` runs.
    fn run_on(&mut self, name: &'a [u8], first: Option<Value<'a>>) -> Result<Step<'a>, Stop>
        ensures comes { (p : Program) → Comes p (λ T o. from_value T p self.old (going.library_by T p false name.now (option_map value_of first.entry)) o) result self.new }
        ensures ticks { self.new.ticks ≡ self.old.ticks }
        ensures within { (p : Program) → onward p result self.new ≤ 1 + marks_left self.old.stack.items }
    {
        match first {
            None => Err(Stop::Malformed),
            Some(v) => self.put_or_exit(name, v),
        }
    }

    /// A function of the library has run: the storage of its parameters ends, which stand here in reverse.
    pub fn end_library(&mut self, made: Vec<usize>, v: Value<'a>) -> Result<Step<'a>, Stop>
        ensures comes { (p : Program) → Comes p (λ T o. from_value T p self.old (going.go_library made.items (value_of v.entry)) o) result self.new }
        ensures ticks { self.new.ticks ≡ self.old.ticks }
        ensures within { (p : Program) → onward p result self.new ≤ 1 + marks_left self.old.stack.items }
    {
        match end_objects(&mut self.objects, made.as_slice()) {
            Err(stop) => Err(stop),
            Ok(()) => {
                self.doing = Doing::Gives(v);
                Ok(Step::On)
            }
        }
    }

    fn put_or_exit(&mut self, name: &'a [u8], v: Value<'a>) -> Result<Step<'a>, Stop>
        ensures comes { (p : Program) → Comes p (λ T o. from_value T p self.old (going.put_or_exit T p name.now (value_of v.entry)) o) result self.new }
        ensures ticks { self.new.ticks ≡ self.old.ticks }
        ensures within { (p : Program) → onward p result self.new ≤ 1 + marks_left self.old.stack.items }
    {
        if name == b"putchar".as_slice() {
            self.put(v)
        } else {
            self.exit(v)
        }
    }

    /// What the first parameter holds.
    fn first_argument(&self, made: &[usize]) -> Option<Value<'a>>
        ensures { (T : Tables) → option_map value_of result ≡ argument made.now (state_of T self.now.entered self.now.objects) }
    {
        match made.split_first() {
            None => None,
            Some((object, _)) => whole_held(&self.objects, *object),
        }
    }

    /// A byte is put, and given.
    fn put(&mut self, v: Value<'a>) -> Result<Step<'a>, Stop>
        ensures comes { (p : Program) → Comes p (λ T o. from_value T p self.old (calls.put (value_of v.entry)) o) result self.new }
        ensures ticks { self.new.ticks ≡ self.old.ticks }
        ensures within { (p : Program) → onward p result self.new ≤ 1 + marks_left self.old.stack.items }
    {
        match v {
            Value::Number(number) => {
                let byte = byte_of(number);
                self.doing = Doing::Gives(Value::Number(i64::from(byte)));
                Ok(Step::Puts(byte))
            }
            Value::Nothing => Err(Stop::Malformed),
            Value::Missing => Err(Stop::Malformed),
            Value::Built => Err(Stop::Malformed),
            Value::Null => Err(Stop::Malformed),
            Value::At(_) => Err(Stop::Malformed),
            Value::Code(_) => Err(Stop::Malformed),
        }
    }

    /// The run ends with a value as its status.
    fn exit(&mut self, v: Value<'a>) -> Result<Step<'a>, Stop>
        ensures comes { (p : Program) → Comes p (λ T o. from_value T p self.old (calls.leave_with (value_of v.entry)) o) result self.new }
        ensures ticks { self.new.ticks ≡ self.old.ticks }
        ensures within { (p : Program) → onward p result self.new ≤ 1 + marks_left self.old.stack.items }
    {
        match v {
            Value::Number(status) => Ok(Step::Ends(RunEnd::Ended(Integer::new(status)))),
            Value::Nothing => Err(Stop::Malformed),
            Value::Missing => Err(Stop::Malformed),
            Value::Built => Err(Stop::Malformed),
            Value::Null => Err(Stop::Malformed),
            Value::At(_) => Err(Stop::Malformed),
            Value::Code(_) => Err(Stop::Malformed),
        }
    }
}
