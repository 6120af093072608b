ghost use Rattle.std.specs.Prelude.{◌≡◌, Ok, Some};
ghost use Rattle.cc_whole_mean.specs.Flow as mean;
ghost use Rattle.cc_whole_mean.specs.Flow.{State};
ghost use Rattle.cc_whole_step.specs.declared.mark.Flow.TheVariants as left;
ghost use Rattle.cc_whole_step.specs.declared.mark.Mark.TheVariants as mark;
ghost use Rattle.cc_whole_step.specs.Running.{answered, flow_back, flow_of, following, leaving, popped, storing};
ghost use Rattle.cc_whole_step.specs.Comes.{Comes};

use crate::mark::{Doing, Flow, Level, Mark};
use crate::moment::{Moment, Step};
use crate::stop::Stop;
use cc_whole::CBody;
use cc_whole_eval::store_at;
use cc_whole_mean::Target;
use cc_whole_memory::{Act, Value};
use cc_whole_start::end_blocks;
use cf_base::Kind;

/// How a function comes back whose body has ended.
fn back(flow: Flow) -> Flow
    ensures { (s : State) → flow_of result s ≡ flow_back (mean.called_back (flow_of flow s)) }
{
    match flow {
        Flow::Falls | Flow::Breaks | Flow::Continues => Flow::Returns(None),
        Flow::Returns(v) => Flow::Returns(v),
        Flow::Exits(status) => Flow::Exits(status),
    }
}

/// How a `switch` ends.
fn switched(flow: Flow) -> Flow
    ensures { (s : State) → flow_of result s ≡ mean.switching (flow_of flow s) }
{
    match flow {
        Flow::Breaks => Flow::Falls,
        _ => flow,
    }
}

impl<'a> Moment<'a> {
    /// What was taken from the input comes back: a byte, or -1 at its end.
    pub fn answer(&mut self, byte: Option<u8>)
        ensures { self.new ≡ answered byte self.old }
    {
        let number = match byte {
            None => -1,
            Some(byte) => i64::from(byte),
        };
        self.doing = Doing::Leave(Flow::Returns(Some(Value::Number(Kind::Int, number))));
    }

    /// A statement has ended: the mark that stands on top says what follows.
    pub fn leave_off(&mut self, flow: Flow) -> Result<Step<'a>, Stop>
        ensures { Comes (leaving flow) result self.old self.new }
    {
        match self.frames.marks.pop() {
            None => self.end(flow),
            Some(mark) => self.leave(mark, flow),
        }
    }

    /// What follows a mark that was taken off the stack.
    fn leave(&mut self, mark: Mark<'a>, flow: Flow) -> Result<Step<'a>, Stop>
        ensures { Comes (popped mark.entry flow) result self.old self.new }
    {
        match mark {
            Mark::Rest(level, rest) => Ok(self.follow(level, Doing::Run(rest), flow)),
            Mark::Items(level, rest) => Ok(self.follow(level, Doing::Items(rest), flow)),
            Mark::Turn(level, body) => self.turn(level, body, flow),
            Mark::Switch => Ok(self.ends(switched(flow))),
            Mark::Locals(locals, first) => {
                end_blocks(&mut self.store, first as usize, locals.len());
                Ok(self.ends(flow))
            }
            Mark::Parameters(_, first, count) => {
                end_blocks(&mut self.store, first as usize, count);
                Ok(self.ends(back(flow)))
            }
            Mark::Back(at) => self.go_back(at, flow),
        }
    }

    /// What comes next, where the statement falls to it.
    fn follow(&mut self, level: Level, next: Doing<'a>, flow: Flow) -> Step<'a>
        ensures { Comes (following level next.entry flow) (Ok result) self.old self.new }
    {
        match flow {
            Flow::Falls => {
                self.level = level;
                self.doing = next;
                Step::On
            }
            _ => self.ends(flow),
        }
    }

    /// The next turn of a loop begins.
    fn turn(&mut self, level: Level, body: &'a CBody, flow: Flow) -> Result<Step<'a>, Stop>
        ensures { Comes (popped (mark.Turn level body.entry) flow) result self.old self.new }
    {
        match flow {
            Flow::Falls => self.turn_again(level, body),
            Flow::Continues => self.turn_again(level, body),
            Flow::Breaks => Ok(self.ends(Flow::Falls)),
            _ => Ok(self.ends(flow)),
        }
    }

    /// A loop begins again at its level.
    fn turn_again(&mut self, level: Level, body: &'a CBody) -> Result<Step<'a>, Stop>
        ensures { Comes (popped (mark.Turn level body.entry) left.Falls) result self.old self.new }
    {
        self.level = level;
        self.repeat(body)
    }

    /// A function has come back.
    fn go_back(&mut self, at: Option<Target>, flow: Flow) -> Result<Step<'a>, Stop>
        ensures { Comes (popped (mark.Back at) flow) result self.old self.new }
    {
        match flow {
            Flow::Exits(_) => Ok(self.ends(flow)),
            Flow::Returns(v) => self.store_result(at, v),
            _ => self.store_result(at, None),
        }
    }

    /// A call's result is stored, or dropped.
    fn store_result(&mut self, at: Option<Target>, v: Option<Value>) -> Result<Step<'a>, Stop>
        ensures { Comes (storing at v) result self.old self.new }
    {
        match at {
            None => Ok(self.ends(Flow::Falls)),
            Some(at) => self.store_value(at, v),
        }
    }

    /// The result that is stored has to be there.
    fn store_value(&mut self, at: Target, v: Option<Value>) -> Result<Step<'a>, Stop>
        ensures { Comes (storing (Some at) v) result self.old self.new }
    {
        match v {
            None => Err(Stop::Act(Act::A11)),
            Some(v) => {
                store_at(at, v, &mut self.store)?;
                Ok(self.ends(Flow::Falls))
            }
        }
    }
}
