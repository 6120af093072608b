ghost use Rattle.cc_whole.specs.Plain.{statement_of};
ghost use Rattle.cc_whole_step.specs.Running.{beginning, listing, switching_on, statements_of, switch_of, total};
ghost use Rattle.cc_whole_step.specs.Comes.{Comes};

use crate::mark::{Doing, Flow, Mark};
use crate::moment::{Moment, Step};
use crate::stop::Stop;
use cc_whole::{CStatement, CSwitchItem};

impl<'a> Moment<'a> {
    /// One step of the run.
    pub fn step(&mut self) -> Result<Step<'a>, Stop>
        ensures { Comes total result self.old self.new }
    {
        match self.doing {
            Doing::Run(all) => self.run_on(all),
            Doing::Items(items) => self.pass_on(items),
            Doing::Leave(flow) => self.leave_off(flow),
        }
    }

    /// The next of these statements begins.
    fn run_on(&mut self, all: &'a [CStatement]) -> Result<Step<'a>, Stop>
        ensures { Comes (listing (statements_of all.now)) result self.old self.new }
    {
        match all.split_first() {
            None => Ok(self.ends(Flow::Falls)),
            Some((first, rest)) => {
                self.frames.marks.push(Mark::Rest(self.level, rest))?;
                self.begin(first)
            }
        }
    }

    /// The next of these items of a `switch` begins. Labels are passed.
    fn pass_on(&mut self, items: &'a [CSwitchItem]) -> Result<Step<'a>, Stop>
        ensures { Comes (switching_on (switch_of items.now)) result self.old self.new }
    {
        match items.split_first() {
            None => Ok(self.ends(Flow::Falls)),
            Some((first, rest)) => match first {
                CSwitchItem::Case(_) => Ok(self.passes(rest)),
                CSwitchItem::Default => Ok(self.passes(rest)),
                CSwitchItem::Statement(st) => {
                    self.frames.marks.push(Mark::Items(self.level, rest))?;
                    self.begin(st)
                }
            },
        }
    }

    /// A statement begins.
    fn begin(&mut self, st: &'a CStatement) -> Result<Step<'a>, Stop>
        ensures { Comes (beginning (statement_of st.now)) result self.old self.new }
    {
        match st {
            CStatement::Assign(place, e) => self.assign(place, e.get()),
            CStatement::Call(place, f, arguments) => self.call(place, f, arguments.as_slice()),
            CStatement::Block(body) => self.enter(body.get()),
            CStatement::Break => Ok(self.ends(Flow::Breaks)),
            CStatement::Continue => Ok(self.ends(Flow::Continues)),
            CStatement::If(e, body, other) => self.choose(e.get(), body.get(), other),
            CStatement::Loop(body) => self.repeat(body.get()),
            CStatement::Switch(e, items) => self.select(e.get(), items.as_slice()),
            CStatement::Return(e) => self.give(e),
        }
    }
}
