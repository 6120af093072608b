ghost use Rattle.std.specs.Prelude.{◌≡◌, Ok, None, IfOk, option_map};
ghost use Rattle.cc_whole.specs.Plain.{assign, block, body_of, choose, else_of, expression_of, give, loop, place_of};
ghost use Rattle.cc_whole_memory.specs.Store.{answer, memory_of};
ghost use Rattle.cc_whole_mean.specs.Mean as mean;
ghost use Rattle.cc_whole_step.specs.Frames.{scope_of};
ghost use Rattle.cc_whole_step.specs.Running.{beginning, leaving, opening, switch_of, switching_on};
ghost use Rattle.cc_whole_step.specs.Comes.{Comes, StepsOn};

use crate::frames::Frames;
use crate::mark::{Doing, Flow, Mark};
use crate::moment::{End, Moment, Step};
use crate::stop::{Stop, short};
use cc_whole::{CBody, CExpression, CPlace, CSwitchItem};
use cc_whole_eval::{assign, integer, value};
use cc_whole_memory::{Act, Store, Value};
use cc_whole_start::born_locals;
use cf_base::{Boxed, Memory};

/// The value that a statement returns, if it returns one.
fn given(
    e: &Option<Boxed<CExpression>>,
    frames: &Frames<'_>,
    store: &Store,
) -> Result<Option<Value>, Act>
    ensures { answer result ≡ mean.given (option_map expression_of e.now) (scope_of frames.now) (memory_of store.now) }
{
    match e {
        None => Ok(None),
        Some(e) => {
            let v = value(e.get(), frames, store)?;
            Ok(Some(v))
        }
    }
}

impl<'a> Moment<'a> {
    /// A statement has ended.
    pub fn ends(&mut self, flow: Flow) -> Step<'a>
        ensures { Comes (leaving flow) (Ok result) self.old self.new }
    {
        self.doing = Doing::Leave(flow);
        Step::On
    }

    /// A label of a `switch` is passed.
    pub fn passes(&mut self, rest: &'a [CSwitchItem]) -> Step<'a>
        ensures { Comes (switching_on (switch_of rest.now)) (Ok result) self.old self.new }
    {
        self.doing = Doing::Items(rest);
        Step::On
    }

    /// A body's locals are born, and its statements are next.
    pub fn open(&mut self, body: &'a CBody) -> Result<(), Memory>
        ensures { IfOk result (λ _. StepsOn (opening (body_of body.now)) None self.old self.new) }
    {
        let first = born_locals(&mut self.store, body.locals.as_slice())?;
        let first = short(first)?;
        self.frames
            .marks
            .push(Mark::Locals(body.locals.as_slice(), first))?;
        self.doing = Doing::Run(body.statements.as_slice());
        Ok(())
    }

    /// A body in a body.
    pub fn enter(&mut self, body: &'a CBody) -> Result<Step<'a>, Stop>
        ensures { Comes (beginning (block (body_of body.now))) result self.old self.new }
    {
        self.open(body)?;
        Ok(Step::On)
    }

    /// `place = expression;`
    pub fn assign(&mut self, place: &CPlace, e: &CExpression) -> Result<Step<'a>, Stop>
        ensures { Comes (beginning (assign (place_of place.now) (expression_of e.now))) result self.old self.new }
    {
        assign(place, e, &self.frames, &mut self.store)?;
        Ok(self.ends(Flow::Falls))
    }

    /// `if (expression) body [else body]`
    pub fn choose(
        &mut self,
        e: &CExpression,
        body: &'a CBody,
        other: &'a Option<Boxed<CBody>>,
    ) -> Result<Step<'a>, Stop>
        ensures { Comes (beginning (choose (expression_of e.now) (body_of body.now) (else_of (option_map body_of other.now)))) result self.old self.new }
    {
        let number = integer(e, &self.frames, &self.store)?;
        if number != 0 {
            self.open(body)?;
            return Ok(Step::On);
        }
        match other {
            None => Ok(self.ends(Flow::Falls)),
            Some(other) => {
                self.open(other.get())?;
                Ok(Step::On)
            }
        }
    }

    /// `for (;;) body`: a turn begins.
    pub fn repeat(&mut self, body: &'a CBody) -> Result<Step<'a>, Stop>
        ensures { Comes (beginning (loop (body_of body.now))) result self.old self.new }
    {
        if self.ticks == 0 {
            return Ok(Step::Ends(End::Ticks));
        }
        self.ticks -= 1;
        self.frames.marks.push(Mark::Turn(self.level, body))?;
        self.open(body)?;
        Ok(Step::On)
    }

    /// `return [expression];`
    pub fn give(&mut self, e: &Option<Boxed<CExpression>>) -> Result<Step<'a>, Stop>
        ensures { Comes (beginning (give (option_map expression_of e.now))) result self.old self.new }
    {
        let v = given(e, &self.frames, &self.store)?;
        Ok(self.ends(Flow::Returns(v)))
    }
}
