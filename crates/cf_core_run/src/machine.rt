ghost use Rattle.std.specs.Prelude.{◌≡◌};
ghost use Rattle.cf_core_run.specs.Going.{Comes, total, end_of as its_run_end};
ghost use Rattle.cf_core_run.specs.declared.mark.Doing.TheVariants as doing;
ghost use Rattle.cf_core_run.specs.Whole.{Starts, Reads, Turns, Runs, end_of as its_end};
ghost use Rattle.cf_core_run.specs.Nearer.{Nearer, Turned, Spent, steps_left};

use crate::mark::Doing;
use crate::state::{End, Event, Limits, Machine, Ran, RunEnd, Seen, Step};
use cf_core_objects::{Entered, Objects, Stop, Value};
use cf_run_tree::Program;
use std::alloc::Global;
use std::mem::replace;

impl<'a> Machine<'a> {
    /// One step of the run. While a byte is awaited nothing is done.
    pub fn step(&mut self, program: &'a Program) -> Result<Step<'a>, Stop>
        ensures comes { Comes program.now (λ T o. total T program.now self.old o) result self.new }
        ensures nearer { (self.old.doing ≡ doing.Asks → ⊥) → Nearer program.now self.old.ticks (steps_left program.now self.old) result self.new }
    {
        let doing = replace(&mut self.doing, Doing::Asks);
        match doing {
            Doing::Starts => self.start_program(program),
            Doing::Sets(rest) => self.set_next(rest, program),
            Doing::Evaluate(e, into) => self.begin(e, into, program),
            Doing::Gives(v) => self.take(v),
            Doing::Lists(listing) => self.next_element(listing),
            Doing::Passes(calling) => self.pass(calling, program),
            Doing::Enter(f, made) => self.enter(f, made),
            Doing::Body(f, made) => self.begin_body(f, made),
            Doing::Perform(s) => self.perform(s),
            Doing::Follow(all) => self.follow(all),
            Doing::Case(number, all) => self.seek_case(number, all),
            Doing::Default(all) => self.seek_default(all),
            Doing::Repeat(repeated) => self.repeat(repeated),
            Doing::Ends(flow) => self.leave(flow),
            Doing::Asks => Ok(Step::On),
        }
    }
}

/// The state in which a run begins.
pub fn start<'a>(alloc: Global, limits: Limits) -> Machine<'a>
    ensures { (p : Program) → Starts p limits result }
{
    Machine {
        alloc,
        stack: Vec::new(alloc),
        doing: Doing::Starts,
        entered: Entered {
            name: b"".as_slice(),
            depth: limits.depth,
            count: 0,
            locals: Vec::new(alloc),
            scope: Vec::new(alloc),
            temporaries: Vec::new(alloc),
        },
        objects: Objects {
            alloc,
            cells: Vec::new(alloc),
            literals: Vec::new(alloc),
            reached: Vec::new(alloc),
        },
        fuel: limits.ticks,
        ticks: limits.ticks,
    }
}

/// The next byte of the input, and its value.
fn next_byte<'a>(seen: &mut Seen<'a>) -> Result<Value<'a>, Stop>
    ensures { Reads seen.old seen.new result }
{
    match seen.rest.split_first() {
        None => {
            seen.trace.push(Event::In(None))?;
            Ok(Value::Number(-1))
        }
        Some((byte, rest)) => {
            let byte = *byte;
            seen.rest = rest;
            seen.trace.push(Event::In(Some(byte)))?;
            Ok(Value::Number(i64::from(byte)))
        }
    }
}

/// A byte that is awaited is read.
fn ask<'a>(machine: &mut Machine<'a>, seen: &mut Seen<'a>) -> Result<Option<End>, Stop>
    requires { machine.old.doing ≡ doing.Asks }
    ensures turns { (p : Program) → Turns p machine.old machine.new seen.old seen.new result }
    ensures nearer { (p : Program) → Turned p machine.old machine.new result }
{
    match next_byte(seen) {
        Err(stop) => Err(stop),
        Ok(v) => {
            machine.doing = Doing::Gives(v);
            Ok(None)
        }
    }
}

/// A step is done.
fn advance<'a>(
    machine: &mut Machine<'a>,
    program: &'a Program,
    seen: &mut Seen<'a>,
) -> Result<Option<End>, Stop>
    ensures turns { Turns program.now machine.old machine.new seen.old seen.new result }
    ensures nearer { (machine.old.doing ≡ doing.Asks → ⊥) → Turned program.now machine.old machine.new result }
{
    match machine.step(program) {
        Err(Stop::Act(act)) => Ok(Some(End::Undefined(act))),
        Err(Stop::Malformed) => Err(Stop::Malformed),
        Err(Stop::Memory) => Err(Stop::Memory),
        Ok(Step::On) => Ok(None),
        Ok(Step::Ends(end)) => Ok(Some(whole_end(end))),
        Ok(Step::Enters(name)) => {
            seen.trace.push(Event::Enter(name))?;
            Ok(None)
        }
        Ok(Step::Puts(byte)) => {
            seen.trace.push(Event::Out(byte))?;
            Ok(None)
        }
    }
}

/// An end as that of a whole run.
fn whole_end(end: RunEnd) -> End
    ensures { its_end result ≡ its_run_end end }
{
    match end {
        RunEnd::Ended(status) => End::Ended(status),
        RunEnd::Ticks => End::Ticks,
        RunEnd::Depth => End::Depth,
    }
}

/// A byte that is awaited is read, or a step is done.
fn turn<'a>(
    machine: &mut Machine<'a>,
    program: &'a Program,
    seen: &mut Seen<'a>,
) -> Result<Option<End>, Stop>
    ensures turns { Turns program.now machine.old machine.new seen.old seen.new result }
    ensures nearer { Turned program.now machine.old machine.new result }
{
    match &machine.doing {
        Doing::Asks => ask(machine, seen),
        _ => advance(machine, program, seen),
    }
}

/// Turns are done until a tick is spent or the run ends.
fn go_on<'a>(
    machine: &mut Machine<'a>,
    program: &'a Program,
    seen: &mut Seen<'a>,
) -> Result<Option<End>, Stop>
    ensures turns { Turns program.now machine.old machine.new seen.old seen.new result }
    ensures spends { Spent machine.old machine.new result }
{
    let ticks = machine.ticks;
    'steps: loop {
        match turn(machine, program, seen) {
            Err(stop) => return Err(stop),
            Ok(Some(end)) => return Ok(Some(end)),
            Ok(None) => {
                if machine.ticks < ticks {
                    return Ok(None);
                }
            }
        }
    }
}

/// A program runs on an input, exactly as it means.
pub fn run<'a>(
    alloc: Global,
    program: &'a Program,
    limits: Limits,
    input: &'a [u8],
) -> Result<Ran<'a>, Stop>
    ensures { Runs program.now limits input.now result }
{
    let mut machine = start(alloc, limits);
    let mut seen = Seen {
        rest: input,
        trace: Vec::new(alloc),
    };
    'ticks: loop {
        match go_on(&mut machine, program, &mut seen) {
            Err(stop) => return Err(stop),
            Ok(None) => {}
            Ok(Some(end)) => {
                return Ok(Ran {
                    end,
                    trace: seen.trace,
                });
            }
        }
    }
}
