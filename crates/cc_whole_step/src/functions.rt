ghost use Rattle.std.specs.Prelude.{◌≡◌, [], None, IfOk, length};
ghost use Rattle.cc_whole.specs.Known as known;
ghost use Rattle.cc_whole.specs.Plain.{function_of};
ghost use Rattle.cc_whole_memory.specs.Store.{memory_of};
ghost use Rattle.cc_whole_mean.specs.Callee.{own};
ghost use Rattle.cc_whole_step.specs.Running.{calling, entering, helping, spending};
ghost use Rattle.cc_whole_step.specs.Comes.{Comes, StepsOn};

use crate::mark::{Level, Mark};
use crate::moment::{End, Moment, Shown, Step};
use crate::stop::{Stop, short};
use cc_whole::CFunction;
use cc_whole_memory::{Act, Value};
use cc_whole_start::born_arguments;
use cf_base::Memory;

/// Whether it is a function that spends no tick and no depth.
fn is_helper(name: &[u8]) -> bool
    ensures { result ≡ known.is_helper name.now }
{
    name.starts_with(b"__h")
}

/// Whether it is the function that a program begins with.
fn is_main(name: &[u8]) -> bool
    ensures { result ≡ known.is_main name.now }
{
    name == b"main".as_slice()
}

impl<'a> Moment<'a> {
    /// A function of the program is called: not `main`, and with as many arguments as it has parameters.
    pub fn invoke_own(&mut self, f: &'a CFunction, found: &[Value]) -> Result<Step<'a>, Stop>
        ensures { Comes (calling (own (function_of f.now)) found.now) result self.old self.new }
    {
        if is_main(f.prototype.name.as_slice()) {
            return Err(Stop::Act(Act::A9));
        }
        if f.prototype.parameters.len() != found.len() {
            return Err(Stop::Act(Act::A9));
        }
        if is_helper(f.prototype.name.as_slice()) {
            return self.enter_helper(f, found);
        }
        self.enter_function(f, found)
    }

    /// A helper is entered, from a function that is none.
    fn enter_helper(&mut self, f: &'a CFunction, found: &[Value]) -> Result<Step<'a>, Stop>
        requires { length f.now.prototype.parameters ≡ length found.now }
        ensures { Comes (helping (function_of f.now) found.now) result self.old self.new }
    {
        if self.level.in_helper {
            return Err(Stop::Act(Act::A9));
        }
        self.level = Level {
            depth: self.level.depth,
            in_helper: true,
        };
        self.open_function(f, found)?;
        Ok(Step::On)
    }

    /// A function is entered: one tick, then one level of depth, then the event.
    fn enter_function(&mut self, f: &'a CFunction, found: &[Value]) -> Result<Step<'a>, Stop>
        requires { length f.now.prototype.parameters ≡ length found.now }
        ensures { Comes (spending (function_of f.now) found.now) result self.old self.new }
    {
        if self.ticks == 0 {
            return Ok(Step::Ends(End::Ticks));
        }
        if self.level.depth == 0 {
            return Ok(Step::Ends(End::Depth));
        }
        self.ticks -= 1;
        self.level = Level {
            depth: self.level.depth - 1,
            in_helper: false,
        };
        self.open_function(f, found)?;
        Ok(Step::Shows(Shown::Enter(f.prototype.name.as_slice())))
    }

    /// A function's parameters are born, and its body is next.
    pub fn open_function(&mut self, f: &'a CFunction, found: &[Value]) -> Result<(), Memory>
        requires { length f.now.prototype.parameters ≡ length found.now }
        ensures { IfOk result (λ _. StepsOn (entering (function_of f.now) found.now) None self.old self.new) }
    {
        let first = born_arguments(&mut self.store, found)?;
        let first = short(first)?;
        self.frames.marks.push(Mark::Parameters(
            f.prototype.parameters.as_slice(),
            first,
            found.len(),
        ))?;
        self.open(&f.body)?;
        Ok(())
    }

    /// `main` begins, without arguments; the next block has this number.
    pub fn begin_main(&mut self, f: &'a CFunction, next: usize) -> Result<(), Memory>
        requires { next ≡ (memory_of self.old.store).next }
        ensures { IfOk result (λ _. StepsOn (entering (function_of f.now) []) None self.old self.new) }
    {
        let next = short(next)?;
        self.frames.marks.push(Mark::Parameters(f.prototype.parameters.as_slice(), next, 0))?;
        self.open(&f.body)?;
        Ok(())
    }
}
