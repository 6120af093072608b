ghost use Rattle.std.specs.Prelude.{◌≡◌, Some};
ghost use Rattle.cf_base.specs.declared.kind.Kind.TheVariants as kind;
ghost use Rattle.cf_base.specs.Integers.{bits_of};
ghost use Rattle.cc_whole_memory.specs.declared.value.Value.TheVariants as value;
ghost use Rattle.cc_whole_memory.specs.Blocks.{allotted};
ghost use Rattle.cc_whole_mean.specs.Library as does;
ghost use Rattle.cc_whole_mean.specs.Callee.{atexit, built_in, free};
ghost use Rattle.cc_whole_callee.specs.View.{library_of};
ghost use Rattle.cc_whole_step.specs.declared.mark.Flow.TheVariants as left;
ghost use Rattle.cc_whole_step.specs.Running.{calling, coming_back};
ghost use Rattle.cc_whole_step.specs.Comes.{Comes};

use crate::mark::{Doing, Flow};
use crate::moment::{Moment, Shown, Step};
use crate::stop::Stop;
use crate::switch::bits_of;
use cc_whole_callee::Library;
use cc_whole_memory::{Act, Pointer, Value};
use cf_base::Kind;

/// How many functions are registered at most.
const MOST_REGISTERED: usize = 65536;

/// The byte that a value is modulo 256.
fn byte_of(number: i64) -> u8
    ensures { result ≡ bits_of 8 number }
{
    if number < 0 {
        255 - ((-(number + 1)) % 256) as u8
    } else {
        (number % 256) as u8
    }
}

/// An int that comes back.
fn back_int(number: i64) -> Flow
    ensures { result ≡ left.Returns (Some (value.Number kind.Int number)) }
{
    Flow::Returns(Some(Value::Number(Kind::Int, number)))
}

impl<'a> Moment<'a> {
    /// A library function is called, and has come back.
    pub fn invoke_library(&mut self, library: Library, found: &[Value]) -> Result<Step<'a>, Stop>
        ensures { Comes (calling (built_in (library_of library)) found.now) result self.old self.new }
    {
        match found.split_first() {
            None => self.library_of_none(library),
            Some((v, others)) => {
                if others.is_empty() {
                    self.library_of_one(library, *v)
                } else {
                    Err(Stop::Act(Act::A9))
                }
            }
        }
    }

    /// A library function without arguments.
    fn library_of_none(&mut self, library: Library) -> Result<Step<'a>, Stop>
        ensures { Comes (coming_back (λ _ s w. does.of_none (library_of library) s w)) result self.old self.new }
    {
        match library {
            Library::Getchar => Ok(Step::Takes),
            _ => Err(Stop::Act(Act::A9)),
        }
    }

    /// A library function of one argument.
    fn library_of_one(&mut self, library: Library, v: Value) -> Result<Step<'a>, Stop>
        ensures { Comes (coming_back (λ _ s w. does.of_one (library_of library) self.old.level.in_helper v s w)) result self.old self.new }
    {
        match v {
            Value::Number(_, number) => self.library_of_number(library, number),
            Value::Address(pointer) => self.library_of_pointer(library, pointer),
            Value::Function(function) => self.library_of_function(library, function),
        }
    }

    /// `putchar`, `exit` or `malloc`.
    fn library_of_number(&mut self, library: Library, number: i64) -> Result<Step<'a>, Stop>
        ensures { Comes (coming_back (λ _ s w. does.of_number (library_of library) number s w)) result self.old self.new }
    {
        match library {
            Library::Putchar => {
                let byte = byte_of(number);
                self.doing = Doing::Leave(back_int(i64::from(byte)));
                Ok(Step::Shows(Shown::Out(byte)))
            }
            Library::Exit => Ok(self.ends(Flow::Exits(number))),
            Library::Malloc => self.allot(bits_of(number)),
            _ => Err(Stop::Act(Act::A9)),
        }
    }

    /// `malloc`
    fn allot(&mut self, size: u32) -> Result<Step<'a>, Stop>
        ensures { Comes (coming_back (λ _ s w. does.back_allotted s w (allotted size w.heap s.memory))) result self.old self.new }
    {
        let (pointer, heap) = self.store.allot(size, self.heap)?;
        self.heap = heap;
        Ok(self.ends(Flow::Returns(Some(Value::Address(pointer)))))
    }

    /// `free`
    fn library_of_pointer(&mut self, library: Library, pointer: Pointer) -> Result<Step<'a>, Stop>
        ensures { Comes (coming_back (λ _ s w. does.of_pointer (library_of library) pointer s w)) result self.old self.new }
    {
        match library {
            Library::Free => self.free(pointer),
            _ => Err(Stop::Act(Act::A9)),
        }
    }

    /// `free`. Charges never pass 32 bits, so more of the heap than 63 bits tell is want of memory.
    fn free(&mut self, pointer: Pointer) -> Result<Step<'a>, Stop>
        ensures { Comes (coming_back (λ _ s w. does.of_pointer free pointer s w)) result self.old self.new }
    {
        if self.heap >= 9223372036854775808 {
            return Err(Stop::Memory);
        }
        let heap = self.store.free(pointer, self.heap)?;
        self.heap = heap;
        Ok(self.ends(Flow::Returns(None)))
    }

    /// `atexit`, which no helper calls.
    fn library_of_function(&mut self, library: Library, function: usize) -> Result<Step<'a>, Stop>
        ensures { Comes (coming_back (λ _ s w. does.of_function (library_of library) self.old.level.in_helper function s w)) result self.old self.new }
    {
        match library {
            Library::Atexit => self.register(function),
            _ => Err(Stop::Act(Act::A9)),
        }
    }

    /// A function is registered, if there is room for it.
    fn register(&mut self, function: usize) -> Result<Step<'a>, Stop>
        ensures { Comes (coming_back (λ _ s w. does.of_function atexit self.old.level.in_helper function s w)) result self.old self.new }
    {
        if self.level.in_helper {
            return Err(Stop::Act(Act::A9));
        }
        if self.registered.len() >= MOST_REGISTERED {
            return Ok(self.ends(back_int(1)));
        }
        self.registered.push(function)?;
        Ok(self.ends(back_int(0)))
    }
}
