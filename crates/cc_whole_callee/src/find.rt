ghost use Rattle.std.specs.Prelude.{◌≡◌, option_map, option_copied, slice_get, length, ◌-◌};
ghost use Rattle.cc_whole.specs.Plain.{function_of, functions_of, items_of};
ghost use Rattle.cc_whole_mean.specs.Callee.{function_named as its_function, callee_named as its_callee, callee_numbered as its_numbered};
ghost use Rattle.cc_whole_callee.specs.View.{answer_of, Finds};

use crate::library::{Library, library_at, library_named};
use cc_whole::{CFunction, CItem, CProgram};
use cc_whole_memory::Act;

/// What a call calls.
#[derive(Clone, Copy)]
pub enum Callee<'a> {
    /// A function of the program.
    Own(&'a CFunction),
    BuiltIn(Library),
}

/// The function that a program defines by this name.
fn function_named<'a>(program: &'a CProgram, name: &[u8]) -> Option<&'a CFunction>
    ensures { option_map function_of (option_copied result) ≡ its_function (functions_of (items_of program.now.items)) name.now }
{
    for item in program.items.as_slice() {
        if let CItem::Function(f) = item {
            if f.prototype.name.as_slice() == name {
                return Some(f);
            }
        }
    }
    None
}

/// The function at a place among those of a program, or how far behind them the place is.
fn function_at(program: &CProgram, index: usize) -> Result<&CFunction, usize>
    ensures { Finds (functions_of (items_of program.now.items)) index result }
{
    let mut left = index;
    for item in program.items.as_slice() {
        if let CItem::Function(f) = item {
            if left == 0 {
                return Ok(f);
            }
            left -= 1;
        }
    }
    Err(left)
}

/// What a call by name calls.
pub fn callee_named<'a>(program: &'a CProgram, name: &[u8]) -> Result<Callee<'a>, Act>
    ensures { answer_of result ≡ its_callee (functions_of (items_of program.now.items)) name.now }
{
    match library_named(name) {
        Some(library) => Ok(Callee::BuiltIn(library)),
        None => match function_named(program, name) {
            Some(f) => Ok(Callee::Own(f)),
            None => Err(Act::A9),
        },
    }
}

/// What a call through a pointer calls that holds this number.
pub fn callee_numbered(program: &CProgram, number: usize) -> Result<Callee<'_>, Act>
    ensures { answer_of result ≡ its_numbered (functions_of (items_of program.now.items)) number }
{
    if number == 0 {
        return Err(Act::A4);
    }
    match function_at(program, number - 1) {
        Ok(f) => Ok(Callee::Own(f)),
        Err(left) => match library_at(left) {
            Some(library) => Ok(Callee::BuiltIn(library)),
            None => Err(Act::A9),
        },
    }
}
