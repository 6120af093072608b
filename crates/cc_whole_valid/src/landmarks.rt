//! Going past the landmarks of types.

ghost use Rattle.std.specs.Prelude.{◌≡◌, ◌≤◌, ◌+◌};
ghost use Rattle.cc_whole.specs.Landmarks as marks;
ghost use Rattle.cc_whole_valid.specs.Checking as checking;
ghost use Rattle.cc_whole_valid.specs.Walk as spec;
ghost use Rattle.cc_whole_valid.specs.Walk.{Walks};

use crate::stop::Stop;
use cc_whole::{CSignature, CType, CVariableType};

/// Goes past so many landmarks.
#[tactic(auto, unfolding(crate::specs::Walk::past))]
pub fn pass(at: &mut usize, landmarks: usize) -> Result<(), Stop>
    ensures { Walks (spec.past landmarks at.old) result at.new }
{
    match at.checked_add(landmarks) {
        None => Err(Stop::Memory),
        Some(behind) => {
            *at = behind;
            Ok(())
        }
    }
}

/// How many landmarks a type has.
pub fn type_marks(t: CType) -> usize
    ensures value { result ≡ marks.type_marks t }
    ensures small { result ≤ 2 }
{
    match t {
        CType::UChar | CType::UShort => 2,
        _ => 1,
    }
}

/// The same of a result, or of the `void` in its place.
pub fn result_marks(given: Option<CType>) -> usize
    ensures value { result ≡ marks.result_marks given }
    ensures small { result ≤ 2 }
{
    match given {
        None => 1,
        Some(t) => type_marks(t),
    }
}

/// How many landmarks stand before the name of a variable.
pub fn marks_before(t: CVariableType) -> usize
    ensures value { result ≡ marks.marks_before t }
    ensures small { result ≤ 2 }
{
    match t {
        CVariableType::Scalar(t) => type_marks(t),
        CVariableType::Ints(_) | CVariableType::Chars(_) => 1,
        CVariableType::Pairs(_) => 2,
    }
}

/// How many stand behind it: the number of its elements.
pub fn marks_behind(t: CVariableType) -> usize
    ensures { result ≡ marks.marks_behind t }
{
    match t {
        CVariableType::Scalar(_) => 0,
        _ => 1,
    }
}

fn pass_types(at: &mut usize, types: &[CType]) -> Result<(), Stop>
    ensures { Walks (checking.types_from types.now at.old) result at.new }
{
    for t in types {
        pass(at, type_marks(*t))?;
    }
    Ok(())
}

/// Goes past the types of parameters, or past `void`.
#[tactic(auto, unfolding(crate::specs::Checking::parameter_types_from))]
fn pass_parameters(at: &mut usize, types: &[CType]) -> Result<(), Stop>
    ensures { Walks (checking.parameter_types_from types.now at.old) result at.new }
{
    match types {
        [] => pass(at, 1),
        [_, ..] => pass_types(at, types),
    }
}

/// Goes past the type of a function that is called through a pointer.
#[tactic(auto, unfolding(crate::specs::Checking::type_of_call))]
pub fn pass_signature(at: &mut usize, signature: &CSignature) -> Result<(), Stop>
    ensures { Walks (checking.type_of_call signature.now at.old) result at.new }
{
    pass(at, result_marks(signature.result))?;
    pass_parameters(at, signature.parameters.as_slice())
}
