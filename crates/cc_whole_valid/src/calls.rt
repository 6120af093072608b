ghost use Rattle.std.specs.Prelude.{◌≡◌, length, map, option_map};
ghost use Rattle.cc_whole.specs.Plain.{place_of, expression_of, callee_of};
ghost use Rattle.cc_whole.specs.Known as known_spec;
ghost use Rattle.cc_whole.specs.Statements as checks;
ghost use Rattle.cc_whole_valid.specs.Checking as spec;
ghost use Rattle.cc_whole_valid.specs.Memory.{meant, type_at, known};
ghost use Rattle.cc_whole_valid.specs.Walk.{Walks, WalksTo};

use crate::around::Around;
use crate::expressions::{is_main, target_from, type_from};
use crate::landmarks::{pass, pass_signature};
use crate::scope::{Entity, Scope};
use crate::signature::Signature;
use crate::stop::Stop;
use crate::types::is_function_pointer;
use cc_whole::{CCallee, CExpression, CPlace, CType};

/// Whether a function of this name spends no tick and no depth.
pub fn is_helper(name: &[u8]) -> bool
    ensures { result ≡ known_spec.is_helper name.now }
{
    name.starts_with(b"__h")
}

/// The type of a function of this name, at whose name the check is.
#[tactic(auto, unfolding(crate::specs::Checking::signature_by))]
fn signature_by<'a>(at: usize, found: Option<Entity<'a>>) -> Result<Signature<'a>, Stop>
    ensures { WalksTo type_at (spec.signature_by (meant found.entry) at) result at }
{
    match found {
        None => Err(Stop::Broken { rule: 1, place: at }),
        Some(Entity::Function(p)) => Ok(Signature::Declared(p)),
        Some(Entity::Object(_)) => Err(Stop::Broken { rule: 3, place: at }),
    }
}

/// The type of the function that a call calls.
#[tactic(auto, unfolding(crate::specs::Checking::signature_from))]
fn signature_from<'a>(
    names: &Scope<'a>,
    at: usize,
    callee: &'a CCallee,
) -> Result<Signature<'a>, Stop>
    ensures { WalksTo type_at (spec.signature_from (callee_of callee.now) names.now at) result at }
{
    match callee {
        CCallee::Name(name) => signature_by(at, names.find(name.as_slice())),
        CCallee::Pointer(s, _) => Ok(Signature::Written(s)),
    }
}

/// Goes past what a call calls: a name, or a pointer to a function.
#[tactic(auto, unfolding(crate::specs::Checking::callee_from))]
fn callee_from(names: &Scope<'_>, at: &mut usize, callee: &CCallee) -> Result<(), Stop>
    ensures { Walks (spec.callee_from (callee_of callee.now) names.now at.old) result at.new }
{
    match callee {
        CCallee::Name(_) => pass(at, 1),
        CCallee::Pointer(s, e) => {
            pass_signature(at, s)?;
            let place = *at;
            let t = type_from(names, at, e.get())?;
            if !is_function_pointer(t) {
                return Err(Stop::Broken { rule: 3, place });
            }
            Ok(())
        }
    }
}

#[tactic(auto, unfolding(crate::specs::Checking::argument_from))]
fn argument_from(
    names: &Scope<'_>,
    at: &mut usize,
    wanted: CType,
    e: &CExpression,
) -> Result<(), Stop>
    ensures { Walks (spec.argument_from wanted (expression_of e.now) names.now at.old) result at.new }
{
    let place = *at;
    let t = type_from(names, at, e)?;
    if !t.is(wanted) {
        return Err(Stop::Broken { rule: 5, place });
    }
    Ok(())
}

fn arguments_from(
    names: &Scope<'_>,
    at: &mut usize,
    s: Signature<'_>,
    all: &[CExpression],
) -> Result<(), Stop>
    requires { length (type_at s).parameters ≡ length all.now }
    ensures { Walks (spec.arguments_from (type_at s.entry).parameters (map expression_of all.now) names.now at.old) result at.new }
{
    for (index, e) in all.iter().enumerate() {
        argument_from(names, at, s.parameter(index), e)?;
    }
    Ok(())
}

/// Whether a helper may call it.
fn helper_may_call(callee: &CCallee) -> bool
    ensures { result ≡ checks.helper_may_call (callee_of callee.now) }
{
    match callee {
        CCallee::Name(name) => !is_helper(name.as_slice())
            && !(name.as_slice() == b"atexit".as_slice()),
        CCallee::Pointer(_, _) => false,
    }
}

fn calls_main(callee: &CCallee) -> bool
    ensures { result ≡ checks.calls_main (callee_of callee.now) }
{
    match callee {
        CCallee::Name(name) => is_main(name.as_slice()),
        CCallee::Pointer(_, _) => false,
    }
}

/// Whether a result fits the place that it is stored at, if it is stored.
fn fits_stored(stored: Option<CType>, given: Option<CType>) -> bool
    ensures { result ≡ checks.fits_stored stored given }
{
    match (stored, given) {
        (None, _) => true,
        (Some(_), None) => false,
        (Some(wanted), Some(t)) => t.is(wanted),
    }
}

/// Goes past the call of a function of this type, at which the check is.
#[tactic(auto, unfolding(crate::specs::Checking::call_from))]
fn call_from(
    names: &Scope<'_>,
    at: &mut usize,
    around: Around,
    stored: Option<CType>,
    s: Signature<'_>,
    callee: &CCallee,
    arguments: &[CExpression],
) -> Result<(), Stop>
    ensures { Walks (spec.call_from (callee_of callee.now) (map expression_of arguments.now) (known names.now around) stored (type_at s.entry) at.old) result at.new }
{
    let place = *at;
    if !fits_stored(stored, s.result()) {
        return Err(Stop::Broken { rule: 4, place });
    }
    if s.len() != arguments.len() {
        return Err(Stop::Broken { rule: 5, place });
    }
    if around.in_helper && !helper_may_call(callee) {
        return Err(Stop::Broken { rule: 9, place });
    }
    if calls_main(callee) {
        return Err(Stop::Broken { rule: 10, place });
    }
    callee_from(names, at, callee)?;
    arguments_from(names, at, s, arguments)
}

/// The type of the place that gets the result, if it is stored.
#[tactic(auto, unfolding(crate::specs::Checking::stored_from))]
fn stored_from(
    names: &Scope<'_>,
    at: &mut usize,
    place: &Option<CPlace>,
) -> Result<Option<CType>, Stop>
    ensures { Walks (spec.stored_from (option_map place_of place.now) names.now at.old) result at.new }
{
    match place {
        None => Ok(None),
        Some(place) => {
            let t = target_from(names, at, place)?;
            Ok(Some(t))
        }
    }
}

/// `[place =] callee(arguments);`
#[tactic(auto, unfolding(crate::specs::Checking::called_from))]
pub fn called_from(
    names: &Scope<'_>,
    at: &mut usize,
    around: Around,
    place: &Option<CPlace>,
    callee: &CCallee,
    arguments: &[CExpression],
) -> Result<(), Stop>
    ensures { Walks (spec.called_from (option_map place_of place.now) (callee_of callee.now) (map expression_of arguments.now) (known names.now around) at.old) result at.new }
{
    let stored = stored_from(names, at, place)?;
    let s = signature_from(names, *at, callee)?;
    call_from(names, at, around, stored, s, callee, arguments)
}
