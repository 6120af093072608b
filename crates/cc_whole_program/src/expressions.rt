ghost use Rattle.std.specs.Prelude.{◌≡◌, map, option_map};
ghost use Rattle.cc_whole.specs.Plain.{place_of, expression_of, callee_of};
ghost use Rattle.cc_whole_program.specs.Uses as spec;

use cc_whole::{CCallee, CExpression, CPlace};
use cc_whole_valid::is_library;
use cf_base::Boxed;
use cf_name_list::Names;

/// Whether a name is one of the library functions, or defined.
pub fn is_there(defined: &Names<'_>, name: &[u8]) -> bool
    ensures { result ≡ spec.is_there defined.now name.now }
{
    is_library(name) || defined.has(name)
}

fn good_name(defined: &Names<'_>, hidden: &Names<'_>, name: &[u8]) -> bool
    ensures { result ≡ spec.good_name defined.now hidden.now name.now }
{
    hidden.has(name) || is_there(defined, name)
}

/// Whether each name that an expression uses is defined, a library function, or hidden.
#[cycle(good)]
pub fn good(defined: &Names<'_>, hidden: &Names<'_>, e: &CExpression) -> bool
    ensures { result ≡ spec.good (expression_of e.now) defined.now hidden.now }
{
    match e {
        CExpression::Constant(_) => true,
        CExpression::Load(place) => good_place(defined, hidden, place),
        CExpression::Unary(_, e) => good(defined, hidden, e.get()),
        CExpression::Cast(_, e) => good(defined, hidden, e.get()),
        CExpression::AddressOf(name) => good_name(defined, hidden, name.as_slice()),
        CExpression::Binary(_, a, b) => {
            good(defined, hidden, a.get()) && good(defined, hidden, b.get())
        }
    }
}

/// The same of a place.
#[cycle(good)]
pub fn good_place(defined: &Names<'_>, hidden: &Names<'_>, place: &CPlace) -> bool
    ensures { result ≡ spec.good_place (place_of place.now) defined.now hidden.now }
{
    match place {
        CPlace::Name(name) => good_name(defined, hidden, name.as_slice()),
        CPlace::At(_, e) => good(defined, hidden, e.get()),
    }
}

fn good_all(defined: &Names<'_>, hidden: &Names<'_>, all: &[CExpression]) -> bool
    ensures { result ≡ spec.good_all (map expression_of all.now) defined.now hidden.now }
{
    for e in all {
        if !good(defined, hidden, e) {
            return false;
        }
    }
    true
}

fn good_target(defined: &Names<'_>, hidden: &Names<'_>, place: &Option<CPlace>) -> bool
    ensures { result ≡ spec.good_target (option_map place_of place.now) defined.now hidden.now }
{
    match place {
        None => true,
        Some(place) => good_place(defined, hidden, place),
    }
}

fn good_callee(defined: &Names<'_>, hidden: &Names<'_>, callee: &CCallee) -> bool
    ensures { result ≡ spec.good_callee (callee_of callee.now) defined.now hidden.now }
{
    match callee {
        CCallee::Name(name) => good_name(defined, hidden, name.as_slice()),
        CCallee::Pointer(_, e) => good(defined, hidden, e.get()),
    }
}

/// The same of what is returned.
pub fn good_given(defined: &Names<'_>, hidden: &Names<'_>, e: &Option<Boxed<CExpression>>) -> bool
    ensures { result ≡ spec.good_given (option_map expression_of e.now) defined.now hidden.now }
{
    match e {
        None => true,
        Some(e) => good(defined, hidden, e.get()),
    }
}

/// The same of a call.
pub fn good_called(
    defined: &Names<'_>,
    hidden: &Names<'_>,
    place: &Option<CPlace>,
    callee: &CCallee,
    arguments: &[CExpression],
) -> bool
    ensures { result ≡ spec.good_called (option_map place_of place.now) (callee_of callee.now) (map expression_of arguments.now) defined.now hidden.now }
{
    good_target(defined, hidden, place)
        && (good_callee(defined, hidden, callee) && good_all(defined, hidden, arguments))
}
