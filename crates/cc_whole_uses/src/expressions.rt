ghost use Rattle.std.specs.Prelude.{◌≡◌, ◌++◌, map, option_map, OnOk};
ghost use Rattle.cc_whole.specs.Plain.{place_of, expression_of, callee_of};
ghost use Rattle.cc_whole.specs.Uses as spec;
ghost use Rattle.cc_whole_uses.specs.Told.{told};

use cc_whole::{CCallee, CExpression, CPlace};
use cf_base::{Boxed, Memory};
use cf_name_list::Names;

/// A name that no parameter or local hides.
pub(crate) fn put_use<'a>(
    name: &'a [u8],
    hidden: &Names<'_>,
    out: &mut Vec<&'a [u8]>,
) -> Result<(), Memory>
    ensures { OnOk result (told out.new.items ≡ told out.old.items ++ spec.use_of name.now hidden.now) }
{
    if !hidden.has(name) {
        out.push(name)?;
    }
    Ok(())
}

/// What an expression uses.
#[cycle(expressions)]
pub(crate) fn in_expression<'a>(
    e: &'a CExpression,
    hidden: &Names<'_>,
    out: &mut Vec<&'a [u8]>,
) -> Result<(), Memory>
    ensures { OnOk result (told out.new.items ≡ told out.old.items ++ spec.uses_of (expression_of e.now) hidden.now) }
{
    match e {
        CExpression::Constant(_) => Ok(()),
        CExpression::Load(place) => in_place(place, hidden, out),
        CExpression::Unary(_, e) => in_expression(e.get(), hidden, out),
        CExpression::Cast(_, e) => in_expression(e.get(), hidden, out),
        CExpression::AddressOf(name) => put_use(name.as_slice(), hidden, out),
        CExpression::Binary(_, a, b) => {
            in_expression(a.get(), hidden, out)?;
            in_expression(b.get(), hidden, out)
        }
    }
}

/// What a place uses.
#[cycle(expressions)]
pub(crate) fn in_place<'a>(
    place: &'a CPlace,
    hidden: &Names<'_>,
    out: &mut Vec<&'a [u8]>,
) -> Result<(), Memory>
    ensures { OnOk result (told out.new.items ≡ told out.old.items ++ spec.uses_of_place (place_of place.now) hidden.now) }
{
    match place {
        CPlace::Name(name) => put_use(name.as_slice(), hidden, out),
        CPlace::At(_, e) => in_expression(e.get(), hidden, out),
    }
}

/// What arguments use, in order.
pub(crate) fn in_arguments<'a>(
    all: &'a [CExpression],
    hidden: &Names<'_>,
    out: &mut Vec<&'a [u8]>,
) -> Result<(), Memory>
    ensures { OnOk result (told out.new.items ≡ told out.old.items ++ spec.uses_of_all (map expression_of all.now) hidden.now) }
{
    for e in all {
        in_expression(e, hidden, out)?;
    }
    Ok(())
}

/// Where the result of a call is put, if it is.
pub(crate) fn in_target<'a>(
    place: &'a Option<CPlace>,
    hidden: &Names<'_>,
    out: &mut Vec<&'a [u8]>,
) -> Result<(), Memory>
    ensures { OnOk result (told out.new.items ≡ told out.old.items ++ spec.uses_of_target (option_map place_of place.now) hidden.now) }
{
    match place {
        None => Ok(()),
        Some(place) => in_place(place, hidden, out),
    }
}

/// What is called.
pub(crate) fn in_callee<'a>(
    callee: &'a CCallee,
    hidden: &Names<'_>,
    out: &mut Vec<&'a [u8]>,
) -> Result<(), Memory>
    ensures { OnOk result (told out.new.items ≡ told out.old.items ++ spec.uses_of_callee (callee_of callee.now) hidden.now) }
{
    match callee {
        CCallee::Name(name) => put_use(name.as_slice(), hidden, out),
        CCallee::Pointer(_, e) => in_expression(e.get(), hidden, out),
    }
}

/// What is returned, if anything is.
pub(crate) fn in_given<'a>(
    e: &'a Option<Boxed<CExpression>>,
    hidden: &Names<'_>,
    out: &mut Vec<&'a [u8]>,
) -> Result<(), Memory>
    ensures { OnOk result (told out.new.items ≡ told out.old.items ++ spec.uses_of_given (option_map expression_of e.now) hidden.now) }
{
    match e {
        None => Ok(()),
        Some(e) => in_expression(e.get(), hidden, out),
    }
}
