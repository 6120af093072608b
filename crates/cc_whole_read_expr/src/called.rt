//! What a call calls.

ghost use Rattle.std.specs.Prelude.{◌≡◌};
ghost use Rattle.cc_whole_reading.specs.Constants.{keeps};
ghost use Rattle.cc_whole_reading.specs.Parse.{Reads};
ghost use Rattle.cc_whole_read_expr.specs.ReadExpr as spec;

use crate::expressions::expression;
use cc_whole::{CCallee, CSignature};
use cc_whole_read_types::signature;
use cc_whole_reading::{Constants, Cursor, Stop};
use cc_whole_tokens::Mark;
use std::alloc::Global;

#[tactic(auto, unfolding(crate::specs::ReadExpr::called_name))]
fn called_name(alloc: Global, c: &mut Cursor<'_>) -> Result<CCallee, Stop>
    ensures { Reads (spec.called_name c.old) result c.new }
{
    Ok(CCallee::Name(c.name(alloc)?))
}

/// The pointer to a function, behind the type with which it is called.
#[tactic(auto, unfolding(crate::specs::ReadExpr::called_with))]
fn called_with(
    alloc: Global,
    constants: Constants,
    depth: usize,
    ty: CSignature,
    c: &mut Cursor<'_>,
) -> Result<CCallee, Stop>
    ensures { Reads (spec.called_with (spec.expression (keeps constants) depth) ty c.old) result c.new }
{
    c.expect(Mark::LeftParen)?;
    let function = expression(alloc, constants, depth, c)?;
    c.expect(Mark::RightParen)?;
    c.expect(Mark::RightParen)?;
    Ok(CCallee::Pointer(ty, function))
}

#[tactic(auto, unfolding(crate::specs::ReadExpr::called_pointer))]
fn called_pointer(
    alloc: Global,
    constants: Constants,
    depth: usize,
    c: &mut Cursor<'_>,
) -> Result<CCallee, Stop>
    ensures { Reads (spec.called_pointer (spec.expression (keeps constants) depth) c.old) result c.new }
{
    let ty = signature(alloc, c)?;
    called_with(alloc, constants, depth, ty, c)
}

/// Takes what a call calls: the name of a function, or a pointer to one with its type.
#[tactic(auto, unfolding(crate::specs::ReadExpr::callee))]
pub fn callee(
    alloc: Global,
    constants: Constants,
    depth: usize,
    c: &mut Cursor<'_>,
) -> Result<CCallee, Stop>
    ensures { Reads (spec.callee (spec.expression (keeps constants) depth) c.old) result c.new }
{
    if c.sees(Mark::LeftParen) {
        c.skip();
        return called_pointer(alloc, constants, depth, c);
    }
    called_name(alloc, c)
}
