//! Expressions and places.

ghost use Rattle.std.specs.Prelude.{◌≡◌, ◌≤◌, ◌<◌, length};
ghost use Rattle.cc_whole.specs.Types as types;
ghost use Rattle.cc_whole_reading.specs.Constants.{keeps};
ghost use Rattle.cc_whole_reading.specs.Parse.{Reads};
ghost use Rattle.cc_whole_read_expr.specs.ReadExpr as spec;

use crate::operators::operator_above;
use cc_whole::{CExpression, CPlace, CType, Prefix};
use cc_whole_read_types::{pointed_type, sees_type, type_name};
use cc_whole_reading::{Constants, Cursor, Stop};
use cc_whole_tokens::Mark;
use cf_base::Boxed;
use std::alloc::Global;

/// The level of a whole expression.
const LOOSEST: usize = 8;

/// Takes a whole expression, in which operands stand at most `depth` deep.
#[cycle(expression)]
pub fn expression(
    alloc: Global,
    constants: Constants,
    depth: usize,
    c: &mut Cursor<'_>,
) -> Result<Boxed<CExpression>, Stop>
    ensures { Reads (spec.expression (keeps constants) depth c.old) result c.new }
{
    binary(alloc, constants, depth, LOOSEST, c)
}

/// Operands that operators up to a level join.
#[cycle(expression)]
fn binary(
    alloc: Global,
    constants: Constants,
    depth: usize,
    level: usize,
    c: &mut Cursor<'_>,
) -> Result<Boxed<CExpression>, Stop>
    requires { level ≤ 8 }
    ensures { Reads (spec.binary (spec.operand (keeps constants) depth) level c.old) result c.new }
{
    if level == 0 {
        return operand(alloc, constants, depth, c);
    }
    let first = binary(alloc, constants, depth, level - 1, c)?;
    more_operands(alloc, constants, depth, level - 1, first, c)
}

/// The operands of a level that follow one.
#[cycle(expression)]
fn more_operands(
    alloc: Global,
    constants: Constants,
    depth: usize,
    level: usize,
    first: Boxed<CExpression>,
    c: &mut Cursor<'_>,
) -> Result<Boxed<CExpression>, Stop>
    requires { level < 8 }
    ensures { Reads (spec.more_operands (spec.binary (spec.operand (keeps constants) depth) level) level (length c.old) first c.old) result c.new }
{
    let mut tree = first;
    for _turn in 0..c.len() {
        match operator_above(level, c) {
            None => return Ok(tree),
            Some(operator) => {
                c.skip();
                let right = binary(alloc, constants, depth, level, c)?;
                tree = Boxed::new(alloc, CExpression::Binary(operator, tree, right))?;
            }
        }
    }
    Ok(tree)
}

/// An operand, in which others stand less than `depth` deep.
#[cycle(expression)]
fn operand(
    alloc: Global,
    constants: Constants,
    depth: usize,
    c: &mut Cursor<'_>,
) -> Result<Boxed<CExpression>, Stop>
    ensures { Reads (spec.operand (keeps constants) depth c.old) result c.new }
{
    if depth == 0 {
        return Err(c.refusal());
    }
    operand_within(alloc, constants, depth - 1, c)
}

#[cycle(expression)]
#[tactic(auto, unfolding(crate::specs::ReadExpr::operand_by))]
fn operand_within(
    alloc: Global,
    constants: Constants,
    depth: usize,
    c: &mut Cursor<'_>,
) -> Result<Boxed<CExpression>, Stop>
    ensures { Reads (spec.operand_by (keeps constants) (spec.expression (keeps constants) depth) (spec.operand (keeps constants) depth) c.old) result c.new }
{
    if c.sees(Mark::LeftParen) {
        c.skip();
        brackets(alloc, constants, depth, c)
    } else if c.sees(Mark::Star) {
        c.skip();
        loaded(alloc, constants, depth, c)
    } else {
        signed(alloc, constants, depth, c)
    }
}

/// What stands behind an opening bracket.
#[cycle(expression)]
#[tactic(auto, unfolding(crate::specs::ReadExpr::brackets))]
fn brackets(
    alloc: Global,
    constants: Constants,
    depth: usize,
    c: &mut Cursor<'_>,
) -> Result<Boxed<CExpression>, Stop>
    ensures { Reads (spec.brackets (spec.expression (keeps constants) depth) (spec.operand (keeps constants) depth) c.old) result c.new }
{
    if sees_type(c) {
        cast(alloc, constants, depth, c)
    } else {
        enclosed(alloc, constants, depth, c)
    }
}

#[cycle(expression)]
#[tactic(auto, unfolding(crate::specs::ReadExpr::enclosed))]
fn enclosed(
    alloc: Global,
    constants: Constants,
    depth: usize,
    c: &mut Cursor<'_>,
) -> Result<Boxed<CExpression>, Stop>
    ensures { Reads (spec.enclosed (spec.expression (keeps constants) depth) c.old) result c.new }
{
    let inner = expression(alloc, constants, depth, c)?;
    c.expect(Mark::RightParen)?;
    Ok(inner)
}

#[cycle(expression)]
#[tactic(auto, unfolding(crate::specs::ReadExpr::cast))]
fn cast(
    alloc: Global,
    constants: Constants,
    depth: usize,
    c: &mut Cursor<'_>,
) -> Result<Boxed<CExpression>, Stop>
    ensures { Reads (spec.cast (spec.operand (keeps constants) depth) c.old) result c.new }
{
    let ty = type_name(c)?;
    c.expect(Mark::RightParen)?;
    typed_operand(alloc, constants, depth, ty, c)
}

fn is_pointer(ty: CType) -> bool
    ensures { result ≡ types.is_pointer ty }
{
    matches!(ty, CType::Pointer)
}

/// What stands behind a type in brackets.
#[cycle(expression)]
#[tactic(auto, unfolding(crate::specs::ReadExpr::typed_operand))]
fn typed_operand(
    alloc: Global,
    constants: Constants,
    depth: usize,
    ty: CType,
    c: &mut Cursor<'_>,
) -> Result<Boxed<CExpression>, Stop>
    ensures { Reads (spec.typed_operand (spec.operand (keeps constants) depth) ty c.old) result c.new }
{
    if is_pointer(ty) && c.sees(Mark::And) {
        c.skip();
        address(alloc, c)
    } else {
        casted(alloc, constants, depth, ty, c)
    }
}

/// The name of which the address is taken.
#[tactic(auto, unfolding(crate::specs::ReadExpr::address))]
fn address(alloc: Global, c: &mut Cursor<'_>) -> Result<Boxed<CExpression>, Stop>
    ensures { Reads (spec.address c.old) result c.new }
{
    let name = c.name(alloc)?;
    Ok(Boxed::new(alloc, CExpression::AddressOf(name))?)
}

#[cycle(expression)]
#[tactic(auto, unfolding(crate::specs::ReadExpr::casted))]
fn casted(
    alloc: Global,
    constants: Constants,
    depth: usize,
    ty: CType,
    c: &mut Cursor<'_>,
) -> Result<Boxed<CExpression>, Stop>
    ensures { Reads (spec.casted (spec.operand (keeps constants) depth) ty c.old) result c.new }
{
    let inner = operand(alloc, constants, depth, c)?;
    Ok(Boxed::new(alloc, CExpression::Cast(ty, inner))?)
}

#[cycle(expression)]
#[tactic(auto, unfolding(crate::specs::ReadExpr::signed))]
fn signed(
    alloc: Global,
    constants: Constants,
    depth: usize,
    c: &mut Cursor<'_>,
) -> Result<Boxed<CExpression>, Stop>
    ensures { Reads (spec.signed (keeps constants) (spec.operand (keeps constants) depth) c.old) result c.new }
{
    if c.sees(Mark::Minus) {
        c.skip();
        prefixed(alloc, constants, depth, Prefix::Negate, c)
    } else if c.sees(Mark::Complement) {
        c.skip();
        prefixed(alloc, constants, depth, Prefix::Complement, c)
    } else if c.sees(Mark::Not) {
        c.skip();
        prefixed(alloc, constants, depth, Prefix::Not, c)
    } else {
        leaf(alloc, constants, c)
    }
}

/// The operand of an operator that stands before it.
#[cycle(expression)]
#[tactic(auto, unfolding(crate::specs::ReadExpr::prefixed))]
fn prefixed(
    alloc: Global,
    constants: Constants,
    depth: usize,
    operator: Prefix,
    c: &mut Cursor<'_>,
) -> Result<Boxed<CExpression>, Stop>
    ensures { Reads (spec.prefixed (spec.operand (keeps constants) depth) operator c.old) result c.new }
{
    let inner = operand(alloc, constants, depth, c)?;
    Ok(Boxed::new(alloc, CExpression::Unary(operator, inner))?)
}

#[tactic(auto, unfolding(crate::specs::ReadExpr::leaf))]
fn leaf(alloc: Global, constants: Constants, c: &mut Cursor<'_>) -> Result<Boxed<CExpression>, Stop>
    ensures { Reads (spec.leaf (keeps constants) c.old) result c.new }
{
    if c.sees_name() {
        variable(alloc, c)
    } else {
        number(alloc, constants, c)
    }
}

#[tactic(auto, unfolding(crate::specs::ReadExpr::variable))]
fn variable(alloc: Global, c: &mut Cursor<'_>) -> Result<Boxed<CExpression>, Stop>
    ensures { Reads (spec.variable c.old) result c.new }
{
    let name = c.name(alloc)?;
    Ok(Boxed::new(alloc, CExpression::Load(CPlace::Name(name)))?)
}

#[tactic(auto, unfolding(crate::specs::ReadExpr::number))]
fn number(
    alloc: Global,
    constants: Constants,
    c: &mut Cursor<'_>,
) -> Result<Boxed<CExpression>, Stop>
    ensures { Reads (spec.number (keeps constants) c.old) result c.new }
{
    let value = c.constant(constants)?;
    Ok(Boxed::new(alloc, CExpression::Constant(value))?)
}

/// What is loaded, behind its `*`.
#[cycle(expression)]
#[tactic(auto, unfolding(crate::specs::ReadExpr::loaded))]
fn loaded(
    alloc: Global,
    constants: Constants,
    depth: usize,
    c: &mut Cursor<'_>,
) -> Result<Boxed<CExpression>, Stop>
    ensures { Reads (spec.loaded (spec.expression (keeps constants) depth) c.old) result c.new }
{
    let place = pointed(alloc, constants, depth, c)?;
    Ok(Boxed::new(alloc, CExpression::Load(place))?)
}

/// A place, behind its `*`.
#[cycle(expression)]
#[tactic(auto, unfolding(crate::specs::ReadExpr::pointed))]
pub fn pointed(
    alloc: Global,
    constants: Constants,
    depth: usize,
    c: &mut Cursor<'_>,
) -> Result<CPlace, Stop>
    ensures { Reads (spec.pointed (spec.expression (keeps constants) depth) c.old) result c.new }
{
    c.expect(Mark::LeftParen)?;
    let ty = pointed_type(c)?;
    place_at(alloc, constants, depth, ty, c)
}

/// The address of a place, behind its type.
#[cycle(expression)]
#[tactic(auto, unfolding(crate::specs::ReadExpr::place_at))]
fn place_at(
    alloc: Global,
    constants: Constants,
    depth: usize,
    ty: CType,
    c: &mut Cursor<'_>,
) -> Result<CPlace, Stop>
    ensures { Reads (spec.place_at (spec.expression (keeps constants) depth) ty c.old) result c.new }
{
    c.expect(Mark::RightParen)?;
    c.expect(Mark::LeftParen)?;
    let address = expression(alloc, constants, depth, c)?;
    c.expect(Mark::RightParen)?;
    Ok(CPlace::At(ty, address))
}
