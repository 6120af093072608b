//! What an action gives.

ghost use Rattle.std.specs.Prelude.{◌≡◌, IfOk};
ghost use Rattle.cc_whole.specs.Plain.{expression_of};
ghost use Rattle.cf_lower.specs.Expressions as spec;
ghost use Rattle.cf_lower_held.specs.Scenes.{action_in, holding, locals_in};
ghost use Rattle.cf_lower_types.specs.Bare.{classes_of};

use crate::conversions::{changed, converted, from_void};
use crate::operators::{changed_by, constant_of, operated};
use crate::places::{local_place, place_named};
use crate::pointers::{pointer_operated, sum, tested};
use crate::scalars::{read_value, same_value};
use cc_whole::CExpression;
use cf_base::{Arith, Boxed, Items, Memory, Name};
use cf_lower_held::{Registers, Scene};
use cf_lower_names::{address_of, as_bits, literal_name, load_named, local_name, zero};
use cf_plain::Action;
use std::alloc::Global;

/// The same name in a list of its own.
fn copied(alloc: Global, name: &Name) -> Result<Name, Memory>
    ensures { IfOk result (λ made. made ≡ name.now) }
{
    Items::from_slice(alloc, name.as_slice())
}

/// The expression of what an action gives. Its operands stand in the C locals of their registers.
pub fn value(x: &Scene<'_>, rs: &Registers, a: &Action) -> Result<Boxed<CExpression>, Memory>
    ensures { IfOk result (λ made. expression_of made ≡ spec.value (classes_of x.now.tables.now) x.now.function.now (locals_in x.now) (holding x.now rs.now) (action_in x.now a.now)) }
{
    match a {
        Action::Number { value } => constant_of(x.alloc, *value),
        Action::Text { number, .. } => {
            let name = literal_name(x.alloc, x.function, *number)?;
            let made = address_of(x.alloc, name)?;
            Ok(made)
        }
        Action::Local { number } => local_place(x, *number),
        Action::Static { name, ty } => {
            let name = copied(x.alloc, name)?;
            let made = place_named(x, name, *ty)?;
            Ok(made)
        }
        Action::Function { name, .. } => {
            let name = copied(x.alloc, name)?;
            let made = load_named(x.alloc, name)?;
            Ok(made)
        }
        Action::Read { place } => {
            let made = read_value(x, &rs.get(*place), *place)?;
            Ok(made)
        }
        Action::Dereference { pointer: at } | Action::Decay { array: at } => {
            let made = same_value(x, &rs.get(*at), *at)?;
            Ok(made)
        }
        Action::Index { left, right } => sum(x, rs, *left, *right),
        Action::Convert { ty, operand } => {
            let made = converted(x, *ty, &rs.get(*operand), *operand)?;
            Ok(made)
        }
        Action::FromVoid { operand, .. } => {
            let made = from_void(x.alloc, *operand)?;
            Ok(made)
        }
        Action::Operate {
            op,
            kind,
            left,
            right,
        } => {
            let value = operated(x.alloc, *op, *kind, *left, *right)?;
            let made = as_bits(x.alloc, value)?;
            Ok(made)
        }
        Action::Unary { op, kind, operand } => changed_by(x.alloc, *op, *kind, *operand),
        Action::Truth { operand } => tested(x, Arith::NotEqual, rs, *operand),
        Action::Not { operand } => tested(x, Arith::Equal, rs, *operand),
        Action::PointerOperate { op, left, right } => pointer_operated(x, *op, rs, *left, *right),
        Action::Changed { change, value, by } => changed(x, *change, rs, *value, *by),
        Action::Declare { local, .. } => {
            let name = local_name(x.alloc, *local)?;
            let made = address_of(x.alloc, name)?;
            Ok(made)
        }
        _ => zero(x.alloc),
    }
}
