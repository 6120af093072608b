//! Items, and the unit with its first line.

ghost use Rattle.std.specs.Prelude.{◌≡◌, ◌++◌, OnOk, IfOk, map};
ghost use Rattle.std.specs.List.{concat};
ghost use Rattle.cc_whole_print.specs.Units.{shared_text, parameter_text, parameters_text, prototype_text, extern_text, function_text, variable_item_text, item_text, unit_text};

use crate::initialiser::initialiser;
use crate::lines::{put, put_if, put_number_line, put_spaced};
use crate::statement::body;
use crate::types::{result_type, scalar, variable};
use cc_whole::{CFunction, CItem, CParameter, CPrototype, CUnit, CVariable, CVariableType};
use cc_whole_tokens::Mark;
use cf_base::{Items, Memory};
use std::alloc::Global;

/// `#pragma cf_shared` on a line of its own, where it is shared.
fn shared(out: &mut Vec<u8>, is_shared: bool) -> Result<(), Memory>
    ensures { OnOk result (out.new.items ≡ out.old.items ++ shared_text is_shared) }
{
    if is_shared {
        out.extend_from_slice(b"#pragma cf_shared\n")?;
    }
    Ok(())
}

fn parameter(out: &mut Vec<u8>, one: &CParameter) -> Result<(), Memory>
    ensures { OnOk result (out.new.items ≡ out.old.items ++ parameter_text one.now) }
{
    scalar(out, one.ty, one.name.as_slice())
}

fn parameters(out: &mut Vec<u8>, all: &Items<CParameter>) -> Result<(), Memory>
    ensures { OnOk result (out.new.items ≡ out.old.items ++ parameters_text all.now) }
{
    put_if(out, all.is_empty(), Mark::Void)?;
    for (at, one) in all.as_slice().iter().enumerate() {
        put_if(out, at > 0, Mark::Comma)?;
        parameter(out, one)?;
    }
    Ok(())
}

fn prototype(out: &mut Vec<u8>, head: &CPrototype) -> Result<(), Memory>
    ensures { OnOk result (out.new.items ≡ out.old.items ++ prototype_text head.now) }
{
    put_if(out, head.is_static, Mark::Static)?;
    result_type(out, head.result)?;
    put_spaced(out, head.name.as_slice())?;
    put(out, Mark::LeftParen)?;
    parameters(out, &head.parameters)?;
    put(out, Mark::RightParen)
}

/// A declaration of a variable.
fn declared(out: &mut Vec<u8>, ty: CVariableType, name: &[u8]) -> Result<(), Memory>
    ensures { OnOk result (out.new.items ≡ out.old.items ++ extern_text ty name.now) }
{
    put(out, Mark::Extern)?;
    variable(out, ty, name)?;
    put(out, Mark::Semicolon)
}

fn function(out: &mut Vec<u8>, one: &CFunction) -> Result<(), Memory>
    ensures { OnOk result (out.new.items ≡ out.old.items ++ function_text one.now) }
{
    shared(out, one.is_shared)?;
    prototype(out, &one.prototype)?;
    body(out, &one.body)
}

fn variable_item(out: &mut Vec<u8>, one: &CVariable) -> Result<(), Memory>
    ensures { OnOk result (out.new.items ≡ out.old.items ++ variable_item_text one.now) }
{
    shared(out, one.is_shared)?;
    put_if(out, one.is_static, Mark::Static)?;
    variable(out, one.ty, one.name.as_slice())?;
    initialiser(out, &one.initialiser)?;
    put(out, Mark::Semicolon)
}

fn item(out: &mut Vec<u8>, one: &CItem) -> Result<(), Memory>
    ensures { OnOk result (out.new.items ≡ out.old.items ++ item_text one.now) }
{
    match one {
        CItem::Prototype(head) => {
            prototype(out, head)?;
            put(out, Mark::Semicolon)
        }
        CItem::Extern(ty, name) => declared(out, *ty, name.as_slice()),
        CItem::Function(one) => function(out, one),
        CItem::Variable(one) => variable_item(out, one),
    }
}

/// The text of a unit. It fails only where memory is wanting.
pub fn print(alloc: Global, unit: &CUnit) -> Result<Vec<u8>, Memory>
    ensures { IfOk result (λ text. text.items ≡ unit_text unit.now) }
{
    let mut out = Vec::from_slice(alloc, b"#pragma cfront ")?;
    put_number_line(&mut out, unit.version)?;
    for one in unit.items.as_slice() {
        item(&mut out, one)?;
    }
    Ok(out)
}
