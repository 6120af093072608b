ghost use Rattle.std.specs.Prelude.{◌≡◌, true, map, IfOk};
ghost use Rattle.cf_core.specs.FromUnit.{tables_of};
ghost use Rattle.cf_core.specs.Numbers.{function_known};
ghost use Rattle.cf_sequence_fn.specs.Functions as spec;
ghost use Rattle.cf_sequence_fn.specs.Functions.{opens_from, written_body, written_function};
ghost use Rattle.cf_sequence_expr.specs.declared.writing.Writing.{Writing};
ghost use Rattle.cf_sequence_stmt.specs.declared.body.Body.{Body};

use cf_base::{Items, Memory};
use cf_core::{CoreFn, CoreUnit};
use cf_plain::{Plain, PlainFn};
use cf_sequence_expr::{Writing, add_locals, behind, beyond, copied};
use cf_sequence_stmt::{Body, Open, Ways, statement};
use cf_types::TyId;
use std::alloc::Global;

/// The objects of parameters of these types, which are numbered from the first.
fn open_parameters(alloc: Global, parameters: &[TyId]) -> Result<Items<Open>, Memory>
    ensures { IfOk result (λ made. made ≡ opens_from 0 parameters.now) }
{
    let mut open = Items::new(alloc);
    let mut number = 0;
    for ty in parameters {
        open.push(Open { number, ty: *ty })?;
        number = behind(number)?;
    }
    Ok(open)
}

/// A body of which nothing is written yet: its parameters are there, and the locals that are added come behind the function's own.
#[tactic(auto, using(crate::proofs::Openings::none_before))]
fn begun(alloc: Global, f: &CoreFn) -> Result<Body, Memory>
    ensures { IfOk result (λ b. b ≡ spec.begun alloc f.now) }
{
    let scope = open_parameters(alloc, f.params.as_slice())?;
    let next = beyond(beyond(0, f.params.len())?, f.locals.len())?;
    Ok(Body {
        writing: Writing {
            alloc,
            code: Items::new(alloc),
            next,
        },
        scope,
    })
}

/// The statements of a function's body. Where it flows off its end, its parameters and locals end, the newest first (6.6.3).
#[tactic(auto, unfolding(crate::specs::Functions::written_body))]
fn body(alloc: Global, unit: &CoreUnit, f: &CoreFn) -> Result<Items<Plain>, Memory>
    requires { function_known (tables_of unit.now) f.now ≡ true }
    ensures { IfOk result (λ made. made ≡ Writing.code (Body.writing (written_body unit.now.types alloc f.now))) }
{
    let mut b = begun(alloc, f)?;
    let ways = Ways {
        breaks: b.scope.len(),
        continues: b.scope.len(),
    };
    statement(unit, &f.body, ways, &mut b)?;
    b.leave(0)?;
    let Body { writing, .. } = b;
    let Writing { code, .. } = writing;
    Ok(code)
}

/// The types of a function's locals, with those that are added.
fn locals(alloc: Global, unit: &CoreUnit, f: &CoreFn) -> Result<Items<TyId>, Memory>
    requires { function_known (tables_of unit.now) f.now ≡ true }
    ensures { IfOk result (λ made. made ≡ spec.written_locals unit.now.types f.now) }
{
    let mut types = Items::from_slice(alloc, f.locals.as_slice())?;
    add_locals(unit, &f.body, &mut types)?;
    Ok(types)
}

/// A function as plain statements. What is not built yet writes nothing.
#[tactic(auto, unfolding(crate::specs::Functions::written_function))]
pub fn function(alloc: Global, unit: &CoreUnit, f: &CoreFn) -> Result<PlainFn, Memory>
    requires { function_known (tables_of unit.now) f.now ≡ true }
    ensures { IfOk result (λ made. made ≡ written_function unit.now.types alloc f.now) }
{
    let name = copied(alloc, &f.name)?;
    let params = Items::from_slice(alloc, f.params.as_slice())?;
    let locals = locals(alloc, unit, f)?;
    let body = body(alloc, unit, f)?;
    Ok(PlainFn {
        name,
        role: f.role,
        result: f.result,
        params,
        locals,
        body,
        is_shared: f.is_shared,
        is_local: f.is_local,
    })
}

/// The functions of a file as plain statements, in order.
pub fn functions(alloc: Global, unit: &CoreUnit) -> Result<Items<PlainFn>, Memory>
    ensures { IfOk result (λ made. made ≡ map (written_function unit.now.types alloc) unit.now.functions) }
{
    let mut made = Items::new(alloc);
    for f in unit.functions() {
        made.push(function(alloc, unit, f)?)?;
    }
    Ok(made)
}
