//! Definitions behind their specifiers and their declarators (8.3).

ghost use Rattle.std.specs.Prelude.{◌≡◌, None, Some, List, IfOk, IfSome, OnOk};
ghost use Rattle.cf_elab.specs.Built.{of_name};
ghost use Rattle.cf_elab.specs.Operand.{sort_of};
ghost use Rattle.cf_elab.specs.Shape.{Parameter, function_of};
ghost use Rattle.cf_elab_unit.specs.Body.Shut as body_of;
ghost use Rattle.cf_elab_env.specs.Answered.{Agrees};
ghost use Rattle.cf_elab_env.specs.Holds.{Grows, IsFunctionSort, IsType};
ghost use Rattle.cf_elab_shape.specs.Shapes.Holds.{IsShape};
ghost use Rattle.cf_elab_shape.specs.Shapes.Seen.{shape_seen};
ghost use Rattle.cf_elab_unit.specs.Definitions.Shut as shut;

use crate::body::{check_no_definition, declare_function, declares_function};
use crate::definitions::bodies::define_function;
use crate::definitions::checks::check_conflict;
use cf_base::{Broken, Rule};
use cf_elab_env::{Env, Stop};
use cf_elab_limits::check_types;
use cf_elab_shape::{Position, Shape, check_bounds, typed};
use cf_elab_specifiers::{Gathered, base_type};
use cf_syntax::Name;
use cf_types::TyId;
use cf_unit::Stmt;

/// A function that is defined, by what its specifiers say, its declarator with its place, and its name: K24 at a specifier that conflicts; K26 at a
/// type that is defined as its result, at a type that can't be made, and where it names no function; K19 at a bound; the checks of its declaration;
/// the limit on sizes, for types that were made since there were so many; and then its body, with the place of its `{`.
#[tactic(auto, using(crate::proofs::DefinitionsLaws::NamedLaws::named_laws))]
pub(crate) fn define_named(
    body: &[Stmt],
    body_at: u32,
    count: usize,
    gathered: &Gathered,
    at: u32,
    shape: &Shape,
    name: &Name,
    env: &mut Env,
) -> Result<(), Stop>
    requires built { body_of.AreBuilt body.now }
    requires name { of_name name.now ≡ None }
    requires named { IfSome gathered.now.named (λ t. IsType env.old.types t) }
    requires shape { IsShape env.old.types (shape_seen shape.now) }
    ensures made { Agrees (shut.named count gathered.now at (shape_seen shape.now) name.now body_at body.now env.old) result env.new }
    ensures grows { OnOk result (Grows env.old.types env.new.types) }
{
    let ty = function_typed(env, gathered, at, shape)?;
    define_shape(body, body_at, count, gathered, shape, name, ty, env)?;
    Ok(())
}

/// The type that is declared.
#[tactic(auto, using(crate::proofs::DefinitionsLaws::NamedLaws::typed_laws))]
fn function_typed(env: &mut Env, gathered: &Gathered, at: u32, shape: &Shape) -> Result<TyId, Stop>
    requires named { IfSome gathered.now.named (λ t. IsType env.old.types t) }
    requires shape { IsShape env.old.types (shape_seen shape.now) }
    ensures made { Agrees (shut.function_typed gathered.now at (shape_seen shape.now) env.old) result env.new }
    ensures known { IfOk result (λ t. IsType env.new.types t) }
    ensures function { IfOk result (λ t. (ps : List Parameter) → function_of (shape_seen shape.now) ≡ Some ps → IsFunctionSort (sort_of env.new.types t)) }
    ensures grows { OnOk result (Grows env.old.types env.new.types) }
{
    let base = base_type(env, gathered)?;
    let is_function = declares_function(env, base, shape);
    check_conflict(env, is_function, at, gathered)?;
    check_no_definition(env, gathered, shape)?;
    let position = Position {
        unbounded: false,
        const_function: false,
    };
    let shaped = typed(env, position, shape, base)?;
    Ok(shaped.ty())
}

/// Behind its type: K26 where it names no function, K19 at a bound that is no constant, and the limit on sizes before the body.
#[tactic(auto, using(crate::proofs::DefinitionsLaws::NamedLaws::shape_laws))]
fn define_shape(
    body: &[Stmt],
    body_at: u32,
    count: usize,
    gathered: &Gathered,
    shape: &Shape,
    name: &Name,
    ty: TyId,
    env: &mut Env,
) -> Result<(), Stop>
    requires built { body_of.AreBuilt body.now }
    requires name { of_name name.now ≡ None }
    requires shape { IsShape env.old.types (shape_seen shape.now) }
    requires known { IsType env.old.types ty }
    requires function { (ps : List Parameter) → function_of (shape_seen shape.now) ≡ Some ps → IsFunctionSort (sort_of env.old.types ty) }
    ensures made { Agrees (shut.define_shape count gathered.now (shape_seen shape.now) name.now ty body_at body.now env.old) result env.new }
    ensures grows { OnOk result (Grows env.old.types env.new.types) }
{
    match shape.function_of() {
        None => Err(Stop::Broken(Broken {
            rule: Rule::new(26),
            at: name.last_at,
        })),
        Some(parameters) => {
            check_bounds(env, shape)?;
            let number = declare(env, gathered, shape, name, ty)?;
            check_types(env, count)?;
            define_function(body, body_at, parameters.as_slice(), number, env)?;
            Ok(())
        }
    }
}

/// The function is declared, with a body: its number.
#[tactic(auto, using(crate::proofs::DefinitionsLaws::NamedLaws::declare_laws))]
fn declare(
    env: &mut Env,
    gathered: &Gathered,
    shape: &Shape,
    name: &Name,
    ty: TyId,
) -> Result<u32, Stop>
    requires name { of_name name.now ≡ None }
    requires shape { IsShape env.old.types (shape_seen shape.now) }
    requires known { IsType env.old.types ty }
    requires function { IsFunctionSort (sort_of env.old.types ty) }
    ensures made { Agrees (shut.declare gathered.now (shape_seen shape.now) name.now ty env.old) result env.new }
    ensures grows { OnOk result (Grows env.old.types env.new.types) }
{
    let int = env.int()?;
    let number = declare_function(env, int, gathered, name, shape, ty, true, false)?;
    Ok(number)
}
