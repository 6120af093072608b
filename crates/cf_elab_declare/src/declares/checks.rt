ghost use Rattle.std.specs.Prelude.{◌≡◌, is_some};
ghost use Rattle.cf_elab.specs.Declaration as declaration;
ghost use Rattle.cf_elab.specs.Operand as operand;
ghost use Rattle.cf_elab.specs.Shape.{function_of};
ghost use Rattle.cf_elab_declare.specs.Declares.Shut as shut;
ghost use Rattle.cf_elab_env.specs.Answered.{Agrees};
ghost use Rattle.cf_elab_env.specs.Holds.{IsType};
ghost use Rattle.cf_elab_env.specs.Seen.{sort_seen};
ghost use Rattle.cf_elab_shape.specs.Shapes.Seen.{shape_seen};

use cf_base::{Broken, Rule};
use cf_elab_env::{Env, Sort, Stop};
use cf_elab_shape::Shape;
use cf_elab_specifiers::{Gathered, conflict};
use cf_types::TyId;

/// The specifiers of a declarator at this byte place do not conflict; else K24 at the first in the text that does (7.1).
#[tactic(auto, using(crate::proofs::DeclaresLaws::CheckLaws::conflict_laws))]
pub fn check_conflict(
    env: &Env,
    in_file: bool,
    is_function: bool,
    at: u32,
    gathered: &Gathered,
) -> Result<(), Stop>
    ensures { Agrees (shut.no_conflict in_file is_function at gathered.now env.now) result env.now }
{
    let _env = env;
    match conflict(in_file, is_function, at, gathered) {
        None => Ok(()),
        Some(place) => Err(Stop::Broken(Broken {
            rule: Rule::new(24),
            at: place,
        })),
    }
}

/// Whether a declarator declares a function, behind specifiers that name this type.
pub fn declares_function(env: &Env, base: TyId, shape: &Shape) -> bool
    requires { IsType env.now.types base }
    ensures { result ≡ declaration.declares_function env.now base (shape_seen shape.now) }
{
    has_parameters(shape) || (shape.is_inner() && is_function(env.sort_of(base)))
}

/// Whether the name itself is a function's.
#[tactic(auto, using(crate::proofs::DeclaresLaws::CheckLaws::some_copied))]
fn has_parameters(shape: &Shape) -> bool
    ensures { result ≡ is_some (function_of (shape_seen shape.now)) }
{
    shape.function_of().is_some()
}

pub(crate) fn is_function(sort: Sort) -> bool
    ensures { result ≡ operand.is_function (sort_seen sort) }
{
    matches!(sort, Sort::Function(_))
}

/// No class and no enumeration is defined as the result of a function; else K26 where it is defined (8.2.5).
#[tactic(auto, using(crate::proofs::DeclaresLaws::CheckLaws::definition_laws))]
pub fn check_no_definition(env: &Env, gathered: &Gathered, shape: &Shape) -> Result<(), Stop>
    ensures { Agrees (shut.no_definition gathered.now (shape_seen shape.now) env.now) result env.now }
{
    let _env = env;
    if !has_parameters(shape) {
        return Ok(());
    }
    match defined_at(gathered) {
        None => Ok(()),
        Some(at) => Err(Stop::Broken(Broken {
            rule: Rule::new(26),
            at,
        })),
    }
}

fn defined_at(gathered: &Gathered) -> Option<u32>
    ensures { result ≡ gathered.now.defined_at }
{
    gathered.defined_at
}
