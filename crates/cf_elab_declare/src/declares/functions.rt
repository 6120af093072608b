ghost use Rattle.std.specs.Prelude.{◌≡◌, None, [], false, IfOk, OnOk, bytes_eq, codes, if◌then◌else◌};
ghost use Rattle.cf_elab.specs.Built.{of_name};
ghost use Rattle.cf_elab.specs.Declaration as declaration;
ghost use Rattle.cf_elab.specs.Operand.{sort_of};
ghost use Rattle.cf_elab.specs.Shape.{Shape as Shaping};
ghost use Rattle.cf_elab_declare.specs.Declares.Shut as shut;
ghost use Rattle.cf_elab_env.specs.Answered.{Agrees};
ghost use Rattle.cf_elab_env.specs.Holds.{Grows, IsFunctionSort, IsType};
ghost use Rattle.cf_elab_functions.specs.Seen.{says_seen};
ghost use Rattle.cf_elab_functions.specs.Shut as functions;
ghost use Rattle.cf_elab_shape.specs.Shapes.Holds.{IsShape};
ghost use Rattle.cf_elab_shape.specs.Shapes.Seen.{shape_seen};

use crate::declares::names::identifier;
use cf_base::{Memory, Name};
use cf_elab_env::{Env, Stop};
use cf_elab_functions::{Called, Says, declare_function as declare_said};
use cf_elab_shape::Shape;
use cf_elab_specifiers::Gathered;
use cf_syntax::Name as WrittenName;
use cf_types::TyId;
use std::alloc::Global;

/// A declaration of a function of this name and type without a body. An initialiser that stands behind it is looked at later (8.2.5).
#[tactic(auto, using(crate::proofs::DeclaresLaws::FunctionLaws::row_laws))]
pub fn function_declared(
    env: &mut Env,
    gathered: &Gathered,
    name: &WrittenName,
    shape: &Shape,
    ty: TyId,
    is_initialised: bool,
) -> Result<(), Stop>
    requires built { of_name name.now ≡ None }
    requires known { IsType env.old.types ty }
    requires function { IsFunctionSort (sort_of env.old.types ty) }
    requires shape_known { IsShape env.old.types (shape_seen shape.now) }
    ensures made { Agrees (shut.function_declared gathered.now name.now ty (shape_seen shape.now) is_initialised env.old) result env.new }
    ensures grows { OnOk result (Grows env.old.types env.new.types) }
{
    let int = env.int()?;
    let _number = declare_function(env, int, gathered, name, shape, ty, false, is_initialised)?;
    Ok(())
}

/// A function of this name and type is declared, with a body or without, and with an initialiser behind it or without: its number. The type `int` is given.
pub fn declare_function(
    env: &mut Env,
    int: TyId,
    gathered: &Gathered,
    name: &WrittenName,
    shape: &Shape,
    ty: TyId,
    defines: bool,
    is_initialised: bool,
) -> Result<u32, Stop>
    requires built { of_name name.now ≡ None }
    requires known { IsType env.old.types ty }
    requires function { IsFunctionSort (sort_of env.old.types ty) }
    requires shape_known { IsShape env.old.types (shape_seen shape.now) }
    ensures made { Agrees (functions.declare_function int (declaration.function_says gathered.now name.now ty (shape_seen shape.now) defines is_initialised) env.old) result env.new }
    ensures types { env.new.types ≡ env.old.types }
{
    env.holds();
    let _parameters = shape;
    let says = function_says(env.alloc(), gathered, name, ty, defines, is_initialised)?;
    let number = declare_said(env, int, &says)?;
    Ok(number)
}

/// How a declaration says a function of this name and type, whose parameters don't matter.
fn function_says(
    alloc: Global,
    gathered: &Gathered,
    name: &WrittenName,
    ty: TyId,
    defines: bool,
    is_initialised: bool,
) -> Result<Says, Memory>
    requires { of_name name.now ≡ None }
    ensures typed { IfOk result (λ says. says.ty ≡ ty) }
    ensures value { IfOk result (λ says. (s : Shaping) → says_seen says ≡ record (declaration.function_says gathered.now name.now ty s defines is_initialised) { parameters = [] }) }
{
    let own = identifier(name);
    Ok(Says {
        name: Name::from_slice(alloc, own.as_slice())?,
        called: called_as(own.as_slice()),
        at: name.last_at,
        ty,
        is_static: gathered.is_static(),
        is_inline: gathered.inline_at.is_some(),
        defines,
        is_initialised,
    })
}

fn called_as(name: &[u8]) -> Called
    ensures { result ≡ (if bytes_eq name.now (codes "main") then Called.Main else Called.Plain) }
{
    if name == b"main".as_slice() {
        Called::Main
    } else {
        Called::Plain
    }
}
