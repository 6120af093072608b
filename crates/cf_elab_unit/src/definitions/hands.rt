//! The function at hand in a body.

ghost use Rattle.std.specs.Prelude.{◌≡◌, ◌<◌, Some, length, slice_get, IfOk, if◌then◌else◌};
ghost use Rattle.cf_elab.specs.Env.{main_body, plain_body};
ghost use Rattle.cf_elab.specs.Names.{is_main};
ghost use Rattle.cf_elab_env.specs.Holds.{IsType};
ghost use Rattle.cf_elab_env.specs.Seen.{kind_seen};
ghost use Rattle.cf_elab_unit.specs.Body.CallSignatures as signatures;
ghost use Rattle.cf_elab_unit.specs.Definitions.Shut as shut;

use crate::definitions::parameters::own_types;
use cf_base::{Memory, Name};
use cf_elab_env::{Asker, BodyKind, Env, FunctionEntry, Hand, Sort};
use cf_elab_shape::Parameter;
use cf_types::{Fun, FunId, TyId};
use std::alloc::Global;

/// The result of the function of this entry.
pub(crate) fn result_of(env: &Env, entry: &FunctionEntry) -> TyId
    requires { IsType env.now.types entry.now.type }
    ensures value { result ≡ signatures.result_at env.now.types entry.now.type }
    ensures known { IsType env.now.types result }
{
    result_at(env, entry.ty)
}

/// The result of a function of this type; of another type the first.
fn result_at(env: &Env, ty: TyId) -> TyId
    requires { IsType env.now.types ty }
    ensures value { result ≡ signatures.result_at env.now.types ty }
    ensures known { IsType env.now.types result }
{
    env.holds();
    match env.sort_of(ty) {
        Sort::Function(number) => {
            let fun = fun_at(env, number);
            fun.result
        }
        _ => TyId::new(0),
    }
}

/// The function type of this number.
fn fun_at(env: &Env, number: FunId) -> &Fun
    requires { number < length env.now.types.funs }
    ensures { slice_get env.now.types.funs number ≡ Some result.now }
{
    env.types().get_fun(number)
}

/// A body's function with these parameters and this result, before its first statement.
pub(crate) fn hand_of(
    alloc: Global,
    entry: &FunctionEntry,
    returned: TyId,
    parameters: &[Parameter],
) -> Result<Hand, Memory>
    ensures { IfOk result (λ h. h ≡ shut.hand_of entry.now returned parameters.now) }
{
    Ok(Hand {
        link: Name::from_slice(alloc, entry.link.as_slice())?,
        kind: kind_of(entry.link.as_slice()),
        asker: Asker {
            name: Name::from_slice(alloc, entry.name.as_slice())?,
            ty: entry.ty.number(),
        },
        result: returned.number(),
        locals: own_types(alloc, parameters)?,
        literals: 0,
        statics: 0,
        breaks: false,
        continues: false,
    })
}

/// What kind of body a function of this link name has (3.4).
fn kind_of(link: &[u8]) -> BodyKind
    ensures { kind_seen result ≡ (if is_main link.now then main_body else plain_body) }
{
    if link == b"__main".as_slice() {
        BodyKind::Main
    } else {
        BodyKind::Plain
    }
}

/// The types of the objects that it has so far: its parameters, and then its locals.
pub(crate) fn objects_at(hand: &Hand) -> &[TyId]
    ensures { result.now ≡ hand.now.locals }
{
    hand.locals.as_slice()
}
