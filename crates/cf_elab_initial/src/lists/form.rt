ghost use Rattle.std.specs.Prelude.{◌≡◌, ◌<◌};
ghost use Rattle.cf_convert.specs.Constness as constness;
ghost use Rattle.cf_elab.specs.Lists as lists;
ghost use Rattle.cf_elab_env.specs.Holds.{IsType};
ghost use Rattle.cf_elab_initial.specs.Lists.Forms as spec;

use cf_base::Kind;
use cf_elab_env::Env;
use cf_types::{Ty, TyId};

/// The elements of an array.
#[derive(Clone, Copy, Debug, PartialEq, Eq)]
pub(crate) struct Row {
    /// Whether a string literal may initialise it.
    pub is_char: bool,
    /// How many elements it has.
    pub count: u32,
    pub element: TyId,
}

/// What an object of a type is to its initialiser.
#[derive(Clone, Copy, Debug, PartialEq, Eq)]
pub(crate) enum Form {
    /// A scalar of this type.
    Scalar(TyId),
    Array(Row),
}

/// The form of a type, without a const of its own.
#[tactic(auto, using(crate::proofs::ListsLaws::FormLaws::form_laws))]
pub(crate) fn form_of(env: &Env, ty: TyId) -> Form
    requires { IsType env.now.types ty }
    ensures value { result ≡ spec.form_of env.now.types ty }
    ensures known { spec.FormKnown env.now.types ty result }
{
    env.holds();
    match env.type_at(ty) {
        Ty::Array(element, count) => Form::Array(Row {
            is_char: is_char(env, element),
            count,
            element,
        }),
        Ty::Const(inside) => Form::Scalar(inside),
        _ => Form::Scalar(ty),
    }
}

/// Whether an array of such elements may be initialised by a string literal: of one of the types `char`, const or not (8.4.2).
#[tactic(auto, using(crate::proofs::ListsLaws::FormLaws::char_laws))]
pub fn is_char(env: &Env, element: TyId) -> bool
    requires { IsType env.now.types element }
    ensures { result ≡ lists.is_char env.now.types element }
{
    env.holds();
    is_char_type(env.type_at(env.bare(element)))
}

fn is_char_type(ty: Ty) -> bool
    ensures { result ≡ spec.is_char_type ty }
{
    match ty {
        Ty::Int(kind) => is_char_kind(kind),
        _ => false,
    }
}

fn is_char_kind(kind: Kind) -> bool
    ensures { result ≡ lists.is_char_kind kind }
{
    matches!(kind, Kind::Char | Kind::SChar | Kind::UChar)
}
