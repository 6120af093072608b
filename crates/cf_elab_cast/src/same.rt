ghost use Rattle.std.specs.Prelude.{◌≡◌, ◌==◌, ◌<◌, length};
ghost use Rattle.cf_convert.specs.Constness.{type_at, bare};
ghost use Rattle.cf_core.specs.Types.{kind_number};
ghost use Rattle.cf_elab_cast.specs.Same as spec;
ghost use Rattle.cf_elab_env.specs.Holds.{IsType};

use cf_base::Kind;
use cf_elab_env::Env;
use cf_types::{FunId, Ty, TyId};

/// Two types are the same otherwise than in const if this is so.
enum SameIf {
    Known(bool),
    /// The enumerations of these numbers have one name.
    Enums(u32, u32),
    /// These types are the same.
    Types(TyId, TyId),
    /// These types of functions are the same.
    Functions(FunId, FunId),
}

/// Whether two types are the same otherwise than in const, at every level. Two enumerations without a name count as one.
pub fn same_types(env: &Env, id: TyId, other: TyId) -> bool
    requires first { IsType env.now.types id }
    requires second { IsType env.now.types other }
    ensures { result ≡ spec.same env.now id other }
{
    match compared(env, id, other) {
        SameIf::Known(is_same) => is_same,
        SameIf::Enums(e, f) => same_enums(env, e, f),
        SameIf::Types(t, u) => same_types(env, t, u),
        SameIf::Functions(f, g) => {
            let types = env.types();
            let f = types.get_fun(f);
            let g = types.get_fun(g);
            if f.params.len() != g.params.len() {
                return false;
            }
            for i in 0..f.params.len() {
                if !same_types(env, f.params.as_slice()[i], g.params.as_slice()[i]) {
                    return false;
                }
            }
            same_types(env, f.result, g.result)
        }
    }
}

/// When two types are the same, by what they are made of.
fn compared(env: &Env, id: TyId, other: TyId) -> SameIf
    requires first { IsType env.now.types id }
    requires second { IsType env.now.types other }
    ensures value { spec.answered env.now result ≡ spec.same env.now id other }
    ensures below { spec.Below env.now id other result }
{
    env.holds();
    let ty = env.type_at(env.bare(id));
    let with = env.type_at(env.bare(other));
    same_if(ty, with)
}

/// When two types are the same that are neither const nor a class.
fn same_if(ty: Ty, other: Ty) -> SameIf
    ensures { result ≡ spec.same_if ty other }
{
    match ty {
        Ty::Void => SameIf::Known(matches!(other, Ty::Void)),
        Ty::Int(k) => integer(k, other),
        Ty::Enum(e) => enumeration(e, other),
        Ty::Ptr(t) => pointer(t, other),
        Ty::Ref(t) => reference(t, other),
        Ty::Array(t, n) => array(t, n, other),
        Ty::Fun(f) => function(f, other),
        _ => SameIf::Known(false),
    }
}

fn integer(k: Kind, other: Ty) -> SameIf
    ensures { result ≡ spec.same_if (Ty.Int k) other }
{
    match other {
        Ty::Int(l) => SameIf::Known(same_kinds(k, l)),
        _ => SameIf::Known(false),
    }
}

fn same_kinds(k: Kind, l: Kind) -> bool
    ensures { result ≡ (kind_number k == kind_number l) }
{
    k == l
}

fn enumeration(e: u32, other: Ty) -> SameIf
    ensures { result ≡ spec.same_if (Ty.Enum e) other }
{
    match other {
        Ty::Enum(f) => SameIf::Enums(e, f),
        _ => SameIf::Known(false),
    }
}

fn pointer(t: TyId, other: Ty) -> SameIf
    ensures { result ≡ spec.same_if (Ty.Ptr t) other }
{
    match other {
        Ty::Ptr(u) => SameIf::Types(t, u),
        _ => SameIf::Known(false),
    }
}

fn reference(t: TyId, other: Ty) -> SameIf
    ensures { result ≡ spec.same_if (Ty.Ref t) other }
{
    match other {
        Ty::Ref(u) => SameIf::Types(t, u),
        _ => SameIf::Known(false),
    }
}

fn array(t: TyId, n: u32, other: Ty) -> SameIf
    ensures { result ≡ spec.same_if (Ty.Array t n) other }
{
    match other {
        Ty::Array(u, m) => {
            if n == m {
                SameIf::Types(t, u)
            } else {
                SameIf::Known(false)
            }
        }
        _ => SameIf::Known(false),
    }
}

fn function(f: FunId, other: Ty) -> SameIf
    ensures { result ≡ spec.same_if (Ty.Fun f) other }
{
    match other {
        Ty::Fun(g) => SameIf::Functions(f, g),
        _ => SameIf::Known(false),
    }
}

/// Whether two enumerations have one name.
fn same_enums(env: &Env, e: u32, f: u32) -> bool
    requires first { e < length env.now.classes.enums }
    requires second { f < length env.now.classes.enums }
    ensures { result ≡ spec.same_enums env.now e f }
{
    let classes = env.classes();
    let name = &classes.enum_label(e).name;
    let other = &classes.enum_label(f).name;
    name.as_slice() == other.as_slice()
}
