//! What is asked of types. A number that the file's table does not have stands for `void`, so nothing is asked of numbers.

ghost use Rattle.std.specs.Prelude.{◌≡◌, ◌&&◌, ◌^◌, [], length, is_some, map, nat_le};
ghost use Rattle.std.specs.List.{list_all};
ghost use Rattle.cf_types.specs.Table.{Names, NamesBelow};
ghost use Rattle.cf_core.specs.FromTypes.{type_of, type_step};
ghost use Rattle.cf_core.specs.FromUnit.{tables_of};
ghost use Rattle.cf_core.specs.Places as places;
ghost use Rattle.cf_core.specs.Types as types;
ghost use Rattle.cf_lower_kept.specs.Ready as ready;
ghost use Rattle.cf_lower_layout.specs.Layout as layout;
ghost use Rattle.cf_lower_layout.specs.Sorts.{sort_of};
ghost use Rattle.cf_lower_program.specs.Types as lowered;
ghost use Rattle.cf_sequence_lowered.specs.Types as asked;
ghost use Rattle.cf_lowerable_core.specs.Looks as looks;

use cf_core::CoreUnit;
use cf_types::{Ty, TyId};

/// The type of this number, as the table has it; `void` where the table has none.
#[tactic(auto, using(cf_lower_types::proofs::Entries::no_names))]
fn entry(unit: &CoreUnit, id: TyId) -> Ty
    ensures value { type_of (tables_of unit.now) id ≡ type_step (tables_of unit.now) (type_of (tables_of unit.now)) result }
    ensures named { Names unit.now.types.funs id (length unit.now.types.funs) result }
    ensures earlier { NamesBelow id result }
{
    if (id.number() as usize) < unit.types().count() {
        *unit.ty(id)
    } else {
        Ty::Void
    }
}

/// Whether it is a function's, const or not.
pub(crate) fn is_code(unit: &CoreUnit, id: TyId) -> bool
    ensures { result ≡ ready.is_code (type_of (tables_of unit.now) id) }
{
    match entry(unit, id) {
        Ty::Fun(_) => true,
        Ty::Const(inner) => is_code(unit, inner),
        _ => false,
    }
}

/// Whether it is `void`, const or not.
pub(crate) fn is_void(unit: &CoreUnit, id: TyId) -> bool
    ensures { result ≡ types.is_void (type_of (tables_of unit.now) id) }
{
    match entry(unit, id) {
        Ty::Void => true,
        Ty::Const(inner) => is_void(unit, inner),
        Ty::Fun(_) => false,
        _ => false,
    }
}

/// Whether it is a reference, const or not.
fn is_reference(unit: &CoreUnit, id: TyId) -> bool
    ensures { result ≡ places.is_reference (type_of (tables_of unit.now) id) }
{
    match entry(unit, id) {
        Ty::Ref(_) => true,
        Ty::Const(inner) => is_reference(unit, inner),
        _ => false,
    }
}

/// Whether const stands on it.
fn is_const(unit: &CoreUnit, id: TyId) -> bool
    ensures { result ≡ places.is_const (type_of (tables_of unit.now) id) }
{
    match entry(unit, id) {
        Ty::Const(_) => true,
        _ => false,
    }
}

/// Whether no const stands on a reference (8.4.3).
pub(crate) fn names_well(unit: &CoreUnit, id: TyId) -> bool
    ensures { result ≡ ready.names_well (type_of (tables_of unit.now) id) }
{
    match entry(unit, id) {
        Ty::Const(inner) => !is_reference(unit, inner),
        _ => true,
    }
}

/// Whether an object of this type is a scalar that is lowered.
fn is_scalar(unit: &CoreUnit, id: TyId) -> bool
    ensures { result ≡ is_some (sort_of (type_of (tables_of unit.now) id)) }
{
    match entry(unit, id) {
        Ty::Int(_) => true,
        Ty::Enum(_) => true,
        Ty::Ptr(_) => true,
        Ty::Ref(_) => true,
        Ty::Const(inner) => is_scalar(unit, inner),
        _ => false,
    }
}

/// Whether an object of this type takes bytes: no array has no element, and of classes this is not said yet.
fn has_bytes(unit: &CoreUnit, id: TyId) -> bool
    ensures { result ≡ layout.has_bytes (type_of (tables_of unit.now) id) }
{
    match entry(unit, id) {
        Ty::Class(_) => false,
        Ty::Array(element, count) => {
            if count == 0 {
                return false;
            }
            has_bytes(unit, element)
        }
        Ty::Const(inner) => has_bytes(unit, inner),
        _ => true,
    }
}

/// Whether no const stands directly on const in it, nor in the type of its elements.
fn const_once(unit: &CoreUnit, id: TyId) -> bool
    ensures { result ≡ layout.const_once (type_of (tables_of unit.now) id) }
{
    match entry(unit, id) {
        Ty::Array(element, _) => const_once(unit, element),
        Ty::Const(inner) => {
            if is_const(unit, inner) {
                return false;
            }
            const_once(unit, inner)
        }
        _ => true,
    }
}

/// Whether objects of this type are laid out. None of a file without classes is too large.
#[tactic(auto, using(crate::proofs::Sizes::laid_by_form))]
pub(crate) fn is_laid(unit: &CoreUnit, id: TyId) -> bool
    requires { unit.now.classes.defined ≡ [] }
    ensures { result ≡ lowered.is_laid (type_of (tables_of unit.now) id) }
{
    let _valid = unit.functions();
    has_bytes(unit, id) && const_once(unit, id)
}

/// Whether there is no pointer to a member in it, each array in it is laid out, and no const stands on a function (7.1.6).
pub(crate) fn is_lowered(unit: &CoreUnit, id: TyId) -> bool
    requires { unit.now.classes.defined ≡ [] }
    ensures { result ≡ lowered.is_lowered (type_of (tables_of unit.now) id) }
{
    match entry(unit, id) {
        Ty::Ptr(target) => is_lowered(unit, target),
        Ty::Ref(target) => is_lowered(unit, target),
        Ty::Array(element, _) => {
            if !is_laid(unit, id) {
                return false;
            }
            is_lowered(unit, element)
        }
        Ty::Fun(function) => {
            let fun = unit.fun(function);
            for parameter in fun.params.as_slice() {
                if !is_lowered(unit, *parameter) {
                    return false;
                }
            }
            is_lowered(unit, fun.result)
        }
        Ty::MemData(_, _) => false,
        Ty::MemFun(_, _) => false,
        Ty::Const(inner) => {
            if is_code(unit, inner) {
                return false;
            }
            is_lowered(unit, inner)
        }
        _ => true,
    }
}

/// The types of the parameters of a function of this type; none of another type.
pub(crate) fn parameters<'a>(unit: &'a CoreUnit, id: TyId) -> &'a [TyId]
    ensures { map (type_of (tables_of unit.now)) result.now ≡ types.parameters (type_of (tables_of unit.now) id) }
{
    match entry(unit, id) {
        Ty::Fun(function) => unit.fun(function).params.as_slice(),
        _ => &[],
    }
}

/// Whether these are scalars.
fn are_scalars(unit: &CoreUnit, ids: &[TyId]) -> bool
    ensures { result ≡ list_all (λ p. is_some (sort_of p)) (map (type_of (tables_of unit.now)) ids.now) }
{
    for id in ids {
        if !is_scalar(unit, *id) {
            return false;
        }
    }
    true
}

/// Whether objects of these types are laid out.
fn are_laid(unit: &CoreUnit, ids: &[TyId]) -> bool
    requires { unit.now.classes.defined ≡ [] }
    ensures { result ≡ list_all lowered.is_laid (map (type_of (tables_of unit.now)) ids.now) }
{
    for id in ids {
        if !is_laid(unit, *id) {
            return false;
        }
    }
    true
}

/// Whether an object may be of this type.
pub(crate) fn is_of_object(unit: &CoreUnit, id: TyId) -> bool
    requires { unit.now.classes.defined ≡ [] }
    ensures { result ≡ asked.is_of_object (type_of (tables_of unit.now) id) }
{
    is_lowered(unit, id) && is_laid(unit, id)
}

/// Whether a static object may be of this type.
pub(crate) fn is_of_static(unit: &CoreUnit, id: TyId) -> bool
    requires { unit.now.classes.defined ≡ [] }
    ensures { result ≡ asked.is_of_static (type_of (tables_of unit.now) id) }
{
    is_lowered(unit, id) && is_laid(unit, id) && !is_code(unit, id)
}

/// Whether these types are lowered.
fn are_lowered(unit: &CoreUnit, ids: &[TyId]) -> bool
    requires { unit.now.classes.defined ≡ [] }
    ensures { result ≡ list_all lowered.is_lowered (map (type_of (tables_of unit.now)) ids.now) }
{
    for id in ids {
        if !is_lowered(unit, *id) {
            return false;
        }
    }
    true
}

/// Whether there are no more of them than numbers of 64 bits, as is always so.
fn are_few(ids: &[TyId]) -> bool
    ensures { result ≡ nat_le (length ids.now) (2 ^ 64) }
{
    let _count = ids.len();
    true
}

/// Whether parameters of these types, and a result of this one, are lowered.
fn parts_are_lowered(unit: &CoreUnit, ids: &[TyId], given: TyId) -> bool
    requires { unit.now.classes.defined ≡ [] }
    ensures { result ≡ (list_all lowered.is_lowered (map (type_of (tables_of unit.now)) ids.now) && lowered.is_lowered (type_of (tables_of unit.now) given)) }
{
    are_lowered(unit, ids) && is_lowered(unit, given)
}

/// Whether a function gives a scalar or nothing, by the type of its result.
fn gives_scalar(unit: &CoreUnit, given: TyId) -> bool
    ensures { result ≡ looks.gives_scalar (type_of (tables_of unit.now) given) }
{
    is_void(unit, given) || is_scalar(unit, given)
}

/// Whether a function takes scalars.
fn takes_scalars(unit: &CoreUnit, ids: &[TyId]) -> bool
    ensures { result ≡ looks.takes_scalars (map (type_of (tables_of unit.now)) ids.now) }
{
    are_few(ids) && are_scalars(unit, ids)
}

/// Whether it takes and gives scalars.
fn parts_are_scalars(unit: &CoreUnit, ids: &[TyId], given: TyId) -> bool
    ensures { result ≡ looks.parts_are_scalars (map (type_of (tables_of unit.now)) ids.now) (type_of (tables_of unit.now) given) }
{
    takes_scalars(unit, ids) && gives_scalar(unit, given)
}

/// Whether it takes and gives scalars, and the objects of its parameters are laid out.
fn parts_are_laid(unit: &CoreUnit, ids: &[TyId], given: TyId) -> bool
    requires { unit.now.classes.defined ≡ [] }
    ensures { result ≡ looks.parts_are_laid (map (type_of (tables_of unit.now)) ids.now) (type_of (tables_of unit.now) given) }
{
    parts_are_scalars(unit, ids, given) && are_laid(unit, ids)
}

/// Whether a function of parameters of these types, which gives this one, may be named or called.
pub(crate) fn signature_fits(unit: &CoreUnit, ids: &[TyId], given: TyId) -> bool
    requires { unit.now.classes.defined ≡ [] }
    ensures { result ≡ looks.signature_looks (map (type_of (tables_of unit.now)) ids.now) (type_of (tables_of unit.now) given) }
{
    parts_are_lowered(unit, ids, given) && parts_are_laid(unit, ids, given)
}

/// Whether a function that is named or called may be of this type.
pub(crate) fn is_of_function(unit: &CoreUnit, id: TyId) -> bool
    requires { unit.now.classes.defined ≡ [] }
    ensures { result ≡ asked.is_of_function (type_of (tables_of unit.now) id) }
{
    match entry(unit, id) {
        Ty::Fun(function) => {
            let fun = unit.fun(function);
            signature_fits(unit, fun.params.as_slice(), fun.result)
        }
        _ => is_lowered(unit, id),
    }
}
