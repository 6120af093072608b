//! What a node is by its form: a place, a pointer, or neither.

ghost use Rattle.std.specs.Prelude.{◌≡◌, Some, map, slice_get};
ghost use Rattle.cf_core.specs.FromTypes.{Tables, type_of, type_step};
ghost use Rattle.cf_core.specs.FromUnit.{tables_of};
ghost use Rattle.cf_core.specs.Types as types;
ghost use Rattle.cf_core.specs.Typing as typing;
ghost use Rattle.cf_core_nodes.specs.Views.{view, viewed};
ghost use Rattle.cf_core_sound.specs.Forms as spec;
ghost use Rattle.cf_core_sound.specs.Simple as simple;
ghost use Rattle.cf_sound.specs.Asked as asked;
ghost use Rattle.cf_sound.specs.Forms.{told_type, form_of};

use crate::types::{entry, is_function, leads_to_void, plain};
use cf_core::{Core, CoreUnit, PointerOperator};
use cf_types::{Ty, TyId};

/// A type that the form of a node tells.
#[derive(Clone, Copy)]
pub(crate) enum Told {
    /// One of the file's table.
    Listed(TyId),
    /// That of a literal of so many bytes.
    Text(usize),
    /// That of a character of a literal.
    Character,
}

/// A place of a type, or a pointer to one.
#[derive(Clone, Copy)]
pub(crate) enum Form {
    Other,
    Place(Told),
    Pointer(Told),
}

/// Whether it is a function's type.
fn is_code(unit: &CoreUnit, told: Told) -> bool
    ensures { result ≡ typing.is_function (told_type (tables_of unit.now) told) }
{
    match told {
        Told::Listed(id) => is_function(unit, id),
        Told::Text(_) => false,
        Told::Character => false,
    }
}

/// A value of this type of the table.
fn value_of(unit: &CoreUnit, id: TyId) -> Form
    ensures { form_of (tables_of unit.now) result ≡ spec.valued (type_of (tables_of unit.now) id) }
{
    match entry(unit, id) {
        Ty::Ptr(target) => Form::Pointer(Told::Listed(target)),
        _ => Form::Other,
    }
}

/// What a name of this type stands for.
fn named(unit: &CoreUnit, id: TyId) -> Form
    ensures { form_of (tables_of unit.now) result ≡ spec.named (Some (type_of (tables_of unit.now) id)) }
{
    match entry(unit, id) {
        Ty::Ref(target) => Form::Place(Told::Listed(target)),
        _ => Form::Place(Told::Listed(id)),
    }
}

/// The local or parameter of this number.
fn local(unit: &CoreUnit, frame: &[TyId], number: u32) -> Form
    ensures { form_of (tables_of unit.now) result ≡ spec.named (slice_get (map (type_of (tables_of unit.now)) frame.now) number) }
{
    match frame.get(number as usize) {
        None => Form::Other,
        Some(id) => named(unit, *id),
    }
}

/// What a call gives by the type of the function's result.
fn given_back(unit: &CoreUnit, id: TyId) -> Form
    ensures { form_of (tables_of unit.now) result ≡ spec.given_back (type_of (tables_of unit.now) id) }
{
    match entry(unit, id) {
        Ty::Ref(target) => Form::Place(Told::Listed(target)),
        Ty::Const(inner) => given_back(unit, inner),
        Ty::Ptr(target) => Form::Pointer(Told::Listed(target)),
        _ => Form::Other,
    }
}

/// What a call of a function of this type gives.
fn called(unit: &CoreUnit, id: TyId) -> Form
    ensures { form_of (tables_of unit.now) result ≡ spec.given_back (types.result (type_of (tables_of unit.now) id)) }
{
    match entry(unit, id) {
        Ty::Fun(function) => given_back(unit, unit.fun(function).result),
        _ => Form::Other,
    }
}

/// The value of a place of this type.
fn value_in(unit: &CoreUnit, told: Told) -> Form
    ensures { form_of (tables_of unit.now) result ≡ spec.valued (types.plain (told_type (tables_of unit.now) told)) }
{
    match told {
        Told::Listed(id) => value_of(unit, plain(unit, id)),
        Told::Text(_) => Form::Other,
        Told::Character => Form::Other,
    }
}

/// The value of a place.
fn loaded(unit: &CoreUnit, form: Form) -> Form
    ensures { form_of (tables_of unit.now) result ≡ spec.loaded (form_of (tables_of unit.now) form) }
{
    match form {
        Form::Other => Form::Other,
        Form::Place(told) => value_in(unit, told),
        Form::Pointer(_) => Form::Other,
    }
}

/// A pointer to a place.
fn addressed(form: Form) -> Form
    ensures { (tables : Tables) → form_of tables result ≡ spec.addressed (form_of tables form) }
{
    match form {
        Form::Other => Form::Other,
        Form::Place(told) => Form::Pointer(told),
        Form::Pointer(_) => Form::Other,
    }
}

/// The type of the elements of an array of this type of the table, or this type itself.
fn element_of(unit: &CoreUnit, id: TyId) -> TyId
    ensures { type_of (tables_of unit.now) result ≡ types.element (type_of (tables_of unit.now) id) }
{
    match entry(unit, id) {
        Ty::Array(element, _) => element,
        _ => id,
    }
}

/// The same of any type.
fn element_in(unit: &CoreUnit, told: Told) -> Told
    ensures { told_type (tables_of unit.now) result ≡ types.element (types.plain (told_type (tables_of unit.now) told)) }
{
    match told {
        Told::Listed(id) => Told::Listed(element_of(unit, plain(unit, id))),
        Told::Text(_) => Told::Character,
        Told::Character => Told::Character,
    }
}

/// A pointer to the first element of an array, or to a function.
fn decayed(unit: &CoreUnit, form: Form) -> Form
    ensures { form_of (tables_of unit.now) result ≡ spec.decayed (form_of (tables_of unit.now) form) }
{
    match form {
        Form::Other => Form::Other,
        Form::Place(told) => Form::Pointer(element_in(unit, told)),
        Form::Pointer(_) => Form::Other,
    }
}

/// What a pointer points to.
fn target(form: Form) -> Form
    ensures { (tables : Tables) → form_of tables result ≡ spec.place_if (spec.points (form_of tables form)) }
{
    match form {
        Form::Other => Form::Other,
        Form::Place(told) => Form::Place(told),
        Form::Pointer(told) => Form::Place(told),
    }
}

/// A pointer that is moved.
fn moved(form: Form) -> Form
    ensures { (tables : Tables) → form_of tables result ≡ spec.pointer_if (spec.points (form_of tables form)) }
{
    match form {
        Form::Other => Form::Other,
        Form::Place(told) => Form::Pointer(told),
        Form::Pointer(told) => Form::Pointer(told),
    }
}

/// The first of two that is a place or a pointer.
fn first_of(one: Form, two: Form) -> Form
    ensures { (tables : Tables) → form_of tables result ≡ spec.or_that (form_of tables one) (form_of tables two) }
{
    match one {
        Form::Other => two,
        Form::Place(told) => Form::Place(told),
        Form::Pointer(told) => Form::Pointer(told),
    }
}

/// What an operator on pointers gives.
fn moved_by(op: PointerOperator, one: Form, two: Form) -> Form
    ensures { (tables : Tables) → form_of tables result ≡ spec.moved_by op (form_of tables one) (form_of tables two) }
{
    match op {
        PointerOperator::Add => moved(first_of(one, two)),
        PointerOperator::Subtract => moved(one),
        PointerOperator::Difference
        | PointerOperator::Less
        | PointerOperator::Greater
        | PointerOperator::LessEqual
        | PointerOperator::GreaterEqual
        | PointerOperator::Equal
        | PointerOperator::NotEqual => Form::Other,
    }
}

/// What a change of a place by one gives.
fn stepped(unit: &CoreUnit, is_postfix: bool, form: Form) -> Form
    ensures { form_of (tables_of unit.now) result ≡ spec.stepped_form is_postfix (form_of (tables_of unit.now) form) }
{
    if is_postfix { loaded(unit, form) } else { form }
}

/// What a node is, in a function whose parameters and locals have these types. It looks no deeper than to the next conversion or call.
#[cycle(forms)]
fn form_told(unit: &CoreUnit, frame: &[TyId], e: &Core) -> Form
    ensures { form_of (tables_of unit.now) result ≡ spec.form (map (type_of (tables_of unit.now)) frame.now) (view (tables_of unit.now) e.now) }
{
    match e {
        Core::Text { bytes, .. } => Form::Place(Told::Text(bytes.as_slice().len())),
        Core::Local { number, .. } => local(unit, frame, *number),
        Core::Static { ty, .. } => named(unit, *ty),
        Core::Function { ty, .. } | Core::Temporary { ty, .. } => Form::Place(Told::Listed(*ty)),
        Core::Read { place, .. } => loaded(unit, form_told(unit, frame, place.get())),
        Core::Address { place, .. } => addressed(form_told(unit, frame, place.get())),
        Core::Dereference { pointer, .. } => target(form_told(unit, frame, pointer.get())),
        Core::Decay { array, .. } => decayed(unit, form_told(unit, frame, array.get())),
        Core::Index { left, right, .. } => {
            let one = form_told(unit, frame, left.get());
            let two = form_told(unit, frame, right.get());
            target(first_of(one, two))
        }
        Core::PointerOperate {
            op,
            left,
            right,
            ..
        } => {
            let one = form_told(unit, frame, left.get());
            let two = form_told(unit, frame, right.get());
            moved_by(*op, one, two)
        }
        Core::Convert { ty, .. } => value_of(unit, plain(unit, *ty)),
        Core::FromVoid { ty, .. } => Form::Pointer(Told::Listed(*ty)),
        Core::Conditional { yes, no, .. } => {
            let one = form_told(unit, frame, yes.get());
            let two = form_told(unit, frame, no.get());
            first_of(one, two)
        }
        Core::Comma { operands, .. } => last_told(unit, frame, operands.as_slice()),
        Core::Store { place, .. } | Core::Update { place, .. } => form_told(
            unit,
            frame,
            place.get(),
        ),
        Core::Increment {
            is_postfix,
            place,
            ..
        } => stepped(unit, *is_postfix, form_told(unit, frame, place.get())),
        Core::Call { ty, .. } | Core::PointerCall { ty, .. } => called(unit, *ty),
        _ => Form::Other,
    }
}

/// What the last of some is.
#[cycle(forms)]
fn last_told(unit: &CoreUnit, frame: &[TyId], es: &[Core]) -> Form
    ensures { form_of (tables_of unit.now) result ≡ spec.last_form (map (type_of (tables_of unit.now)) frame.now) spec.other (viewed (tables_of unit.now) es.now) }
{
    let mut told = Form::Other;
    for e in es {
        told = form_told(unit, frame, e);
    }
    told
}

/// Whether what is pointed to is a function.
fn leads_to_function(unit: &CoreUnit, form: Form) -> bool
    ensures { result ≡ simple.leads_to_function (spec.points (form_of (tables_of unit.now) form)) }
{
    match form {
        Form::Other => false,
        Form::Place(told) => is_code(unit, told),
        Form::Pointer(told) => is_code(unit, told),
    }
}

/// Whether no pointer to a function becomes one to `void` where a node is converted to this type.
pub(crate) fn keeps_functions(unit: &CoreUnit, frame: &[TyId], ty: TyId, operand: &Core) -> bool
    ensures { result ≡ asked.keeps (map (type_of (tables_of unit.now)) frame.now) (type_of (tables_of unit.now) ty) (view (tables_of unit.now) operand.now) }
{
    if !leads_to_void(unit, ty) {
        return true;
    }
    !leads_to_function(unit, form_told(unit, frame, operand))
}
