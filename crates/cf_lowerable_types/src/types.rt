//! What is asked of types.

ghost use Rattle.std.specs.Prelude.{◌≡◌, ◌==◌, IfOk};
ghost use Rattle.cf_core.specs.FromTypes.{Tables as TablesOf, type_of};
ghost use Rattle.cf_core.specs.Places as places;
ghost use Rattle.cf_core.specs.Types as types;
ghost use Rattle.cf_core.specs.Types.{kind_number};
ghost use Rattle.cf_lower_kept.specs.Ready as ready;
ghost use Rattle.cf_lower_layout.specs.Layout as layout;
ghost use Rattle.cf_lower_place.specs.Leaf as leaf;
ghost use Rattle.cf_lower_place.specs.Named as named;
ghost use Rattle.cf_lower.specs.Kept.{holds};
ghost use Rattle.cf_lower_layout.specs.Sorts.{address};
ghost use Rattle.cf_lower_types.specs.Bare.{bare, classes_of, is_code as is_code_sort, sort_in, type_in};
ghost use Rattle.cf_lowerable_types.specs.Types as spec;

use cf_base::{Kind, Memory};
use cf_lower_same::same_places;
use cf_lower_types::{
    Form, PlaceType, Scalar, Tables, elements_in, form_of, referred, size_of, sort_to,
};
use cf_types::{Ty, TyId};

/// What stands outermost in a type.
#[derive(Clone, Copy, Debug, PartialEq, Eq)]
pub enum Layer {
    Const(TyId),
    /// So many elements of this type.
    Array(TyId, u32),
    Function,
    Class,
    Other,
}

fn layer_in(ty: &Ty) -> Layer
    ensures { result ≡ spec.layer_in ty.now }
{
    match ty {
        Ty::Const(inside) => Layer::Const(*inside),
        Ty::Array(element, count) => Layer::Array(*element, *count),
        Ty::Fun(_) => Layer::Function,
        Ty::Class(_) => Layer::Class,
        Ty::Void
        | Ty::Int(_)
        | Ty::Enum(_)
        | Ty::Ptr(_)
        | Ty::Ref(_)
        | Ty::MemData(_, _)
        | Ty::MemFun(_, _) => Layer::Other,
    }
}

/// What stands outermost in the type of this number.
#[tactic(auto, using(crate::proofs::Layers::layer_is, crate::proofs::Layers::layer_below))]
fn layer_of(tables: &Tables<'_>, id: TyId) -> Layer
    ensures is { spec.IsLayer tables.now id result }
    ensures below { spec.IsBelow id result }
{
    let ty = tables.entry(id);
    layer_in(&ty)
}

/// Whether the type is a const one itself.
#[tactic(auto, using(crate::proofs::Layers::const_by, crate::proofs::Layers::array_by, crate::proofs::Layers::function_by, crate::proofs::Layers::class_by, crate::proofs::Layers::other_by))]
fn is_const(tables: &Tables<'_>, id: TyId) -> bool
    ensures { result ≡ places.is_const (type_of tables.now id) }
{
    match layer_of(tables, id) {
        Layer::Const(_) => true,
        Layer::Array(_, _) => false,
        Layer::Function => false,
        Layer::Class => false,
        Layer::Other => false,
    }
}

/// Whether it is a function's, with no const on it.
#[tactic(auto, using(crate::proofs::Layers::const_by, crate::proofs::Layers::array_by, crate::proofs::Layers::function_by, crate::proofs::Layers::class_by, crate::proofs::Layers::other_by))]
pub fn is_signature(tables: &Tables<'_>, id: TyId) -> bool
    ensures { result ≡ named.is_signature (type_of tables.now id) }
{
    match layer_of(tables, id) {
        Layer::Function => true,
        Layer::Const(_) => false,
        Layer::Array(_, _) => false,
        Layer::Class => false,
        Layer::Other => false,
    }
}

/// Whether objects of the type take bytes: no array has no element.
#[tactic(auto, using(crate::proofs::Layers::const_by, crate::proofs::Layers::array_by, crate::proofs::Layers::function_by, crate::proofs::Layers::class_by, crate::proofs::Layers::other_by))]
pub fn has_bytes(tables: &Tables<'_>, id: TyId) -> bool
    ensures { result ≡ layout.has_bytes (type_of tables.now id) }
{
    match layer_of(tables, id) {
        Layer::Const(inside) => has_bytes(tables, inside),
        Layer::Array(element, count) => 0 < count && has_bytes(tables, element),
        Layer::Function => true,
        Layer::Class => false,
        Layer::Other => true,
    }
}

/// Whether no const stands directly on const in the type, nor in that of its elements.
#[tactic(auto, using(crate::proofs::Layers::const_by, crate::proofs::Layers::array_by, crate::proofs::Layers::function_by, crate::proofs::Layers::class_by, crate::proofs::Layers::other_by))]
fn const_once(tables: &Tables<'_>, id: TyId) -> bool
    ensures { result ≡ layout.const_once (type_of tables.now id) }
{
    match layer_of(tables, id) {
        Layer::Const(inside) => !is_const(tables, inside) && const_once(tables, inside),
        Layer::Array(element, _) => const_once(tables, element),
        Layer::Function => true,
        Layer::Class => true,
        Layer::Other => true,
    }
}

/// Whether its objects are laid out here.
pub fn is_laid(tables: &Tables<'_>, id: TyId) -> Result<bool, Memory>
    ensures { IfOk result (λ laid. laid ≡ leaf.is_laid (classes_of tables.now) (type_of tables.now id)) }
{
    let bytes = size_of(tables, id)?;
    Ok(bytes <= 4194304 && (has_bytes(tables, id) && const_once(tables, id)))
}

fn is_code_scalar(scalar: &Scalar) -> bool
    ensures { (tables : TablesOf) → result ≡ is_code_sort (sort_in tables scalar.now) }
{
    match scalar {
        Scalar::Code(_) => true,
        Scalar::Number(_) | Scalar::Address(_) => false,
    }
}

/// Whether places of the type are functions.
#[tactic(auto, using(crate::proofs::Layers::code_by_sort))]
pub fn is_code(tables: &Tables<'_>, id: TyId) -> bool
    ensures { result ≡ ready.is_code (type_of tables.now id) }
{
    let scalar = sort_to(tables, id);
    is_code_scalar(&scalar)
}

/// Whether no const stands on a function's type.
#[tactic(auto, using(crate::proofs::Layers::const_by, crate::proofs::Layers::array_by, crate::proofs::Layers::function_by, crate::proofs::Layers::class_by, crate::proofs::Layers::other_by))]
pub fn const_on_none(tables: &Tables<'_>, id: TyId) -> bool
    ensures { result ≡ leaf.const_on_none (type_of tables.now id) }
{
    match layer_of(tables, id) {
        Layer::Const(inside) => !is_code(tables, inside),
        Layer::Array(_, _) => true,
        Layer::Function => true,
        Layer::Class => true,
        Layer::Other => true,
    }
}

/// Whether the type is a reference's.
#[tactic(auto, using(crate::proofs::Layers::reference_some, crate::proofs::Layers::reference_none))]
pub fn is_reference(tables: &Tables<'_>, id: TyId) -> bool
    ensures { result ≡ places.is_reference (type_of tables.now id) }
{
    match referred(tables, id) {
        Some(_) => true,
        None => false,
    }
}

/// Whether it is an object's, which no reference is.
pub fn is_object_type(tables: &Tables<'_>, id: TyId) -> bool
    ensures { result ≡ leaf.is_object_type (type_of tables.now id) }
{
    !is_reference(tables, id) && !is_code(tables, id)
}

/// Whether places of this type have type `void`.
#[tactic(auto, using(crate::proofs::Layers::void_place))]
pub fn is_void_place(tables: &Tables<'_>, place: &PlaceType) -> Result<bool, Memory>
    ensures { IfOk result (λ void. void ≡ types.is_void (type_in tables.now place.now)) }
{
    let void = same_places(tables, &PlaceType::Void, place)?;
    Ok(void)
}

/// Whether the type is `void`.
#[tactic(auto, using(crate::proofs::Layers::void_bare))]
pub fn is_void(tables: &Tables<'_>, id: TyId) -> Result<bool, Memory>
    ensures { IfOk result (λ void. void ≡ types.is_void (type_of tables.now id)) }
{
    let void = is_void_place(tables, &PlaceType::Of(id))?;
    Ok(void)
}

fn same_kinds(kind: Kind, with: Kind) -> bool
    ensures { result ≡ (kind_number kind == kind_number with) }
{
    kind == with
}

fn is_of_kind(kind: Kind, form: &Form) -> bool
    ensures { result ≡ spec.is_of_kind kind form.now }
{
    match form {
        Form::Integer(with) => same_kinds(kind, *with),
        Form::Void
        | Form::Enumeration(_)
        | Form::Class(_)
        | Form::Pointer(_)
        | Form::Reference(_)
        | Form::Array(_, _)
        | Form::Function(_)
        | Form::DataMember(_, _)
        | Form::FunctionMember(_, _) => false,
    }
}

/// Whether the type is this integer type, but for const.
#[tactic(auto, using(crate::proofs::Layers::integer_by_form))]
pub fn is_integer_type(tables: &Tables<'_>, kind: Kind, id: TyId) -> bool
    ensures { result ≡ types.type_eq (types.integer kind) (bare tables.now id) }
{
    let form = form_of(tables, id);
    is_of_kind(kind, &form)
}

fn is_character(kind: Kind) -> bool
    ensures { result ≡ spec.is_character kind }
{
    match kind {
        Kind::Char | Kind::SChar | Kind::UChar => true,
        Kind::Short | Kind::UShort | Kind::Int | Kind::UInt | Kind::Long | Kind::ULong => false,
    }
}

/// Whether it is the form of characters.
fn is_of_characters(form: &Form) -> bool
    ensures { result ≡ spec.is_of_characters form.now }
{
    match form {
        Form::Integer(kind) => is_character(*kind),
        Form::Void
        | Form::Enumeration(_)
        | Form::Class(_)
        | Form::Pointer(_)
        | Form::Reference(_)
        | Form::Array(_, _)
        | Form::Function(_)
        | Form::DataMember(_, _)
        | Form::FunctionMember(_, _) => false,
    }
}

/// Whether places of this type are arrays of characters.
#[tactic(auto, using(crate::proofs::Characters::chars_array, crate::proofs::Characters::no_chars))]
fn is_char_array(tables: &Tables<'_>, id: TyId) -> bool
    ensures { result ≡ leaf.are_chars (holds (address (bare tables.now id))) }
{
    let form = form_of(tables, id);
    match elements_in(&form) {
        Some(elements) => {
            let inside = form_of(tables, elements.ty);
            is_of_characters(&inside)
        }
        None => false,
    }
}

/// The same of any place.
pub fn are_chars(tables: &Tables<'_>, place: &PlaceType) -> bool
    ensures { result ≡ leaf.are_chars (holds (address (type_in tables.now place.now))) }
{
    match place {
        PlaceType::Of(id) => is_char_array(tables, *id),
        PlaceType::Characters(_) => true,
        PlaceType::Void | PlaceType::Character => false,
    }
}
