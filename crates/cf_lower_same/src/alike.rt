//! When two types are the same, by their forms.

ghost use Rattle.std.specs.Prelude.{◌≡◌, ◌==◌, ℕ};
ghost use Rattle.cf_core.specs.Types.{kind_number, type_eq};
ghost use Rattle.cf_lower_types.specs.Bare.{bare};
ghost use Rattle.cf_lower_types.specs.declared.form.Form.TheVariants as form;
ghost use Rattle.cf_lower_same.specs.Alike as spec;

use cf_base::Kind;
use cf_lower_types::{Form, Tables, form_of};
use cf_types::{FunId, TyId};

/// Two types are the same if this is so.
#[derive(Clone, Copy, Debug, PartialEq, Eq)]
pub enum Alike {
    Known(bool),
    /// The enumerations of these numbers have one name.
    Enumerations(u32, u32),
    /// These types are the same.
    Types(TyId, TyId),
    /// These types of functions are the same.
    Functions(FunId, FunId),
    /// That is not told: both are of classes.
    Untold,
}

/// When two types are the same, const being left out at all levels. What is to be compared stands before them.
#[tactic(auto, using(crate::proofs::Told::compared_tells, crate::proofs::Told::compared_below))]
pub fn compared(tables: &Tables<'_>, id: TyId, other: TyId) -> Alike
    ensures tells { spec.Tells tables.now result (type_eq (bare tables.now id) (bare tables.now other)) }
    ensures below { spec.Below tables.now id other result }
{
    let first = form_of(tables, id);
    let second = form_of(tables, other);
    when_alike(&first, &second)
}

/// When two types of these forms are the same.
fn when_alike(a: &Form, b: &Form) -> Alike
    ensures { result ≡ spec.alike a.now b.now }
{
    match a {
        Form::Void => void(b),
        Form::Integer(kind) => integer(*kind, b),
        Form::Enumeration(number) => enumeration(*number, b),
        Form::Pointer(target) => pointer(*target, b),
        Form::Reference(target) => reference(*target, b),
        Form::Array(element, count) => array(*element, *count, b),
        Form::Function(function) => between_functions(*function, b),
        Form::Class(_) => class(b),
        Form::DataMember(_, _) => data_member(b),
        Form::FunctionMember(_, _) => function_member(b),
    }
}

fn void(b: &Form) -> Alike
    ensures { result ≡ spec.alike form.Void b.now }
{
    match b {
        Form::Void => Alike::Known(true),
        _ => Alike::Known(false),
    }
}

fn integer(kind: Kind, b: &Form) -> Alike
    ensures { result ≡ spec.alike (form.Integer kind) b.now }
{
    match b {
        Form::Integer(with) => Alike::Known(same_kinds(kind, *with)),
        _ => Alike::Known(false),
    }
}

/// Whether two integers are of one kind.
pub fn same_kinds(kind: Kind, with: Kind) -> bool
    ensures { result ≡ (kind_number kind == kind_number with) }
{
    kind == with
}

fn enumeration(number: u32, b: &Form) -> Alike
    ensures { result ≡ spec.alike (form.Enumeration number) b.now }
{
    match b {
        Form::Enumeration(with) => Alike::Enumerations(number, *with),
        _ => Alike::Known(false),
    }
}

fn pointer(target: TyId, b: &Form) -> Alike
    ensures { result ≡ spec.alike (form.Pointer target) b.now }
{
    match b {
        Form::Pointer(to) => Alike::Types(target, *to),
        _ => Alike::Known(false),
    }
}

fn reference(target: TyId, b: &Form) -> Alike
    ensures { result ≡ spec.alike (form.Reference target) b.now }
{
    match b {
        Form::Reference(to) => Alike::Types(target, *to),
        _ => Alike::Known(false),
    }
}

fn array(element: TyId, count: u32, b: &Form) -> Alike
    ensures { result ≡ spec.alike (form.Array element count) b.now }
{
    match b {
        Form::Array(of, elements) => {
            if count == *elements {
                Alike::Types(element, *of)
            } else {
                Alike::Known(false)
            }
        }
        _ => Alike::Known(false),
    }
}

fn between_functions(function: FunId, b: &Form) -> Alike
    ensures { result ≡ spec.alike (form.Function function) b.now }
{
    match b {
        Form::Function(with) => Alike::Functions(function, *with),
        _ => Alike::Known(false),
    }
}

/// Where the first is a class.
fn class(b: &Form) -> Alike
    ensures { (c : ℕ) → result ≡ spec.alike (form.Class c) b.now }
{
    match b {
        Form::Class(_) => Alike::Untold,
        _ => Alike::Known(false),
    }
}

fn data_member(b: &Form) -> Alike
    ensures { (c t : ℕ) → result ≡ spec.alike (form.DataMember c t) b.now }
{
    match b {
        Form::DataMember(_, _) => Alike::Untold,
        _ => Alike::Known(false),
    }
}

fn function_member(b: &Form) -> Alike
    ensures { (c f : ℕ) → result ≡ spec.alike (form.FunctionMember c f) b.now }
{
    match b {
        Form::FunctionMember(_, _) => Alike::Untold,
        _ => Alike::Known(false),
    }
}
