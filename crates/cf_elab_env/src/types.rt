ghost use Rattle.std.specs.Prelude.{◌≡◌, ◌<◌, length, slice_get, Some, None, true};
ghost use Rattle.cf_types.specs.Table.{NamesBelow, IsTable};
ghost use Rattle.cf_convert.specs.Constness as constness;
ghost use Rattle.cf_elab.specs.Complete as complete;
ghost use Rattle.cf_elab.specs.Operand as operand;
ghost use Rattle.cf_elab_env.specs.Holds.{IsType, IsSort, HasNoClass};
ghost use Rattle.cf_elab_env.specs.Seen.{sort_seen};

use crate::env::Env;
use crate::sort::Sort;
use cf_types::{Ty, TyId, Types};

impl Env {
    /// The type of this number.
    pub fn type_at(&self, id: TyId) -> Ty
        requires { IsType self.now.types id }
        ensures { result ≡ constness.type_at self.now.types id }
    {
        *self.types().get(id)
    }

    /// The type without a const that stands on it.
    pub fn bare(&self, id: TyId) -> TyId
        requires { IsType self.now.types id }
        ensures value { result ≡ constness.bare self.now.types id }
        ensures known { IsType self.now.types result }
    {
        bare(self.types(), id)
    }

    /// Whether objects of the type are const; const of an array is that of its elements (7.1.6).
    pub fn is_const(&self, id: TyId) -> bool
        requires { IsType self.now.types id }
        ensures { result ≡ constness.is_const self.now.types id }
    {
        is_const(self.types(), id)
    }

    /// What operators ask of the type.
    pub fn sort_of(&self, id: TyId) -> Sort
        requires { IsType self.now.types id }
        ensures value { sort_seen result ≡ operand.sort_of self.now.types id }
        ensures known { IsSort self.now.types result }
    {
        sort_of(self.types(), id)
    }

    /// Whether an object of the type holds no class that is not defined (9.1). So far there are none.
    pub fn is_complete(&self, _id: TyId) -> bool
        requires { IsType self.now.types _id }
        ensures { result ≡ complete.complete self.now _id }
    {
        let _known = self.types();
        true
    }
}

/// The type of this number, which names types of the table alone.
#[tactic(auto, using(cf_convert::proofs::Known::names_more))]
fn type_at(types: &Types, id: TyId) -> &Ty
    requires { IsType types.now id }
    ensures value { result.now ≡ constness.type_at types.now id }
    ensures known { NamesBelow (length types.now.types) result.now }
    ensures kept { slice_get types.now.types id ≡ Some result.now }
{
    types.get(id)
}

/// The type without a const that stands on it.
fn bare(types: &Types, id: TyId) -> TyId
    requires { IsType types.now id }
    ensures value { result ≡ constness.bare types.now id }
    ensures known { IsType types.now result }
{
    match type_at(types, id) {
        Ty::Const(inside) => *inside,
        _ => id,
    }
}

/// Whether objects of the type are const.
fn is_const(types: &Types, id: TyId) -> bool
    requires { IsType types.now id }
    ensures { result ≡ constness.is_const types.now id }
{
    match types.get(id) {
        Ty::Const(_) => true,
        Ty::Array(element, _) => is_const(types, *element),
        _ => false,
    }
}

/// What operators ask of the type.
fn sort_of(types: &Types, id: TyId) -> Sort
    requires known { IsType types.now id }
    requires table { IsTable types.now }
    requires no_class { HasNoClass types.now }
    ensures value { sort_seen result ≡ operand.sort_of types.now id }
    ensures known { IsSort types.now result }
{
    match type_at(types, bare(types, id)) {
        Ty::Void => Sort::Void,
        Ty::Int(kind) => Sort::Integral(*kind),
        Ty::Enum(number) => Sort::Enumeral(*number),
        Ty::Ptr(to) => pointer_sort(types, *to),
        Ty::Ref(to) => Sort::Reference(*to),
        Ty::Array(element, count) => Sort::Array(*element, *count),
        Ty::Fun(fun) => Sort::Function(*fun),
        _ => Sort::Void,
    }
}

/// What operators ask of a pointer to this type.
fn pointer_sort(types: &Types, to: TyId) -> Sort
    requires { IsType types.now to }
    ensures value { sort_seen result ≡ operand.pointer_sort to (constness.type_at types.now (constness.bare types.now to)) }
    ensures known { IsSort types.now result }
{
    match type_at(types, bare(types, to)) {
        Ty::Void => Sort::VoidPointer,
        Ty::Fun(_) => Sort::FunctionPointer(to),
        _ => Sort::ObjectPointer(to),
    }
}
