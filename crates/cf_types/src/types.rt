ghost use Rattle.std.specs.Prelude.{◌≡◌, ℕ, ◌+◌, ◌<◌, ◌≤◌, ◌^◌, List, [], ◌∷◌, ◌++◌, length, slice_get, Some, Contains, All, IfOk, OnOk, OnErr, true};
ghost use Rattle.std.specs.Bool.{IsTrue};
ghost use Rattle.cf_types.specs.Table.{Names, NamesBelow, Enters, HasOnce, fun_parts, AreParameters, is_normal, passes};
ghost use Rattle.cf_types.specs.Table as table;

use crate::ids::{FunId, TyId};
use crate::ty::{Fun, Ty};
use cf_base::Memory;
use indexmap::IndexSet;
use std::alloc::Global;
use std::hash::Hash;
use std::marker::Model;

/// The types of a file. Equal types have equal numbers.
#[derive(Drop)]
pub struct Types {
    types: IndexSet<Ty>,
    funs: IndexSet<Fun>,
}

impl Model for Types {
    ghost use Rattle.cf_types.specs.Table.{Table, IsTable};

    ghost Value = { Table };

    ghost view = { λ t. record { types = t.types.keys; funs = t.funs.keys } };

    ghost invariant = { λ t. IsTable (record { types = t.types.keys; funs = t.funs.keys }) };
}

impl Types {
    /// The table without types.
    pub fn new(alloc: Global) -> Types
        ensures types { result.types ≡ [] }
        ensures funs { result.funs ≡ [] }
    {
        Types {
            types: IndexSet::new(alloc),
            funs: IndexSet::new(alloc),
        }
    }

    /// How many types there are: their numbers are those below it.
    pub fn count(&self) -> usize
        ensures { result ≡ length self.now.types }
    {
        self.types.len()
    }

    /// The type of this number.
    pub fn get(&self, id: TyId) -> &Ty
        requires { id < length self.now.types }
        ensures kept { slice_get self.now.types id ≡ Some result.now }
        ensures earlier { NamesBelow id result.now }
    {
        &self.types.as_slice()[id.number() as usize]
    }

    /// The function type of this number.
    pub fn get_fun(&self, id: FunId) -> &Fun
        requires { id < length self.now.funs }
        ensures { slice_get self.now.funs id ≡ Some result.now }
    {
        &self.funs.as_slice()[id.number() as usize]
    }

    /// Whether const may stand on the type of this number: not on a const, an array, a reference or a function (7.1.6).
    pub fn takes_const(&self, id: TyId) -> bool
        requires { id < length self.now.types }
        ensures { result ≡ passes table.takes_const self.now.types id }
    {
        !matches!(
            self.get(id),
            Ty::Ref(_) | Ty::Array(_, _) | Ty::Fun(_) | Ty::Const(_)
        )
    }

    /// Whether a parameter has the type of this number in the type of its function: it is not const itself, and no array, function or `void`
    /// (8.2.5).
    pub fn is_parameter(&self, id: TyId) -> bool
        requires { id < length self.now.types }
        ensures { result ≡ passes table.is_parameter self.now.types id }
    {
        !matches!(
            self.get(id),
            Ty::Void | Ty::Array(_, _) | Ty::Fun(_) | Ty::Const(_)
        )
    }

    /// The number of a type, which the table has afterwards. Const stands in it only where it may.
    pub fn intern(&mut self, ty: Ty) -> Result<TyId, Memory>
        requires known { Names self.old.funs (length self.old.types) (length self.old.funs) ty }
        requires normal { IsTrue (is_normal self.old.types ty) }
        ensures ok { IfOk result (Enters self.old.types self.new.types ty) }
        ensures funs { self.new.funs ≡ self.old.funs }
        ensures err { OnErr result (self.new ≡ self.old) }
    {
        let place = place_of(&mut self.types, ty)?;
        Ok(TyId::new(place))
    }

    /// The number of a function type, which the table has afterwards. Its parameters have their types as the type of a function has them.
    pub fn intern_fun(&mut self, fun: Fun) -> Result<FunId, Memory>
        requires known { All (λ t. t < length self.old.types) (fun_parts fun) }
        requires parameters { AreParameters self.old.types fun.params }
        ensures ok { IfOk result (Enters self.old.funs self.new.funs fun) }
        ensures types { self.new.types ≡ self.old.types }
        ensures err { OnErr result (self.new ≡ self.old) }
    {
        let place = place_of(&mut self.funs, fun)?;
        Ok(FunId::new(place))
    }
}

/// The place of an item in a list, at the end if it is new. Numbers have 32 bits, so no more items are held.
fn place_of<T: Hash + Eq + Drop>(items: &mut IndexSet<T>, item: T) -> Result<u32, Memory>
    requires same { (x y : T) → T.eq x y ≡ true → x ≡ y }
    requires once { HasOnce items.old.keys }
    requires fit { length items.old.keys ≤ 2 ^ 32 }
    ensures ok { IfOk result (Enters items.old.keys items.new.keys item) }
    ensures fits { length items.new.keys ≤ 2 ^ 32 }
    ensures err { OnErr result (items.new.keys ≡ items.old.keys) }
{
    match items.get_index_of(&item) {
        Some(place) => Ok(place as u32),
        None => {
            let place = u32::try_from(items.len()).map_err(|_| Memory)?;
            items.insert(item)?;
            Ok(place)
        }
    }
}
