//! The tables of a file.

ghost use Rattle.std.specs.Prelude.{◌≡◌, ◌<◌, [], length, Some, slice_get};
ghost use Rattle.cf_types.specs.Table.{Names, NamesBelow};
ghost use Rattle.cf_classes.specs.Fit.{Fit};
ghost use Rattle.cf_core.specs.FromTypes.{type_of, type_step};
ghost use Rattle.cf_lower_types.specs.Bare.{HasEnum};
ghost use Rattle.cf_lower_types.specs.Ordered.{IsOrdered};

use cf_classes::Classes;
use cf_types::{Fun, FunId, Ty, TyId, Types};
use std::marker::Model;

/// The types and classes of a file that defines no class. Each type names types before it alone.
#[derive(Drop)]
pub struct Tables<'a> {
    types: &'a Types,
    classes: &'a Classes,
}

impl<'a> Model for Tables<'a> {
    ghost use Rattle.cf_core.specs.FromTypes.{Tables};
    ghost use Rattle.cf_lower_types.specs.Ordered.{AreOrdered};

    ghost Value = { Tables };

    ghost view = { λ t. record { types = t.types.now; classes = t.classes.now } };

    ghost invariant = { λ t. AreOrdered (record { types = t.types.now; classes = t.classes.now }) };
}

impl<'a> Tables<'a> {
    ghost use Rattle.cf_lower_types.specs.Ordered.{AreOrdered};

    /// These tables.
    pub fn new(types: &'a Types, classes: &'a Classes) -> Tables<'a>
        requires ordered { IsOrdered types.now }
        requires fit { Fit types.now classes.now }
        requires no_classes { classes.now.defined ≡ [] }
        ensures { result ≡ record { types = types.now; classes = classes.now } }
    {
        Tables { types, classes }
    }

    /// The types of the file.
    pub fn types(&self) -> &Types
        ensures types { result.now ≡ self.now.types }
        ensures ordered { AreOrdered self.now }
    {
        self.types
    }

    /// The classes and enumerations of the file.
    pub fn classes(&self) -> &Classes
        ensures classes { result.now ≡ self.now.classes }
        ensures ordered { AreOrdered self.now }
    {
        self.classes
    }

    /// The type of this number, as the table has it; `void` where the table has none.
    #[tactic(auto, using(crate::proofs::Entries::found_in, crate::proofs::Entries::names_in, crate::proofs::Entries::missing_in, crate::proofs::Entries::no_names, crate::proofs::Entries::enum_in))]
    pub fn entry(&self, id: TyId) -> Ty
        ensures value { type_of self.now id ≡ type_step self.now (type_of self.now) result }
        ensures named { Names self.now.types.funs id (length self.now.types.funs) result }
        ensures earlier { NamesBelow id result }
        ensures given { HasEnum self.now result }
    {
        let types = self.types();
        if (id.number() as usize) < types.count() {
            *types.get(id)
        } else {
            Ty::Void
        }
    }

    /// The function type of this number.
    pub fn fun(&self, id: FunId) -> &Fun
        requires { id < length self.now.types.funs }
        ensures { slice_get self.now.types.funs id ≡ Some result.now }
    {
        self.types().get_fun(id)
    }
}
