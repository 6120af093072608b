ghost use Rattle.std.specs.Prelude.{◌≡◌, ◌<◌, Some, length, slice_get};
ghost use Rattle.cf_types.specs.Table.{Names, NamesBelow};

use crate::node::Core;
use cf_base::{Items, Name};
use cf_classes::Classes;
use cf_types::{ClassId, Fun, FunId, Ty, TyId, Types};
use std::marker::Model;

/// What kind of function it is.
#[derive(Clone, Copy, Debug, PartialEq, Eq)]
pub enum Role {
    Plain,
    /// A nonstatic member function of this class that is none of the two below.
    Member(ClassId),
    Constructor(ClassId),
    Destructor(ClassId),
}

/// A function that the file defines, or that is generated for a class of the file.
#[derive(Drop)]
pub struct CoreFn {
    /// Its link name.
    pub name: Name,
    pub role: Role,
    pub result: TyId,
    pub params: Items<TyId>,
    /// The types of its locals and of the temporaries that local references bind, by their numbers behind the parameters.
    pub locals: Items<TyId>,
    pub body: Core,
    /// Whether files share it: it is defined in its class, or generated.
    pub is_shared: bool,
    /// Whether its name is local to the file (3.3).
    pub is_local: bool,
}

/// A static object that the file defines, or a temporary that a static reference binds.
#[derive(Drop)]
pub struct CoreStatic {
    /// Its link name.
    pub name: Name,
    pub ty: TyId,
    /// Its initialiser. A local static object that needs more than constants has none here: it stands in its function.
    pub start: Core,
    /// The function whose local it is, by its link name: the literals of its initialiser are numbered there.
    pub owner: Option<Name>,
    /// Whether it takes effect before any function is entered (8.4). A temporary that a static reference binds is built by that
    /// reference's initialiser: it has no initialiser of its own, and counts as constant.
    pub is_constant: bool,
    pub is_shared: bool,
    pub is_local: bool,
}

/// The core of a file, which is valid: every node has parts of the number and types that it takes, each number in it is there in the
/// tables, and no two functions or static objects have one link name.
#[derive(Drop)]
pub struct CoreUnit {
    types: Types,
    classes: Classes,
    functions: Items<CoreFn>,
    statics: Items<CoreStatic>,
}

impl Model for CoreUnit {
    ghost use Rattle.cf_core.specs.FromUnit.{Unit, IsValid};
    ghost use Rattle.cf_core.specs.contracts.node.Core as core;
    ghost use Rattle.std.specs.Coded.{codes};

    ghost Value = { Unit };

    ghost coded = { Prim.hlevel (codes, core.the_row.coded) };

    ghost view = { λ u. record { types = u.types; classes = u.classes; functions = u.functions; statics = u.statics } };

    ghost invariant = { λ u. IsValid (record { types = u.types; classes = u.classes; functions = u.functions; statics = u.statics }) };
}

impl CoreUnit {
    ghost use Rattle.cf_core.specs.FromUnit.{IsValid};

    /// The core of these parts, if it is valid.
    pub fn new(
        types: Types,
        classes: Classes,
        functions: Items<CoreFn>,
        statics: Items<CoreStatic>,
    ) -> CoreUnit
        requires valid { IsValid (record { types = types; classes = classes; functions = functions; statics = statics }) }
        ensures { result ≡ record { types = types; classes = classes; functions = functions; statics = statics } }
    {
        CoreUnit {
            types,
            classes,
            functions,
            statics,
        }
    }

    pub fn types(&self) -> &Types
        ensures { result.now ≡ self.now.types }
    {
        &self.types
    }

    /// The type of this number. What it names is there, and stands before it.
    pub fn ty(&self, id: TyId) -> &Ty
        requires { id < length self.now.types.types }
        ensures kept { slice_get self.now.types.types id ≡ Some result.now }
        ensures names { Names self.now.types.funs id (length self.now.types.funs) result.now }
        ensures earlier { NamesBelow id result.now }
    {
        self.types.get(id)
    }

    /// The function type of this number.
    pub fn fun(&self, id: FunId) -> &Fun
        requires { id < length self.now.types.funs }
        ensures { slice_get self.now.types.funs id ≡ Some result.now }
    {
        self.types.get_fun(id)
    }

    pub fn classes(&self) -> &Classes
        ensures { result.now ≡ self.now.classes }
    {
        &self.classes
    }

    /// In order of definition. The core is valid.
    pub fn functions(&self) -> &[CoreFn]
        ensures functions { result.now ≡ self.now.functions }
        ensures valid { IsValid self.now }
    {
        self.functions.as_slice()
    }

    /// In order of definition.
    pub fn statics(&self) -> &[CoreStatic]
        ensures { result.now ≡ self.now.statics }
    {
        self.statics.as_slice()
    }

    /// Its tables, for what is made of it.
    pub fn into_tables(self) -> (Types, Classes)
        ensures types { result.0 ≡ self.types }
        ensures classes { result.1 ≡ self.classes }
    {
        let CoreUnit { types, classes, .. } = self;
        (types, classes)
    }
}
