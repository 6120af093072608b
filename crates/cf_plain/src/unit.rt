ghost use Rattle.std.specs.Prelude.{◌≡◌};

use crate::statement::Plain;
use cf_base::{Items, Name};
use cf_classes::Classes;
use cf_core::Role;
use cf_types::{TyId, Types};
use std::marker::Model;

/// A function that the file defines, or that is generated for a class of the file.
#[derive(Drop)]
pub struct PlainFn {
    /// Its link name.
    pub name: Name,
    pub role: Role,
    pub result: TyId,
    pub params: Items<TyId>,
    /// The types of its locals, of its temporaries and of the objects of the parameters of what it calls, by their numbers behind its
    /// own parameters.
    pub locals: Items<TyId>,
    pub body: Items<Plain>,
    /// Whether files share it: it is defined in its class, or generated.
    pub is_shared: bool,
    /// Whether its name is local to the file (3.3).
    pub is_local: bool,
}

/// A static object that the file defines, or a temporary that a static reference binds.
#[derive(Drop)]
pub struct PlainStatic {
    /// Its link name.
    pub name: Name,
    pub ty: TyId,
    /// The types of the locals of its initialiser.
    pub locals: Items<TyId>,
    /// Its initialiser. A local static object that needs more than constants has none here: it stands in its function.
    pub start: Items<Plain>,
    /// The function whose local it is, by its link name: the literals of its initialiser are numbered there.
    pub owner: Option<Name>,
    /// Whether it takes effect before any function is entered (8.4).
    pub is_constant: bool,
    pub is_shared: bool,
    pub is_local: bool,
}

/// The plain statements of a file, which are valid: what is numbered is there in the tables, locals have the types that they are used with, each
/// way out of a loop or switch stands in one, and no two functions or static objects have one link name.
#[derive(Drop)]
pub struct PlainUnit {
    types: Types,
    classes: Classes,
    functions: Items<PlainFn>,
    statics: Items<PlainStatic>,
    frames: Items<u64>,
}

impl Model for PlainUnit {
    ghost use Rattle.cf_plain.specs.View.{Unit, IsValid};
    ghost use Rattle.cf_plain.specs.contracts.statement.Plain as plain;
    ghost use Rattle.std.specs.Coded.{codes};

    ghost Value = { Unit };

    ghost coded = { Prim.hlevel (codes, plain.the_row.coded) };

    ghost view = { λ u. record { types = u.types; classes = u.classes; functions = u.functions; statics = u.statics; frames = u.frames } };

    ghost invariant = { λ u. IsValid (record { types = u.types; classes = u.classes; functions = u.functions; statics = u.statics; frames = u.frames }) };
}

impl PlainUnit {
    ghost use Rattle.cf_plain.specs.View.{IsValid};

    /// The unit of these parts, if it is valid.
    pub fn new(
        types: Types,
        classes: Classes,
        functions: Items<PlainFn>,
        statics: Items<PlainStatic>,
        frames: Items<u64>,
    ) -> PlainUnit
        requires valid { IsValid (record { types = types; classes = classes; functions = functions; statics = statics; frames = frames }) }
        ensures { result ≡ record { types = types; classes = classes; functions = functions; statics = statics; frames = frames } }
    {
        PlainUnit {
            types,
            classes,
            functions,
            statics,
            frames,
        }
    }

    pub fn types(&self) -> &Types
        ensures { result.now ≡ self.now.types }
    {
        &self.types
    }

    pub fn classes(&self) -> &Classes
        ensures { result.now ≡ self.now.classes }
    {
        &self.classes
    }

    /// In order of definition. The unit is valid.
    pub fn functions(&self) -> &[PlainFn]
        ensures functions { result.now ≡ self.now.functions }
        ensures valid { IsValid self.now }
    {
        self.functions.as_slice()
    }

    /// In order of definition.
    pub fn statics(&self) -> &[PlainStatic]
        ensures { result.now ≡ self.now.statics }
    {
        self.statics.as_slice()
    }

    /// The frame bound of each function in order, in bytes, and behind them that of the file's initialising function.
    pub fn frames(&self) -> &[u64]
        ensures { result.now ≡ self.now.frames }
    {
        self.frames.as_slice()
    }
}
