ghost use Rattle.std.specs.Prelude.{◌≡◌, [], length, slice_get, map, All, IfOk, None, Some, bytes_eq};
ghost use Rattle.std.specs.List.{list_any};
ghost use Rattle.cf_types.specs.Table.{IsTable};
ghost use Rattle.cf_core.specs.FromUnit.{IsValid};
ghost use Rattle.cf_elab.specs.File.{first_env, core_unit};
ghost use Rattle.cf_elab.specs.Answer.{Made};
ghost use Rattle.cf_elab_env.specs.Holds.{IsEnv, EnumGiven, IsEntry, IsType, HasNoClass};
ghost use Rattle.cf_elab_env.specs.Seen.{entity_seen};
ghost use Rattle.cf_elab_env.specs.Shut as shut;

use crate::declared::Declared;
use crate::entity::Entity;
use crate::entries::Entries;
use crate::extent::Extent;
use crate::functions::FunctionEntry;
use crate::hand::Hand;
use cf_base::{Items, Kind, Memory, Name};
use cf_classes::Classes;
use cf_core::{CoreFn, CoreStatic, CoreUnit};
use cf_lookup::Scopes;
use cf_name_table::NameTable;
use cf_types::{Ty, TyId, Types};
use std::alloc::Global;
use std::marker::Model;

/// What is known at a place of a file (3).
#[derive(Drop)]
pub struct Env {
    pub(crate) alloc: Global,
    pub(crate) extent: Extent,
    /// The names that the file's own declarations define.
    pub(crate) defines: NameTable,
    pub(crate) types: Types,
    pub(crate) classes: Declared,
    pub(crate) scopes: Scopes,
    pub(crate) entities: Vec<Entity>,
    /// The objects with linkage, by the numbers of their entities: names of one scope of their own (3.3).
    pub(crate) linked: Scopes,
    pub(crate) entries: Entries,
    pub(crate) hand: Hand,
    pub(crate) functions: Items<CoreFn>,
    pub(crate) statics: Items<CoreStatic>,
}

impl Model for Env {
    ghost use Rattle.std.specs.Prelude.{[], map};
    ghost use Rattle.std.specs.Coded.{codes};
    ghost use Rattle.cf_core.specs.contracts.node.Core as core;
    ghost use Rattle.cf_elab.specs.Env.{Env};

    ghost Value = { Env };

    ghost coded = { Prim.hlevel (codes, core.the_row.coded) };

    ghost use Rattle.cf_elab_env.specs.SeenEnv.{env_seen};
    ghost use Rattle.cf_elab_env.specs.Holds.{IsEnv};

    ghost view = { env_seen };

    ghost invariant = { λ e. IsEnv (env_seen e) };
}

impl Env {
    /// What is known at the begin of a file that defines these names, before the functions of the library are declared; and the type `int`,
    /// which is its first.
    pub fn new(alloc: Global, extent: Extent, defines: Items<Name>) -> Result<(Env, TyId), Memory>
        ensures made { IfOk result (λ begun. shut.int (first_env extent defines) ≡ Made begun.1 begun.0) }
        ensures found { IfOk result (λ begun. slice_get begun.0.types.types begun.1 ≡ Some (Ty.Int Kind.Int)) }
        ensures known { IfOk result (λ begun. IsType begun.0.types begun.1) }
    {
        let defines = NameTable::of(alloc, defines)?;
        let hand = Hand::of_file(alloc)?;
        let mut types = Types::new(alloc);
        let int = types.intern(Ty::Int(Kind::Int))?;
        let env = Env {
            alloc,
            extent,
            defines,
            types,
            classes: Declared::new(alloc),
            scopes: Scopes::new(alloc),
            entities: Vec::new(alloc),
            linked: Scopes::new(alloc),
            entries: Entries::new(alloc),
            hand,
            functions: Items::new(alloc),
            statics: Items::new(alloc),
        };
        Ok((env, int))
    }

    /// Where memory is taken.
    pub fn alloc(&self) -> Global {
        self.alloc
    }

    /// The types that were made so far. None is a class.
    pub fn types(&self) -> &Types
        ensures value { result.now ≡ self.now.types }
        ensures table { IsTable self.now.types }
        ensures no_class { HasNoClass self.now.types }
    {
        &self.types
    }

    /// The classes and enumerations. So far no class is defined.
    pub fn classes(&self) -> &Classes
        ensures value { result.now ≡ self.now.classes }
        ensures no_class { self.now.classes.defined ≡ [] }
        ensures enums { All (EnumGiven (length self.now.classes.enums)) self.now.types.types }
        ensures no_outer { All (λ l. l.outer ≡ None) self.now.classes.enums }
    {
        self.classes.classes()
    }

    /// How many enumerations there are.
    pub fn enum_count(&self) -> u32
        ensures { result ≡ length self.now.classes.enums }
    {
        self.classes.enum_count()
    }

    /// The forms of the language that are built.
    pub fn extent(&self) -> Extent
        ensures { result ≡ self.now.extent }
    {
        self.extent
    }

    /// The names that the file's own declarations define.
    pub fn defines(&self) -> &[Name]
        ensures { result.now ≡ self.now.defines }
    {
        self.defines.as_slice()
    }

    /// What names stand for, in order of declaration.
    pub fn entities(&self) -> &[Entity]
        ensures { map entity_seen result.now ≡ self.now.entities }
    {
        self.entities.as_slice()
    }

    /// Whether the file's own declarations define the name.
    pub fn defines_name(&self, name: &[u8]) -> bool
        ensures { result ≡ list_any (bytes_eq name.now) self.now.defines }
    {
        self.defines.has(name)
    }

    /// The declared functions that are no members, in order of declaration.
    pub fn entries(&self) -> &[FunctionEntry]
        ensures value { result.now ≡ self.now.entries }
        ensures known { All (λ f. IsEntry self.now.types f) self.now.entries }
    {
        self.entries.as_slice()
    }

    /// The functions that are defined so far, in order.
    pub fn functions(&self) -> &[CoreFn]
        ensures { result.now ≡ self.now.functions }
    {
        self.functions.as_slice()
    }

    /// The static objects that are defined so far, in order.
    pub fn statics(&self) -> &[CoreStatic]
        ensures { result.now ≡ self.now.statics }
    {
        self.statics.as_slice()
    }

    /// The core of a file at whose end this is known.
    pub fn into_unit(self) -> CoreUnit
        requires valid { IsValid (core_unit self) }
        ensures { result ≡ core_unit self }
    {
        let Env {
            types,
            classes,
            functions,
            statics,
            ..
        } = self;
        CoreUnit::new(types, classes.into_classes(), functions, statics)
    }

    /// What always holds of an environment is told to the caller.
    pub fn holds(&self)
        ensures { IsEnv self.now }
    {
        let _inside = &self.alloc;
    }
}

/// The number of what comes behind so many.
pub(crate) fn next_number(count: usize) -> Result<u32, Memory>
    ensures { IfOk result (λ number. number ≡ count) }
{
    u32::try_from(count).map_err(|_| Memory)
}
