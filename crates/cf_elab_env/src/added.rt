ghost use Rattle.std.specs.Prelude.{◌≡◌, ◌<◌, ◌++◌, ◌∷◌, [], length, IfOk, OnOk};
ghost use Rattle.cf_elab.specs.Answer.{Made};
ghost use Rattle.cf_elab_env.specs.Entries.{HasName};
ghost use Rattle.cf_elab_env.specs.Holds.{IsEntry};
ghost use Rattle.cf_elab_env.specs.Shut as shut;

use crate::env::Env;
use crate::functions::FunctionEntry;
use cf_base::{Memory, Name};
use cf_classes::Label;
use cf_core::{CoreFn, CoreStatic};

/// What a file adds to its environment.
impl Env {
    /// The number of one more declared function.
    pub fn add_entry(&mut self, entry: FunctionEntry) -> Result<u32, Memory>
        requires { IsEntry self.old.types entry }
        ensures number { IfOk result (λ number. number ≡ length self.old.entries) }
        ensures state { OnOk result (self.new ≡ record self.old { entries = self.old.entries ++ entry ∷ [] }) }
        ensures types { self.new.types ≡ self.old.types }
    {
        let number = self.entries.add(entry)?;
        Ok(number)
    }

    /// The function of this number is declared so from here on, by the name that it has.
    pub fn set_entry(&mut self, number: u32, entry: FunctionEntry)
        requires place { number < length self.old.entries }
        requires name { HasName self.old.entries number entry.name }
        requires known { IsEntry self.old.types entry }
        ensures made { shut.set_entry number entry self.old ≡ Made tt self.new }
        ensures types { self.new.types ≡ self.old.types }
    {
        self.entries.set(number, entry);
    }

    /// One more defined function.
    pub fn add_function(&mut self, function: CoreFn) -> Result<(), Memory>
        ensures state { OnOk result (self.new ≡ record self.old { functions = self.old.functions ++ function ∷ [] }) }
        ensures types { self.new.types ≡ self.old.types }
    {
        self.functions.push(function)?;
        Ok(())
    }

    /// One more defined static object.
    pub fn add_static(&mut self, object: CoreStatic) -> Result<(), Memory>
        ensures made { OnOk result (shut.define_static object self.old ≡ Made tt self.new) }
        ensures types { self.new.types ≡ self.old.types }
    {
        self.statics.push(object)?;
        Ok(())
    }

    /// The number of a new enumeration of this name, which is empty where it has none (7.2).
    pub fn new_enum(&mut self, name: Name) -> Result<u32, Memory>
        ensures made { IfOk result (λ number. shut.new_enum name self.old ≡ Made number self.new) }
        ensures types { self.new.types ≡ self.old.types }
    {
        let number = self.classes.declare_enum(Label { name, outer: None })?;
        Ok(number)
    }
}
