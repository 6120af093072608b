ghost use Rattle.std.specs.Prelude.{◌≡◌, ◌<◌, ◌++◌, ◌∷◌, [], length, IfOk, OnOk, OnErr};
ghost use Rattle.std.specs.Option.{ForSome};

use cf_base::Memory;
use cf_classes::{Classes, Label};
use std::alloc::Global;
use std::marker::Model;

/// The classes and enumerations of a file, and how many enumerations they are.
#[derive(Drop)]
pub(crate) struct Declared {
    classes: Classes,
    enums: u32,
}

impl Model for Declared {
    ghost use Rattle.std.specs.Prelude.{◌≡◌, length};
    ghost use Rattle.cf_classes.specs.ClassTable.{ClassTable};

    ghost Value = { ClassTable };

    ghost view = { λ d. d.classes };

    ghost invariant = { λ d. d.enums ≡ length d.classes.enums };
}

impl Declared {
    /// None of either.
    pub(crate) fn new(alloc: Global) -> Declared
        ensures labels { result.labels ≡ [] }
        ensures enums { result.enums ≡ [] }
        ensures defined { result.defined ≡ [] }
    {
        Declared {
            classes: Classes::new(alloc),
            enums: 0,
        }
    }

    pub(crate) fn classes(&self) -> &Classes
        ensures { result.now ≡ self.now }
    {
        &self.classes
    }

    /// They themselves.
    pub(crate) fn into_classes(self) -> Classes
        ensures { result ≡ self }
    {
        let Declared { classes, .. } = self;
        classes
    }

    /// How many enumerations there are.
    pub(crate) fn enum_count(&self) -> u32
        ensures { result ≡ length self.now.enums }
    {
        self.enums
    }

    /// The number of a new enumeration.
    pub(crate) fn declare_enum(&mut self, label: Label) -> Result<u32, Memory>
        requires { ForSome label.outer (λ outer. outer < length self.old.labels) }
        ensures next { IfOk result (λ number. number ≡ length self.old.enums) }
        ensures enums { OnOk result (self.new.enums ≡ self.old.enums ++ label ∷ []) }
        ensures labels { self.new.labels ≡ self.old.labels }
        ensures defined { self.new.defined ≡ self.old.defined }
        ensures err { OnErr result (self.new ≡ self.old) }
    {
        let count = self.enums.checked_add(1).ok_or(Memory)?;
        let number = self.classes.declare_enum(label)?;
        self.enums = count;
        Ok(number)
    }
}
