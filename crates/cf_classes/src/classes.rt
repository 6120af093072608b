ghost use Rattle.std.specs.Prelude.{◌≡◌, ℕ, ◌<◌, ◌≤◌, ◌^◌, List, [], ◌∷◌, ◌++◌, length, slice_get, Some, IfOk, OnOk, OnErr, IsTrue, is_some};
ghost use Rattle.std.specs.Option.{ForSome, option_map};
ghost use Rattle.cf_classes.specs.ClassTable.{latest_first, definition};
ghost use Rattle.cf_classes.specs.Layout.{extent, is_complete, accepted_size};

use crate::class::ClassDef;
use crate::label::Label;
use crate::sizes::size_without_classes;
use cf_base::Memory;
use cf_types::{ClassId, TyId, Types};
use indexmap::IndexMap;
use std::alloc::Global;
use std::marker::Model;

/// The classes and enumerations of a file. A class is declared before what stands in it, and defined after its bases.
#[derive(Drop)]
pub struct Classes {
    labels: Vec<Label>,
    enums: Vec<Label>,
    defined: IndexMap<ClassId, ClassDef>,
}

impl Model for Classes {
    ghost use Rattle.cf_classes.specs.ClassTable.{ClassTable};
    ghost use Rattle.cf_classes.specs.Fit.{IsClassTable};

    ghost Value = { ClassTable };

    ghost view = { λ c. record { labels = c.labels.items; enums = c.enums.items; defined = c.defined.entries } };

    ghost invariant = { λ c. IsClassTable (record { labels = c.labels.items; enums = c.enums.items; defined = c.defined.entries }) };
}

impl Classes {
    /// The table without classes.
    pub fn new(alloc: Global) -> Classes
        ensures labels { result.labels ≡ [] }
        ensures enums { result.enums ≡ [] }
        ensures defined { result.defined ≡ [] }
    {
        Classes {
            labels: Vec::new(alloc),
            enums: Vec::new(alloc),
            defined: IndexMap::new(alloc),
        }
    }

    /// A new class, which has no definition yet.
    pub fn declare(&mut self, label: Label) -> Result<ClassId, Memory>
        requires { ForSome label.outer (λ outer. outer < length self.old.labels) }
        ensures next { IfOk result (λ id. id ≡ length self.old.labels) }
        ensures labels { OnOk result (self.new.labels ≡ self.old.labels ++ label ∷ []) }
        ensures enums { self.new.enums ≡ self.old.enums }
        ensures defined { self.new.defined ≡ self.old.defined }
        ensures err { OnErr result (self.new ≡ self.old) }
    {
        let number = add_label(&mut self.labels, label)?;
        Ok(ClassId::new(number))
    }

    /// The number of a new enumeration.
    pub fn declare_enum(&mut self, label: Label) -> Result<u32, Memory>
        requires { ForSome label.outer (λ outer. outer < length self.old.labels) }
        ensures next { IfOk result (λ number. number ≡ length self.old.enums) }
        ensures enums { OnOk result (self.new.enums ≡ self.old.enums ++ label ∷ []) }
        ensures labels { self.new.labels ≡ self.old.labels }
        ensures defined { self.new.defined ≡ self.old.defined }
        ensures err { OnErr result (self.new ≡ self.old) }
    {
        let number = add_label(&mut self.enums, label)?;
        Ok(number)
    }

    /// What a class is called.
    pub fn label(&self, class: ClassId) -> &Label
        requires { class < length self.now.labels }
        ensures { slice_get self.now.labels class ≡ Some result.now }
    {
        &self.labels[class.number() as usize]
    }

    /// What an enumeration is called.
    pub fn enum_label(&self, number: u32) -> &Label
        requires { number < length self.now.enums }
        ensures { slice_get self.now.enums number ≡ Some result.now }
    {
        &self.enums[number as usize]
    }

    /// Whether a class has a definition.
    pub fn is_defined(&self, class: ClassId) -> bool
        ensures { result ≡ is_some (definition self.now.defined class) }
    {
        self.defined.contains_key(&class)
    }

    /// The bytes of an object of this type, if a type of that size is accepted.
    /// So far no class has a definition.
    pub fn size(&self, types: &Types, ty: TyId) -> Option<u32>
        requires known { ty < length types.now.types }
        requires complete { IsTrue (is_complete types.now (latest_first self.now) ty) }
        requires no_class { self.now.defined ≡ [] }
        ensures { result ≡ accepted_size (extent types.now (latest_first self.now) ty).size }
    {
        size_without_classes(types, ty)
    }

    /// How many classes have a definition.
    pub fn count(&self) -> usize
        ensures { result ≡ length self.now.defined }
    {
        self.defined.len()
    }

    /// The class whose definition has this number, from 0, in the order of definition.
    pub fn nth(&self, number: usize) -> ClassId
        requires { number < length self.now.defined }
        ensures { option_map (λ d. d.0) (slice_get self.now.defined number) ≡ Some result }
    {
        let (class, _) = self.defined.get_index(number).unwrap();
        *class
    }
}

/// The place of a label at the end of a list. Numbers have 32 bits, so no more labels are held.
fn add_label(labels: &mut Vec<Label>, label: Label) -> Result<u32, Memory>
    ensures next { IfOk result (λ number. number ≡ length labels.old.items) }
    ensures ok { OnOk result (labels.new.items ≡ labels.old.items ++ label ∷ []) }
    ensures err { OnErr result (labels.new.items ≡ labels.old.items) }
{
    let number = u32::try_from(labels.len()).map_err(|_| Memory)?;
    labels.push(label)?;
    Ok(number)
}
