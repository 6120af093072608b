ghost use Rattle.std.specs.Prelude.{◌≡◌, ℕ, ◌<◌, [], length, slice_index, slice_set, true, false, IfOk, OnOk, OnErr};
ghost use Rattle.cf_syntax.specs.Names.{no_names, find, find_in, find_here, find_in_file, with_class, with_bases, with_scope, without_scope, declared, is_defined, grown, based, class_at, no_class};
ghost use Rattle.cf_syntax.specs.Closing.{closed_to, opened_beyond};
ghost use Rattle.cf_syntax.specs.Entered.{entered_at, find_type, outside_classes};
ghost use Rattle.cf_syntax.specs.Named.{opened};
ghost use Rattle.cf_syntax.specs.declared.type_names.Scope.TheVariants.{Block, Class};

use crate::copied;
use crate::entries::Entries;
use crate::lookup::{
    if_type, kind_in_class, kind_in_scope, kind_in_scopes, outside_classes, type_in_scopes,
};
use cf_base::{Bytes, Items, Memory};
use cf_shared::{Shared, SharedVec};
use std::alloc::Global;
use std::marker::Model;

/// What a name stands for while a file is read.
#[derive(Clone, Copy, Debug, PartialEq, Eq)]
pub enum NameKind {
    /// No type.
    Value,
    /// A type that is no class.
    Plain,
    /// The class of this number.
    OfClass(u32),
}

/// A name with what it stands for.
#[derive(Drop)]
pub struct Entry {
    pub name: Bytes,
    pub kind: NameKind,
}

/// A class: its own names, the oldest first, and its bases once it is defined.
#[derive(Drop)]
pub struct ClassNames {
    pub entries: Entries,
    pub bases: Shared<Items<u32>>,
    pub is_defined: bool,
}

/// An open scope inside the file's.
#[derive(Drop)]
pub enum Scope {
    /// A scope with names of its own, the oldest first.
    Block(Entries),
    /// The scope of the class of this number.
    Class(u32),
}

/// The names that are types, in the scopes that are open while a file is read (3.2).
#[derive(Drop)]
pub struct TypeNames {
    alloc: Global,
    classes: SharedVec<ClassNames>,
    file: Entries,
    inner: Vec<Scope>,
}

impl Model for TypeNames {
    ghost use Rattle.cf_syntax.specs.NamesData.{Names};

    ghost Value = { Names };

    ghost view = { λ a. record { classes = a.classes; file = a.file; inner = a.inner.items } };
}

impl TypeNames {
    /// The file's scope alone, with no names in it. It takes no memory.
    pub fn new(alloc: Global) -> TypeNames
        ensures { result ≡ no_names }
    {
        TypeNames {
            alloc,
            classes: SharedVec::new(alloc),
            file: Entries::new(alloc),
            inner: Vec::new(alloc),
        }
    }

    /// The same names in a table of their own, in a time that grows with the number of open scopes alone.
    pub fn copy(&self) -> Result<TypeNames, Memory>
        ensures { IfOk result (λ made. made ≡ self.now) }
    {
        Ok(TypeNames {
            alloc: self.alloc,
            classes: self.classes.copy()?,
            file: self.file.copy()?,
            inner: copied::scopes(self.alloc, &self.inner)?,
        })
    }

    /// The number of a new class, without names and bases, that isn't defined.
    pub fn new_class(&mut self) -> Result<u32, Memory>
        ensures given { IfOk result (λ class. class ≡ length self.old.classes) }
        ensures ok { OnOk result (self.new ≡ with_class self.old) }
        ensures err { OnErr result (self.new ≡ self.old) }
    {
        let Ok(number) = u32::try_from(self.classes.len()) else {
            return Err(Memory);
        };
        self.classes.push(no_class(self.alloc)?)?;
        Ok(number)
    }

    /// Sets the bases of a class, which is defined from now on.
    pub fn bases(&mut self, class: u32, bases: &[u32]) -> Result<(), Memory>
        requires given { class < length self.old.classes }
        requires open { is_defined self.old class ≡ false }
        requires bases_defined { (i : ℕ) → i < length bases.now → is_defined self.old (slice_index bases.now i) ≡ true }
        ensures ok { OnOk result (self.new ≡ with_bases self.old class bases.now) }
        ensures err { OnErr result (self.new ≡ self.old) }
    {
        self.define(class, bases)
    }

    /// Sets the bases of a class, which is defined from now on, where there is a class of this number.
    pub fn define(&mut self, class: u32, bases: &[u32]) -> Result<(), Memory>
        ensures ok { OnOk result (self.new ≡ with_bases self.old class bases.now) }
        ensures err { OnErr result (self.new ≡ self.old) }
    {
        define_class(self.alloc, &mut self.classes, class, bases)
    }

    /// Whether the bases of a class were set.
    pub fn is_defined(&self, class: u32) -> bool
        ensures { result ≡ is_defined self.now class }
    {
        is_class_defined(&self.classes, class)
    }

    /// Opens a scope.
    pub fn enter(&mut self) -> Result<(), Memory>
        ensures ok { OnOk result (self.new ≡ with_scope self.old (Block [])) }
        ensures err { OnErr result (self.new ≡ self.old) }
    {
        self.inner.push(Scope::Block(Entries::new(self.alloc)))?;
        Ok(())
    }

    /// Opens the scope of a class.
    pub fn enter_class(&mut self, class: u32) -> Result<(), Memory>
        requires { class < length self.old.classes }
        ensures ok { OnOk result (self.new ≡ with_scope self.old (Class class)) }
        ensures err { OnErr result (self.new ≡ self.old) }
    {
        self.inner.push(Scope::Class(class))?;
        Ok(())
    }

    /// Opens the scope of the class of this number, which has no names where there is none.
    pub fn open_class(&mut self, class: u32) -> Result<(), Memory>
        ensures { OnOk result (self.new ≡ with_scope self.old (Class class)) }
    {
        self.inner.push(Scope::Class(class))?;
        Ok(())
    }

    /// Opens the scopes of these classes, the last innermost.
    #[tactic(auto, using(crate::proofs::Opening::opened_push))]
    pub fn open_classes(&mut self, classes: &[u32]) -> Result<(), Memory>
        ensures { OnOk result (self.new ≡ opened self.old classes.now) }
    {
        for class in classes {
            self.open_class(*class)?;
        }
        Ok(())
    }

    /// The smallest open scope that isn't a class's, as so many open scopes: none is the file's (11.4).
    pub fn outside_classes(&self) -> usize
        ensures { result ≡ outside_classes self.now }
    {
        outside_classes(&self.inner)
    }

    /// How many scopes are open inside the file's.
    pub fn open_scopes(&self) -> usize
        ensures { result ≡ length self.now.inner }
    {
        self.inner.len()
    }

    /// Opens copies of the scopes that are open in the other names beyond as many as are open here.
    pub fn open_beyond(&mut self, other: &TypeNames) -> Result<(), Memory>
        ensures ok { OnOk result (self.new ≡ opened_beyond self.old other.now) }
        ensures err { OnErr result (self.new ≡ self.old) }
    {
        let mut scopes = copied::scopes_beyond(self.alloc, &other.inner, self.inner.len())?;
        self.inner.append(&mut scopes)?;
        Ok(())
    }

    /// Closes the innermost scopes until at most so many are open inside the file's.
    pub fn leave_to(&mut self, count: usize)
        ensures { self.new ≡ closed_to count self.old }
    {
        self.inner.truncate(count);
    }

    /// Closes the innermost scope. The names of a class stay.
    pub fn leave(&mut self)
        requires { 0 < length self.old.inner }
        ensures { self.new ≡ without_scope self.old }
    {
        let _ = self.inner.pop();
    }

    /// Sets a name in the innermost scope.
    pub fn declare(&mut self, name: &[u8], kind: NameKind) -> Result<(), Memory>
        ensures ok { OnOk result (self.new ≡ declared self.old name.now kind) }
        ensures err { OnErr result (self.new ≡ self.old) }
    {
        let name = Bytes::from_slice(self.alloc, name)?;
        let entry = Entry { name, kind };
        let count = self.inner.len();
        if count == 0 {
            return self.file.push(entry);
        }
        match &mut self.inner[count - 1] {
            Scope::Block(entries) => entries.push(entry),
            Scope::Class(class) => add_to_class(&mut self.classes, *class, entry),
        }
    }

    /// Sets a name in the last of so many open scopes, and in the file's where there is none.
    pub fn declare_in(&mut self, count: usize, name: &[u8], kind: NameKind) -> Result<(), Memory>
        ensures ok { OnOk result (self.new ≡ entered_at count self.old name.now kind) }
        ensures err { OnErr result (self.new ≡ self.old) }
    {
        let name = Bytes::from_slice(self.alloc, name)?;
        let entry = Entry { name, kind };
        if count == 0 {
            return self.file.push(entry);
        }
        if count > self.inner.len() {
            return Ok(());
        }
        match &mut self.inner[count - 1] {
            Scope::Block(entries) => entries.push(entry),
            Scope::Class(class) => add_to_class(&mut self.classes, *class, entry),
        }
    }

    /// What the innermost open scope that has the name says of it.
    pub fn find(&self, name: &[u8]) -> Option<NameKind>
        ensures { result ≡ find self.now name.now }
    {
        match kind_in_scopes(&self.classes, &self.inner, name) {
            Some(kind) => Some(kind),
            None => self.file.kind(name),
        }
    }

    /// What the innermost open scope where the name is a type says of it: other names don't hide it (9.1).
    pub fn find_type(&self, name: &[u8]) -> Option<NameKind>
        ensures { result ≡ find_type self.now name.now }
    {
        match type_in_scopes(&self.classes, &self.inner, name) {
            Some(kind) => Some(kind),
            None => if_type(self.file.kind(name)),
        }
    }

    /// What the file's scope says of a name.
    pub fn find_in_file(&self, name: &[u8]) -> Option<NameKind>
        ensures { result ≡ find_in_file self.now name.now }
    {
        self.file.kind(name)
    }

    /// What a class, or else its bases in order and depth first, says of a name.
    pub fn find_in(&self, class: u32, name: &[u8]) -> Option<NameKind>
        ensures { result ≡ find_in self.now class name.now }
    {
        kind_in_class(&self.classes, self.classes.len(), class, name)
    }

    /// What the innermost open scope says of a name.
    pub fn find_here(&self, name: &[u8]) -> Option<NameKind>
        ensures { result ≡ find_here self.now name.now }
    {
        let count = self.inner.len();
        if count == 0 {
            return self.file.kind(name);
        }
        kind_in_scope(&self.classes, &self.inner[count - 1], name)
    }
}

/// Whether the bases of the class of this number were set.
fn is_class_defined(classes: &SharedVec<ClassNames>, class: u32) -> bool
    ensures { result ≡ (class_at classes.now class).is_defined }
{
    match classes.get(class as usize) {
        Some(found) => found.is_defined,
        None => false,
    }
}

/// A new class.
fn no_class(alloc: Global) -> Result<ClassNames, Memory>
    ensures { IfOk result (λ made. made ≡ no_class) }
{
    Ok(ClassNames {
        entries: Entries::new(alloc),
        bases: Shared::new(alloc, Items::new(alloc))?,
        is_defined: false,
    })
}

/// The class with these bases, and defined.
fn based(alloc: Global, class: &ClassNames, bases: &[u32]) -> Result<ClassNames, Memory>
    ensures { IfOk result (λ made. made ≡ based class.now bases.now) }
{
    Ok(ClassNames {
        entries: class.entries.copy()?,
        bases: Shared::new(alloc, Items::from_slice(alloc, bases)?)?,
        is_defined: true,
    })
}

/// Sets the bases of the class of this number.
fn define_class(
    alloc: Global,
    classes: &mut SharedVec<ClassNames>,
    class: u32,
    bases: &[u32],
) -> Result<(), Memory>
    ensures ok { OnOk result (classes.new ≡ slice_set classes.old class (based (class_at classes.old class) bases.now)) }
    ensures err { OnErr result (classes.new ≡ classes.old) }
{
    let Some(found) = classes.get(class as usize) else {
        return Ok(());
    };
    let defined = based(alloc, found, bases)?;
    classes.set(class as usize, defined)?;
    Ok(())
}

/// Adds an entry to the class of this number.
fn add_to_class(classes: &mut SharedVec<ClassNames>, class: u32, entry: Entry) -> Result<(), Memory>
    ensures ok { OnOk result (classes.new ≡ slice_set classes.old class (grown (class_at classes.old class) entry)) }
    ensures err { OnErr result (classes.new ≡ classes.old) }
{
    let Some(found) = classes.get(class as usize) else {
        return Ok(());
    };
    let grown = with_entry(found, entry)?;
    classes.set(class as usize, grown)?;
    Ok(())
}

/// The class with one more entry.
fn with_entry(class: &ClassNames, entry: Entry) -> Result<ClassNames, Memory>
    ensures { IfOk result (λ made. made ≡ grown class.now entry) }
{
    let mut made = copied::class(class)?;
    made.entries.push(entry)?;
    Ok(made)
}
