ghost use Rattle.std.specs.Prelude.{◌≡◌, ℕ, ◌<◌, ◌≤◌, ◌-◌, ◌↔◌, List, [], ◌∷◌, ◌++◌, length, map, take, IsTrue, IfOk, OnOk, OnErr, None, is_none, bytes_eq};
ghost use Rattle.std.specs.Map.{lookup};
ghost use Rattle.cf_lookup.specs.Scope.{all_found, all_in, found, found_in, in_scope, named_in, file_scope, StillTells, TellsAgain};

use cf_base::Memory;
use indexmap::IndexMap;
use std::alloc::Global;
use std::marker::Model;
use std::mem;

/// Something that a name stands for, by its number in a table of the caller's.
#[derive(Clone, Copy, Debug, PartialEq, Eq, Hash)]
pub struct EntityId {
    number: u32,
}

impl Model for EntityId {
    ghost use Rattle.std.specs.Prelude.{ℕ};

    ghost Value = { ℕ };

    ghost view = { λ id. id.number };

    ghost inverse = { λ n. record { number = n } };
}

impl EntityId {
    /// The entity of this number.
    pub fn new(number: u32) -> EntityId
        ensures { result ≡ number }
    {
        EntityId { number }
    }

    /// Its number.
    pub fn number(self) -> u32
        ensures { result ≡ self }
    {
        self.number
    }
}

/// A name and what it is declared as.
#[derive(Drop)]
struct Declared {
    name: Vec<u8>,
    entity: EntityId,
}

/// The names that one scope declares, in order, and a table of all that each is declared as.
#[derive(Drop)]
struct Scope {
    declared: Vec<Declared>,
    table: IndexMap<Vec<u8>, Vec<EntityId>>,
}

impl Model for Scope {
    ghost use Rattle.std.specs.Prelude.{List, ℕ, map};
    ghost use Rattle.cf_lookup.specs.Scope.{TellsAll};

    ghost Value = { List (List ℕ × ℕ) };

    ghost view = { λ s. map (λ d. (d.name.items, d.entity)) s.declared.items };

    ghost invariant = { λ s. TellsAll (map (λ e. (e.0.items, e.1.items)) s.table.entries) (map (λ d. (d.name.items, d.entity)) s.declared.items) };
}

impl Scope {
    fn new(alloc: Global) -> Scope
        ensures { result ≡ [] }
    {
        Scope {
            declared: Vec::new(alloc),
            table: IndexMap::new(alloc),
        }
    }

    /// All that the scope declares the name as, in order.
    fn named(&self, name: &[u8]) -> &[EntityId]
        ensures { result.now ≡ named_in name.now self.now }
    {
        match self.table.get(name) {
            Some(all) => all.as_slice(),
            None => &[],
        }
    }

    /// What the scope declares the name as first.
    fn get(&self, name: &[u8]) -> Option<EntityId>
        ensures { result ≡ in_scope name.now self.now }
    {
        self.named(name).first().copied()
    }

    /// Notes all that the scope declares the name as, in order.
    fn add_named(&self, name: &[u8], found: &mut Vec<EntityId>) -> Result<(), Memory>
        ensures { OnOk result (found.new.items ≡ found.old.items ++ named_in name.now self.now) }
    {
        let named = self.named(name);
        for entity in named {
            found.push(*entity)?;
        }
        Ok(())
    }

    /// Declares a name behind those that the scope has.
    fn add(&mut self, alloc: Global, name: &[u8], entity: EntityId) -> Result<(), Memory>
        ensures ok { OnOk result (self.new ≡ self.old ++ (name.now, entity) ∷ []) }
        ensures err { OnErr result (self.new ≡ self.old) }
    {
        let own = Vec::from_slice(alloc, name)?;
        self.declared.reserve(1)?;
        note(alloc, &mut self.table, name, entity)?;
        self.declared.push(Declared { name: own, entity }).unwrap();
        Ok(())
    }
}

/// Notes what a name is declared as, behind what is noted of it.
fn note(
    alloc: Global,
    table: &mut IndexMap<Vec<u8>, Vec<EntityId>>,
    name: &[u8],
    entity: EntityId,
) -> Result<(), Memory>
    ensures ok { OnOk result (StillTells (map (λ e. (e.0.items, e.1.items)) table.old.entries) (map (λ e. (e.0.items, e.1.items)) table.new.entries) name.now entity) }
    ensures err { OnErr result (TellsAgain (map (λ e. (e.0.items, e.1.items)) table.old.entries) (map (λ e. (e.0.items, e.1.items)) table.new.entries)) }
{
    match table.get_mut(name) {
        Some(all) => {
            all.push(entity)?;
            Ok(())
        }
        None => {
            note_new(alloc, table, name, entity)?;
            Ok(())
        }
    }
}

/// Notes what a name is declared as of which nothing is noted.
fn note_new(
    alloc: Global,
    table: &mut IndexMap<Vec<u8>, Vec<EntityId>>,
    name: &[u8],
    entity: EntityId,
) -> Result<(), Memory>
    requires { lookup (λ k. bytes_eq name.now k.items) table.old.entries ≡ None }
    ensures ok { OnOk result (StillTells (map (λ e. (e.0.items, e.1.items)) table.old.entries) (map (λ e. (e.0.items, e.1.items)) table.new.entries) name.now entity) }
    ensures err { OnErr result (table.new.entries ≡ table.old.entries) }
{
    let own = Vec::from_slice(alloc, name)?;
    let mut all = Vec::new(alloc);
    all.push(entity)?;
    table.insert(own, all)?;
    Ok(())
}

/// The open scopes of a file (3.2).
#[derive(Drop)]
pub struct Scopes {
    alloc: Global,
    outer: Vec<Scope>,
    inner: Scope,
}

impl Model for Scopes {
    ghost use Rattle.cf_lookup.specs.Scope.{OpenScopes};

    ghost Value = { OpenScopes };

    ghost view = { λ s. record { outer = s.outer.items; inner = s.inner } };
}

impl Scopes {
    /// The file's scope alone, without names.
    pub fn new(alloc: Global) -> Scopes
        ensures outer { result.outer ≡ [] }
        ensures inner { result.inner ≡ [] }
    {
        Scopes {
            alloc,
            outer: Vec::new(alloc),
            inner: Scope::new(alloc),
        }
    }

    /// Opens a scope inside the innermost.
    pub fn enter(&mut self) -> Result<(), Memory>
        ensures outer { OnOk result (self.new.outer ≡ self.old.outer ++ self.old.inner ∷ []) }
        ensures inner { OnOk result (self.new.inner ≡ []) }
        ensures err { OnErr result (self.new ≡ self.old) }
    {
        self.outer.reserve(1)?;
        let around = mem::replace(&mut self.inner, Scope::new(self.alloc));
        self.outer.push(around).unwrap();
        Ok(())
    }

    /// Closes the innermost scope.
    pub fn leave(&mut self)
        requires { 0 < length self.old.outer }
        ensures { self.old.outer ≡ self.new.outer ++ self.new.inner ∷ [] }
    {
        self.inner = self.outer.pop().unwrap();
    }

    /// Declares a name in the innermost scope, and tells whether it was new there. A name that the scope has stands for what it stood for.
    pub fn declare(&mut self, name: &[u8], entity: EntityId) -> Result<bool, Memory>
        ensures fresh { IfOk result (λ fresh. fresh ≡ is_none (in_scope name.now self.old.inner)) }
        ensures declared { OnOk result (self.new.inner ≡ self.old.inner ++ (name.now, entity) ∷ []) }
        ensures outer { self.new.outer ≡ self.old.outer }
        ensures err { OnErr result (self.new ≡ self.old) }
    {
        let fresh = self.inner.get(name).is_none();
        self.inner.add(self.alloc, name, entity)?;
        Ok(fresh)
    }

    /// What the innermost scope itself declares the name as.
    pub fn find_here(&self, name: &[u8]) -> Option<EntityId>
        ensures { result ≡ in_scope name.now self.now.inner }
    {
        self.inner.get(name)
    }

    /// What the file's own scope declares the name as.
    pub fn find_in_file(&self, name: &[u8]) -> Option<EntityId>
        ensures { result ≡ in_scope name.now (file_scope self.now) }
    {
        match self.outer.as_slice().first() {
            Some(file) => file.get(name),
            None => self.inner.get(name),
        }
    }

    /// Whether the file's own scope is the innermost.
    pub fn is_file_scope(&self) -> bool
        ensures { IsTrue result ↔ (self.now.outer ≡ []) }
    {
        self.outer.is_empty()
    }

    /// What the innermost scope that has the name declares it as.
    pub fn find(&self, name: &[u8]) -> Option<EntityId>
        ensures { result ≡ found name.now self.now }
    {
        self.inner
            .get(name)
            .or(find_in(self.outer.as_slice(), name))
    }

    /// All that the name is declared as in the open scopes: the innermost scope first, and in each scope in order of declaration.
    #[tactic(auto, using(crate::proofs::All::all_found_is))]
    pub fn find_all(&self, name: &[u8]) -> Result<Vec<EntityId>, Memory>
        ensures { IfOk result (λ found. found.items ≡ all_found name.now self.now) }
    {
        let mut found = Vec::new(self.alloc);
        self.inner.add_named(name, &mut found)?;
        add_all(self.outer.as_slice(), name, &mut found)?;
        Ok(found)
    }
}

/// Notes all that these scopes declare the name as, those of the last scope first.
fn add_all(scopes: &[Scope], name: &[u8], found: &mut Vec<EntityId>) -> Result<(), Memory>
    ensures { OnOk result (found.new.items ≡ found.old.items ++ all_in name.now scopes.now) }
{
    let mut around = scopes.len();
    while around > 0 {
        around -= 1;
        scopes[around].add_named(name, found)?;
    }
    Ok(())
}

/// What the last of these scopes that has the name declares it as.
fn find_in(scopes: &[Scope], name: &[u8]) -> Option<EntityId>
    ensures { result ≡ found_in name.now scopes.now }
{
    let mut around = scopes.len();
    while around > 0 {
        around -= 1;
        let entity = scopes[around].get(name);
        if entity.is_some() {
            return entity;
        }
    }
    None
}
