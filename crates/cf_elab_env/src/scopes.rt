ghost use Rattle.std.specs.Prelude.{◌≡◌, ◌<◌, ◌++◌, ◌∷◌, [], length, OnOk, IfSome};
ghost use Rattle.cf_lookup.specs.Scope.{in_scope};
ghost use Rattle.cf_elab.specs.Answer.{Made};
ghost use Rattle.cf_elab.specs.Names as names;
ghost use Rattle.cf_elab_env.specs.Holds.{IsEntity};
ghost use Rattle.cf_elab_env.specs.Seen.{entity_seen};
ghost use Rattle.cf_elab_env.specs.Shut as shut;

use crate::entity::Entity;
use crate::env::{Env, next_number};
use cf_base::{Memory, Name};
use cf_lookup::{EntityId, Scopes};

impl Env {
    /// Whether the file's own scope is the innermost.
    pub fn is_file_scope(&self) -> bool
        ensures { result ≡ names.is_file_scope self.now.scopes }
    {
        self.scopes.is_file_scope()
    }

    /// Opens a scope inside the innermost.
    pub fn enter_scope(&mut self) -> Result<(), Memory>
        ensures made { OnOk result (shut.enter_scope self.old ≡ Made tt self.new) }
        ensures types { self.new.types ≡ self.old.types }
    {
        self.scopes.enter()?;
        Ok(())
    }

    /// Closes the innermost scope. The file's own is empty afterwards.
    pub fn leave_scope(&mut self)
        ensures made { shut.leave_scope self.old ≡ Made tt self.new }
        ensures types { self.new.types ≡ self.old.types }
    {
        if self.scopes.is_file_scope() {
            self.scopes = Scopes::new(self.alloc);
        } else {
            self.scopes.leave();
        }
    }

    /// A new entity of this name in the innermost scope. What the scope declared by the name before stays what the name stands for.
    pub fn declare(&mut self, name: &[u8], entity: Entity) -> Result<(), Memory>
        requires { IsEntity self.old.types (length self.old.entries) (entity_seen entity) }
        ensures made { OnOk result (shut.declare name.now (entity_seen entity) self.old ≡ Made tt self.new) }
        ensures types { self.new.types ≡ self.old.types }
    {
        let number = next_number(self.entities.len())?;
        self.entities.push(entity)?;
        self.scopes.declare(name, EntityId::new(number))?;
        Ok(())
    }

    /// One more name, in the innermost scope, for what is declared already.
    pub fn bind_name(&mut self, name: &[u8], number: u32) -> Result<(), Memory>
        requires { number < length self.old.entities }
        ensures made { OnOk result (shut.bind_name name.now number self.old ≡ Made tt self.new) }
        ensures types { self.new.types ≡ self.old.types }
    {
        self.scopes.declare(name, EntityId::new(number))?;
        Ok(())
    }

    /// What is declared under this number is this from here on.
    pub fn redeclare(&mut self, number: u32, entity: Entity)
        requires place { number < length self.old.entities }
        requires known { IsEntity self.old.types (length self.old.entries) (entity_seen entity) }
        ensures made { shut.redeclare number (entity_seen entity) self.old ≡ Made tt self.new }
        ensures types { self.new.types ≡ self.old.types }
    {
        self.entities[number as usize] = entity;
    }

    /// The object with linkage of this name, by the number of its entity (3.3).
    pub fn linked(&self, name: &[u8]) -> Option<u32>
        ensures value { result ≡ in_scope name.now self.now.linked }
        ensures known { IfSome result (λ number. number < length self.now.entities) }
    {
        let id = self.linked.find_here(name)?;
        Some(id.number())
    }

    /// Notes that an object has linkage under this name.
    pub fn link_name(&mut self, name: Name, number: u32) -> Result<(), Memory>
        requires { number < length self.old.entities }
        ensures state { OnOk result (self.new ≡ record self.old { linked = self.old.linked ++ (name, number) ∷ [] }) }
        ensures types { self.new.types ≡ self.old.types }
    {
        self.linked.declare(name.as_slice(), EntityId::new(number))?;
        Ok(())
    }
}
