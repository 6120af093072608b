ghost use Rattle.std.specs.Prelude.{◌≡◌, ◌<◌, length, slice_get, Some, All, IfOk, IfSome, true, false};
ghost use Rattle.std.specs.Option.{option_map, option_copied};
ghost use Rattle.cf_lookup.specs.Scope.{all_found};
ghost use Rattle.cf_elab.specs.Names as names;
ghost use Rattle.cf_elab.specs.Paths.{found_alone, entity as entity_found};
ghost use Rattle.cf_elab_env.specs.Entries.{numbers_named};
ghost use Rattle.cf_elab_env.specs.Holds.{IsEntity, IsEntry};
ghost use Rattle.cf_elab_env.specs.Seen.{entity_seen};

use crate::entity::Entity;
use crate::env::Env;
use crate::functions::FunctionEntry;
use cf_base::Memory;

impl Env {
    /// What a name stands for: what the innermost scope that has it declares it as (3.2).
    pub fn find(&self, name: &[u8]) -> Option<&Entity>
        ensures value { found_alone self.now false name.now ≡ entity_found (option_map entity_seen (option_copied result)) }
        ensures known { IfSome result (λ e. IsEntity self.now.types (length self.now.entries) (entity_seen e.now)) }
    {
        let id = self.scopes.find(name)?;
        Some(self.entity(id.number()))
    }

    /// All that the open scopes declare a name as, by the numbers of the entities: the innermost scope first, and in each in order.
    pub fn find_all(&self, name: &[u8]) -> Result<Vec<u32>, Memory>
        ensures value { IfOk result (λ numbers. numbers.items ≡ all_found name.now self.now.scopes) }
        ensures known { IfOk result (λ numbers. All (λ number. number < length self.now.entities) numbers.items) }
    {
        let ids = self.scopes.find_all(name)?;
        let numbers = ids.iter().map(|id| id.number()).collect(self.alloc)?;
        Ok(numbers)
    }

    /// What the file's own scope declares a name as, which `::` asks (5.1).
    pub fn find_in_file(&self, name: &[u8]) -> Option<&Entity>
        ensures value { names.entity_named self.now true name.now ≡ option_map entity_seen (option_copied result) }
        ensures known { IfSome result (λ e. IsEntity self.now.types (length self.now.entries) (entity_seen e.now)) }
    {
        let id = self.scopes.find_in_file(name)?;
        Some(self.entity(id.number()))
    }

    /// What the innermost scope itself declares a name as, by the number of its entity.
    pub fn declared_here(&self, name: &[u8]) -> Option<u32>
        ensures value { result ≡ names.declared_here self.now name.now }
        ensures known { IfSome result (λ number. number < length self.now.entities) }
    {
        let id = self.scopes.find_here(name)?;
        Some(id.number())
    }

    /// What the name of this number stands for.
    pub fn entity(&self, number: u32) -> &Entity
        requires { number < length self.now.entities }
        ensures value { slice_get self.now.entities number ≡ Some (entity_seen result.now) }
        ensures known { IsEntity self.now.types (length self.now.entries) (entity_seen result.now) }
    {
        &self.entities[number as usize]
    }

    /// The declared functions of this name, by their numbers, in order of declaration.
    pub fn entries_named(&self, name: &[u8]) -> Result<Vec<u32>, Memory>
        ensures value { IfOk result (λ numbers. numbers.items ≡ numbers_named name.now self.now.entries) }
        ensures known { IfOk result (λ numbers. All (λ number. number < length self.now.entries) numbers.items) }
    {
        let numbers = self.entries.numbers_named(self.alloc, name)?;
        Ok(numbers)
    }

    /// The declared function of this number.
    pub fn entry(&self, number: u32) -> &FunctionEntry
        requires { number < length self.now.entries }
        ensures value { slice_get self.now.entries number ≡ Some result.now }
        ensures known { IsEntry self.now.types result.now }
    {
        self.entries.get(number)
    }
}
