ghost use Rattle.std.specs.Prelude.{◌≡◌, ◌+◌, [], IfOk, OnOk};
ghost use Rattle.cf_sequence_expr.specs.Writes as spec;

use cf_base::{Bytes, Items, Memory};
use cf_plain::{Action, Plain};
use std::alloc::Global;
use std::mem::replace;

/// What is written of a function.
#[derive(Drop)]
pub struct Writing {
    pub alloc: Global,
    /// The statements so far.
    pub code: Items<Plain>,
    /// The number of the next local that is added.
    pub next: u32,
}

/// A full expression: the number of its first local, and the register of that local's flag.
#[derive(Clone, Copy, Debug, PartialEq, Eq)]
pub struct Full {
    pub first: u32,
    pub base: u32,
}

impl Full {
    /// The register of a local's flag, which tells whether the temporary is there (12.2).
    #[tactic(auto, unfolding(crate::specs::Writes::flag))]
    pub fn flag(self, local: u32) -> Result<u32, Memory>
        ensures { IfOk result (λ register. register ≡ spec.flag self local) }
    {
        self.base
            .checked_add(local.saturating_sub(self.first))
            .ok_or(Memory)
    }
}

/// The register or local behind this one. At the greatest number there is none, which is answered as want of memory.
pub fn behind(number: u32) -> Result<u32, Memory>
    ensures { IfOk result (λ after. after ≡ number + 1) }
{
    number.checked_add(1).ok_or(Memory)
}

/// The register or local so many behind this one. Beyond the greatest number there is none, which is answered as want of memory.
pub fn beyond(number: u32, count: usize) -> Result<u32, Memory>
    ensures { IfOk result (λ after. after ≡ number + count) }
{
    let count = u32::try_from(count).map_err(|_| Memory)?;
    number.checked_add(count).ok_or(Memory)
}

/// The same bytes in a list of their own.
pub fn copied(alloc: Global, bytes: &Bytes) -> Result<Bytes, Memory>
    ensures { IfOk result (λ made. made ≡ bytes.now) }
{
    Items::from_slice(alloc, bytes.as_slice())
}

impl Writing {
    /// A statement comes behind those so far.
    #[tactic(auto, unfolding(crate::specs::Writes::put))]
    pub fn put(&mut self, statement: Plain) -> Result<(), Memory>
        ensures { OnOk result (self.new ≡ spec.put statement self.old) }
    {
        self.code.push(statement)
    }

    /// What an action gives is kept in a register.
    #[tactic(auto, unfolding(crate::specs::Writes::set))]
    pub fn set(&mut self, register: u32, action: Action) -> Result<(), Memory>
        ensures { OnOk result (self.new ≡ spec.set register action self.old) }
    {
        self.put(Plain::Set { register, action })
    }

    /// What an action gives is not kept.
    #[tactic(auto, unfolding(crate::specs::Writes::act))]
    pub fn act(&mut self, action: Action) -> Result<(), Memory>
        ensures { OnOk result (self.new ≡ spec.act action self.old) }
    {
        self.put(Plain::Act { action })
    }

    /// A value is looked at where it is used (6.6.3).
    #[tactic(auto, unfolding(crate::specs::Writes::used))]
    pub fn used(&mut self, register: u32) -> Result<(), Memory>
        ensures { OnOk result (self.new ≡ spec.used register self.old) }
    {
        self.act(Action::Truth { operand: register })
    }

    /// What is written next begins a list of its own; the statements so far are handed out.
    #[tactic(auto, unfolding(crate::specs::Writes::emptied))]
    pub fn begin(&mut self) -> Items<Plain>
        ensures written { self.new ≡ spec.emptied self.old }
        ensures before { result ≡ self.old.code }
    {
        replace(&mut self.code, Items::new(self.alloc))
    }

    /// A branch by the number in a register comes behind the statements before: with these statements where it is not 0, else with what
    /// was written last.
    #[tactic(auto, unfolding(crate::specs::Writes::branched))]
    pub fn branch(
        &mut self,
        register: u32,
        before: Items<Plain>,
        yes: Items<Plain>,
    ) -> Result<(), Memory>
        ensures { OnOk result (self.new ≡ spec.branched register before yes self.old) }
    {
        let no = replace(&mut self.code, before);
        self.code.push(Plain::If { register, yes, no })
    }

    /// So many locals were added.
    #[tactic(auto, unfolding(crate::specs::Writes::passed))]
    pub fn pass(&mut self, count: usize) -> Result<(), Memory>
        ensures { OnOk result (self.new ≡ spec.passed count self.old) }
    {
        self.next = beyond(self.next, count)?;
        Ok(())
    }
}
