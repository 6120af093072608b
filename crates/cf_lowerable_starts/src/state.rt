//! What is known while the statements of an initialiser run.

ghost use Rattle.std.specs.Prelude.{◌≡◌, ◌∷◌, OnOk};
ghost use Rattle.cf_lower.specs.Constants as definition;
ghost use Rattle.cf_lower_constants.specs.declared.site.Site.{Site as SiteOf};
ghost use Rattle.cf_lower_constants.specs.Sites.{told};
ghost use Rattle.cf_lower_program.specs.Alike as alike;
ghost use Rattle.cf_lowerable_starts.specs.Telling.{detail_in, knows, part_in, tells};

use crate::details::{Detail, Details};
use crate::parts::Part;
use cf_base::Memory;
use cf_lower_constants::{Known, Knowns};
use std::alloc::Global;

/// What registers hold, what else is known of them, and which parts of its object an initialiser has set.
#[derive(Drop)]
pub struct State {
    pub known: Knowns,
    pub details: Details,
    pub parts: Vec<Part>,
}

impl State {
    /// Nothing is known, and nothing is set.
    pub(crate) fn new(alloc: Global) -> State
        ensures known { (x : SiteOf) → knows x result ≡ definition.nothing_known }
        ensures told { (x : SiteOf) → tells x result ≡ alike.nothing_told }
    {
        State {
            known: Knowns::new(alloc),
            details: Details::new(alloc),
            parts: Vec::new(alloc),
        }
    }

    /// Nothing is known any more.
    pub(crate) fn forget(&mut self)
        ensures known { (x : SiteOf) → knows x self.new ≡ definition.nothing_known }
        ensures told { (x : SiteOf) → tells x self.new ≡ alike.nothing_told }
    {
        self.known.forget();
        self.details.forget();
        self.parts.truncate(0);
    }

    /// This is known of a register from now on.
    pub(crate) fn set(
        &mut self,
        alloc: Global,
        register: u32,
        known: Known,
        detail: Detail,
    ) -> Result<(), Memory>
        ensures known { (x : SiteOf) → OnOk result (knows x self.new ≡ definition.know (knows x self.old) register (told x known)) }
        ensures told { (x : SiteOf) → OnOk result (tells x self.new
            ≡ record { facts = alike.tell (tells x self.old).facts register (detail_in x.tables.now detail); parts = (tells x self.old).parts }) }
    {
        self.known.know(alloc, register, known)?;
        self.details.tell(register, detail)?;
        Ok(())
    }

    /// A part is set.
    pub(crate) fn add_part(&mut self, part: Part) -> Result<(), Memory>
        ensures known { (x : SiteOf) → OnOk result (knows x self.new ≡ knows x self.old) }
        ensures told { (x : SiteOf) → OnOk result (tells x self.new ≡ record { facts = (tells x self.old).facts; parts = part_in part ∷ (tells x self.old).parts }) }
    {
        self.parts.push(part)?;
        Ok(())
    }
}
