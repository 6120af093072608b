ghost use Rattle.std.specs.Prelude.{◌≡◌, OnOk};
ghost use Rattle.cf_elab_declare.specs.Starts.Carried as carried;

use cf_base::{Items, Memory};
use cf_core::Core;
use cf_elab_initial::Start;
use std::alloc::Global;

/// The initialisers of the elements of an array so far.
#[derive(Drop)]
pub(crate) struct Starts {
    pub nodes: Items<Core>,
    pub are_constant: bool,
}

impl Starts {
    pub(crate) fn new(alloc: Global) -> Starts
        ensures { carried.starts_seen result ≡ carried.no_starts }
    {
        Starts {
            nodes: Items::new(alloc),
            are_constant: true,
        }
    }

    /// One element more.
    pub(crate) fn push(&mut self, start: Start) -> Result<(), Memory>
        ensures { OnOk result (carried.starts_seen self.new ≡ carried.one_more (carried.starts_seen self.old) start) }
    {
        self.are_constant = self.are_constant && start.is_constant();
        self.nodes.push(start.into_node().into_inner())?;
        Ok(())
    }
}
