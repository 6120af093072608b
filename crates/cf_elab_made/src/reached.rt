ghost use Rattle.std.specs.Prelude.{◌≡◌};

use cf_base::Boxed;
use cf_core::Core;
use std::marker::Model;

/// A statement that a declaration makes (6.7).
#[derive(Drop)]
pub struct Reached {
    node: Boxed<Core>,
    initialises: bool,
}

impl Model for Reached {
    ghost use Rattle.std.specs.Coded.{codes};
    ghost use Rattle.cf_core.specs.contracts.node.Core as core;
    ghost use Rattle.cf_elab.specs.Objects.{Reached as Elaborated};

    ghost Value = { Elaborated };

    ghost coded = { Prim.hlevel (codes, core.the_row.coded) };

    ghost view = { λ r. record { node = r.node; initialises = r.initialises } };
}

impl Reached {
    /// The statement of this node, which initialises an automatic object or does not.
    pub fn new(node: Boxed<Core>, initialises: bool) -> Reached
        ensures { result ≡ record { node = node; initialises = initialises } }
    {
        Reached { node, initialises }
    }

    /// Whether it initialises an automatic object, which no jump may pass.
    pub fn initialises(&self) -> bool
        ensures { result ≡ self.now.initialises }
    {
        self.initialises
    }

    /// Its node in the core, taken out.
    pub fn into_node(self) -> Boxed<Core>
        ensures { result ≡ self.node }
    {
        let Reached { node, .. } = self;
        node
    }
}
