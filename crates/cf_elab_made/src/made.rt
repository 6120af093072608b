ghost use Rattle.std.specs.Prelude.{◌≡◌};
ghost use Rattle.cf_elab.specs.Statement as statement;
ghost use Rattle.cf_elab_made.specs.Seen.{label_seen};

use cf_base::Boxed;
use cf_core::Core;
use cf_elab_env::Value;
use std::marker::Model;

/// What a statement is to the braces around it: a label of a switch, or not (6.1).
#[derive(Drop)]
pub enum Label {
    None,
    /// The value that it is for, which may be no constant yet.
    Case(Value),
    Default,
}

/// A statement.
#[derive(Drop)]
pub struct Made {
    at: u32,
    node: Boxed<Core>,
    label: Label,
    initialises: bool,
}

impl Model for Made {
    ghost use Rattle.std.specs.Coded.{codes};
    ghost use Rattle.cf_core.specs.contracts.node.Core as core;
    ghost use Rattle.cf_elab.specs.Statement.{Made as Elaborated};

    ghost Value = { Elaborated };

    ghost coded = { Prim.hlevel (codes, core.the_row.coded) };

    ghost use Rattle.cf_elab_made.specs.Seen.{label_seen};

    ghost view = { λ m. record { at = m.at; node = m.node; label = label_seen m.label; initialises = m.initialises } };
}

impl Made {
    /// A statement that is no label, and initialises no automatic object.
    pub fn new(at: u32, node: Boxed<Core>) -> Made
        ensures { result ≡ statement.made at node }
    {
        Made {
            at,
            node,
            label: Label::None,
            initialises: false,
        }
    }

    /// The byte place of its first token.
    pub fn at(&self) -> u32
        ensures { result ≡ self.now.at }
    {
        self.at
    }

    /// What it is to the braces around it.
    pub fn label(&self) -> &Label
        ensures { label_seen result.now ≡ self.now.label }
    {
        &self.label
    }

    /// Whether it initialises an automatic object in the scope that it stands in, which no jump may pass (6.4.2).
    pub fn initialises(&self) -> bool
        ensures { result ≡ self.now.initialises }
    {
        self.initialises
    }

    /// Its node in the core, taken out.
    pub fn into_node(self) -> Boxed<Core>
        ensures { result ≡ self.node }
    {
        let Made { node, .. } = self;
        node
    }

    /// The same statement as this label.
    pub fn with_label(self, label: Label) -> Made
        ensures { result ≡ record self { label = label_seen label } }
    {
        Made { label, ..self }
    }

    /// The same statement, with whether it initialises an automatic object.
    pub fn with_initialises(self, initialises: bool) -> Made
        ensures { result ≡ record self { initialises = initialises } }
    {
        Made {
            initialises,
            ..self
        }
    }
}
