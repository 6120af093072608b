ghost use Rattle.std.specs.Prelude.{◌≡◌};
ghost use Rattle.cf_elab.specs.Initial as initials;

use cf_base::Boxed;
use cf_core::Core;
use cf_elab_env::Value;
use std::marker::Model;

/// An initialiser (8.4).
#[derive(Drop)]
pub struct Start {
    node: Boxed<Core>,
    is_constant: bool,
    number: Option<i64>,
}

impl Model for Start {
    ghost use Rattle.std.specs.Coded.{codes};
    ghost use Rattle.cf_core.specs.contracts.node.Core as core;
    ghost use Rattle.cf_elab.specs.Initial.{Start as Elaborated};

    ghost Value = { Elaborated };

    ghost coded = { Prim.hlevel (codes, core.the_row.coded) };

    ghost view = { λ s. record { node = s.node; is_constant = s.is_constant; number = s.number } };
}

impl Start {
    /// An initialiser that is no constant expression. `is_constant` says whether it is constant all the same, as an address of something static
    /// is (8.4).
    pub fn fixed(node: Boxed<Core>, is_constant: bool) -> Start
        ensures { result ≡ initials.fixed_start node is_constant }
    {
        Start {
            node,
            is_constant,
            number: None,
        }
    }

    /// That of an object by a value.
    pub fn of_value(value: Value) -> Start
        ensures { result ≡ initials.start_of value }
    {
        let is_constant = is_constant_value(&value);
        let number = value.number();
        Start {
            node: value.into_node(),
            is_constant,
            number,
        }
    }

    /// Its node in the core.
    pub fn node(&self) -> &Core
        ensures { result.now ≡ self.now.node }
    {
        self.node.get()
    }

    /// Its node in the core, taken out.
    pub fn into_node(self) -> Boxed<Core>
        ensures { result ≡ self.node }
    {
        let Start { node, .. } = self;
        node
    }

    /// Whether it is constant, so that it takes effect before any function is entered (8.4).
    pub fn is_constant(&self) -> bool
        ensures { result ≡ self.now.is_constant }
    {
        self.is_constant
    }

    /// The integer that it is, where it is a constant expression (5.19).
    pub fn number(&self) -> Option<i64>
        ensures { result ≡ self.now.number }
    {
        self.number
    }
}

/// Whether a static object may be initialised by the value before any function is entered (8.4).
pub(crate) fn is_constant_value(value: &Value) -> bool
    ensures { result ≡ initials.is_constant_value value.now }
{
    value.number().is_some() || value.is_fixed()
}
