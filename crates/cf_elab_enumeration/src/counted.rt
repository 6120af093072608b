ghost use Rattle.std.specs.Prelude.{◌≡◌, is_some};
ghost use Rattle.cf_elab.specs.Enumeration as spec;

use crate::numbers::{int_or_zero, number_or_zero};
use cf_base::Name;
use std::marker::Model;

/// An enumerator and its value, if the expression is a constant.
#[derive(Debug, Drop)]
pub struct Counted {
    /// The byte place of its name.
    pub at: u32,
    pub name: Name,
    pub number: Option<i64>,
}

impl Model for Counted {
    ghost use Rattle.std.specs.Coded.{codes};
    ghost use Rattle.cf_elab.specs.Enumeration.{Counted};

    ghost Value = { Counted };

    ghost coded = { Prim.hlevel codes };

    ghost view = { λ c. record { at = c.at; name = c.name; number = c.number } };
}

impl Counted {
    /// The byte place of its name.
    pub fn at(&self) -> u32
        ensures { result ≡ self.now.at }
    {
        self.at
    }

    /// Whether its expression is a constant.
    pub fn is_constant(&self) -> bool
        ensures { result ≡ is_some self.now.number }
    {
        self.number.is_some()
    }

    /// Its value; where its expression is no constant 0, since K19 comes before.
    pub fn value(&self) -> i64
        ensures { result ≡ spec.number_or_zero self.now.number }
    {
        number_or_zero(self.number)
    }

    /// What it counts as in the expressions behind it; one past `int` as 0, since K5 comes later.
    pub fn counts_as(&self) -> i64
        ensures { result ≡ spec.int_or_zero self.now.number }
    {
        int_or_zero(self.number)
    }

    pub fn name(&self) -> &Name
        ensures { result.now ≡ self.now.name }
    {
        &self.name
    }
}
