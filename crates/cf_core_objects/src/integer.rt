ghost use Rattle.std.specs.Prelude.{◌≡◌};

use std::marker::Model;

/// A number, which contracts see as itself.
#[derive(Clone, Copy, Debug, PartialEq, Eq)]
pub struct Integer {
    value: i64,
}

impl Model for Integer {
    ghost use Rattle.std.specs.Prelude.{ℤ};

    ghost Value = { ℤ };

    ghost view = { λ n. n.value };

    ghost inverse = { λ n. record { value = n } };
}

impl Integer {
    pub fn new(value: i64) -> Integer
        ensures { result ≡ value }
    {
        Integer { value }
    }

    pub fn get(self) -> i64
        ensures { result ≡ self }
    {
        self.value
    }
}
