ghost use Rattle.std.specs.Prelude.{◌≡◌, ℕ, ◌<◌, ◌^◌};

use std::marker::Model;

/// A type, by its number in the table of types.
#[derive(Clone, Copy, Debug, PartialEq, Eq, Hash)]
pub struct TyId {
    number: u32,
}

impl Model for TyId {
    ghost Value = { ℕ };

    ghost view = { λ id. id.number };

    ghost inverse = { λ n. record { number = n } };
}

impl TyId {
    /// The type of this number.
    pub fn new(number: u32) -> TyId
        ensures { result ≡ number }
    {
        TyId { number }
    }

    /// Its number, from 0.
    pub fn number(self) -> u32
        ensures { result ≡ self }
    {
        self.number
    }
}

/// The type of a function, by its number in the table of types.
#[derive(Clone, Copy, Debug, PartialEq, Eq, Hash)]
pub struct FunId {
    number: u32,
}

impl Model for FunId {
    ghost Value = { ℕ };

    ghost view = { λ id. id.number };

    ghost inverse = { λ n. record { number = n } };
}

impl FunId {
    /// The function type of this number.
    pub fn new(number: u32) -> FunId
        ensures { result ≡ number }
    {
        FunId { number }
    }

    /// Its number, from 0.
    pub fn number(self) -> u32
        ensures { result ≡ self }
    {
        self.number
    }
}

/// A class, by its number in the order of declaration.
#[derive(Clone, Copy, Debug, PartialEq, Eq, Hash)]
pub struct ClassId {
    number: u32,
}

impl Model for ClassId {
    ghost Value = { ℕ };

    ghost view = { λ id. id.number };

    ghost inverse = { λ n. record { number = n } };
}

impl ClassId {
    /// The class of this number.
    pub fn new(number: u32) -> ClassId
        ensures { result ≡ number }
    {
        ClassId { number }
    }

    /// Its number, from 0.
    pub fn number(self) -> u32
        ensures { result ≡ self }
    {
        self.number
    }
}
