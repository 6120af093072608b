//! A place where an element has no spelling.

use cf_syntax::TypeNames;
use std::marker::Model;

/// The place of the first token of an element without a spelling, and the names that are known there (17).
#[derive(Drop)]
pub struct Spot {
    /// The place, in bytes.
    pub at: u32,
    pub names: TypeNames,
}

impl Model for Spot {
    ghost use Rattle.cf_unit.specs.Stuck.{Spot as AnySpot};

    ghost Value = { AnySpot };

    ghost view = { λ s. record { at = s.at; names = s.names } };
}
