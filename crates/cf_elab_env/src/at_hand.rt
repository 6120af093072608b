ghost use Rattle.std.specs.Prelude.{◌≡◌, ◌+◌, IfOk, OnOk};
ghost use Rattle.cf_elab.specs.Answer.{Made};
ghost use Rattle.cf_elab_env.specs.Holds.{IsHand, IsType};
ghost use Rattle.cf_elab_env.specs.Seen.{kind_seen};
ghost use Rattle.cf_elab_env.specs.Shut as shut;

use crate::env::Env;
use crate::hand::{BodyKind, Hand};
use cf_base::{Memory, Name};
use cf_types::TyId;
use std::mem;

/// What an environment knows of the function at hand.
impl Env {
    /// Its link name.
    pub fn hand_link(&self) -> &Name
        ensures { result.now ≡ self.now.hand.link }
    {
        &self.hand.link
    }

    /// What kind of function it is.
    pub fn body_kind(&self) -> BodyKind
        ensures { kind_seen result ≡ self.now.hand.kind }
    {
        self.hand.kind
    }

    /// Whether `break` may stand here (6.6.1).
    pub fn breaks(&self) -> bool
        ensures { result ≡ self.now.hand.breaks }
    {
        self.hand.breaks
    }

    /// Whether `continue` may stand here (6.6.2).
    pub fn continues(&self) -> bool
        ensures { result ≡ self.now.hand.continues }
    {
        self.hand.continues
    }

    /// How many string literals it has so far.
    pub fn literals(&self) -> u32
        ensures { result ≡ self.now.hand.literals }
    {
        self.hand.literals
    }

    /// How many static objects it has so far.
    pub fn static_count(&self) -> u32
        ensures { result ≡ self.now.hand.statics }
    {
        self.hand.statics
    }

    /// The type of its result.
    pub fn result(&self) -> TyId
        ensures value { result ≡ self.now.hand.result }
        ensures known { IsType self.now.types result }
    {
        TyId::new(self.hand.result)
    }

    /// Says whether `break` may stand from here on.
    pub fn set_breaks(&mut self, breaks: bool)
        ensures state { self.new ≡ record self.old { hand = record self.old.hand { breaks = breaks } } }
        ensures types { self.new.types ≡ self.old.types }
    {
        self.hand.breaks = breaks;
    }

    /// Says whether `break` and `continue` may stand from here on.
    pub fn set_jumps(&mut self, breaks: bool, continues: bool)
        ensures state { self.new ≡ record self.old { hand = record self.old.hand { breaks = breaks; continues = continues } } }
        ensures types { self.new.types ≡ self.old.types }
    {
        self.hand.breaks = breaks;
        self.hand.continues = continues;
    }

    /// Says how many string literals it has so far.
    pub fn set_literals(&mut self, count: u32)
        ensures state { self.new ≡ record self.old { hand = record self.old.hand { literals = count } } }
        ensures types { self.new.types ≡ self.old.types }
    {
        self.hand.literals = count;
    }

    /// The number of its next string literal (2.5.4).
    pub fn next_literal(&mut self) -> Result<u32, Memory>
        ensures number { IfOk result (λ number. number ≡ self.old.hand.literals) }
        ensures state { OnOk result (self.new ≡ record self.old { hand = record self.old.hand { literals = self.old.hand.literals + 1 } }) }
    {
        let number = self.hand.take_literal()?;
        Ok(number)
    }

    /// One more static object of it.
    pub fn count_static(&mut self) -> Result<(), Memory>
        ensures state { OnOk result (self.new ≡ record self.old { hand = record self.old.hand { statics = self.old.hand.statics + 1 } }) }
        ensures types { self.new.types ≡ self.old.types }
    {
        self.hand.statics = self.hand.statics.checked_add(1).ok_or(Memory)?;
        Ok(())
    }

    /// The number of a new local of this type.
    pub fn new_local(&mut self, ty: TyId) -> Result<u32, Memory>
        requires { IsType self.old.types ty }
        ensures made { IfOk result (λ number. shut.new_local ty self.old ≡ Made number self.new) }
        ensures types { self.new.types ≡ self.old.types }
    {
        let number = self.hand.take_local(ty)?;
        Ok(number)
    }

    /// Takes another function in hand, and gives the one before.
    pub fn replace_hand(&mut self, hand: Hand) -> Hand
        requires { IsHand self.old.types hand }
        ensures before { result ≡ self.old.hand }
        ensures state { self.new ≡ record self.old { hand = hand } }
        ensures known { IsHand self.old.types result }
        ensures types { self.new.types ≡ self.old.types }
    {
        mem::replace(&mut self.hand, hand)
    }
}
