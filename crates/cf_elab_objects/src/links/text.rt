ghost use Rattle.std.specs.Prelude.{◌≡◌, [], Some, OnOk, decimal, is_none};
ghost use Rattle.cf_elab_env.specs.Answered.{Agrees};
ghost use Rattle.cf_elab_objects.specs.Links.Text.{added};
ghost use Rattle.cf_elab_objects.specs.Links.Shut as shut;
ghost use Rattle.cf_classes.specs.LinkName.{counted};

use cf_base::{Bound, Limit, Memory, Name};
use cf_elab_env::{Env, Stop};
use itoa::Buffer;
use std::alloc::Global;
use std::marker::Model;

/// The most bytes of a link name.
pub(crate) const MOST: usize = 1 << 20;

/// The text of a link name as far as it is written; none once it is longer than a link name may be.
#[derive(Drop)]
pub(crate) struct Text {
    bytes: Vec<u8>,
    is_long: bool,
}

impl Model for Text {
    ghost use Rattle.std.specs.Prelude.{ℕ, ◌≤◌, ◌^◌, List, Option, None, Some, if◌then◌else◌, length};

    ghost Value = { Option (List ℕ) };

    ghost view = { λ t. if t.is_long then None else Some t.bytes.items };

    ghost invariant = { λ t. length t.bytes.items ≤ 2 ^ 20 };
}

impl Text {
    /// The text without bytes.
    pub(crate) fn new(alloc: Global) -> Text
        ensures { result ≡ Some [] }
    {
        Text {
            bytes: Vec::new(alloc),
            is_long: false,
        }
    }

    /// Whether it is longer than a link name may be, so that what comes behind doesn't matter.
    pub(crate) fn is_long(&self) -> bool
        ensures { result ≡ is_none self.now }
    {
        self.is_long
    }

    /// Adds bytes.
    #[tactic(auto, using(crate::proofs::LinksLaws::TextLaws::add_laws))]
    pub(crate) fn add(&mut self, piece: &[u8]) -> Result<(), Memory>
        ensures { OnOk result (self.new ≡ added piece.now self.old) }
    {
        if piece.len() > MOST - self.bytes.len() {
            self.is_long = true;
        } else if !self.is_long {
            self.bytes.extend_from_slice(piece)?;
        }
        Ok(())
    }

    /// Adds the decimal digits of a number.
    pub(crate) fn add_number(&mut self, number: usize) -> Result<(), Memory>
        ensures { OnOk result (self.new ≡ added (decimal number) self.old) }
    {
        self.add(Buffer::new().format(number).as_bytes())?;
        Ok(())
    }

    /// Adds a name with its length in front.
    #[tactic(auto, using(crate::proofs::LinksLaws::TextLaws::text_laws))]
    pub(crate) fn add_counted(&mut self, name: &[u8]) -> Result<(), Memory>
        ensures { OnOk result (self.new ≡ added (counted name.now) self.old) }
    {
        self.add_number(name.len())?;
        self.add(name)?;
        Ok(())
    }

    /// The text as a name; where it is longer than a name may be, the limit.
    #[tactic(auto, unfolding(crate::specs::Links::Shut::ended))]
    pub(crate) fn ended(self, env: &Env) -> Result<Name, Stop>
        ensures { Agrees (shut.ended self env.now) result env.now }
    {
        let _env = env;
        if self.is_long {
            Err(Stop::Passed(Limit {
                bound: Bound::Names,
                most: MOST as u64,
            }))
        } else {
            Ok(Name::from_vec(self.bytes))
        }
    }
}
