ghost use Rattle.std.specs.Prelude.{◌≡◌, ◌+◌, ◌++◌, ◌∷◌, [], length, IfOk, OnOk, OnErr};
ghost use Rattle.cf_elab.specs.File.{file_hand};

use crate::env::next_number;
use cf_base::{Items, Memory, Name};
use cf_types::TyId;
use std::alloc::Global;
use std::marker::Model;

/// What kind of function a body belongs to (6.6.3).
#[derive(Clone, Copy, Debug, PartialEq, Eq)]
pub enum BodyKind {
    /// None: the initialisers of the file.
    File,
    Plain,
    Main,
}

/// The function whose uses of members are looked at (11), by its name and type.
#[derive(Debug, Drop)]
pub struct Asker {
    pub name: Name,
    pub ty: u32,
}

/// The function at hand.
#[derive(Drop)]
pub struct Hand {
    pub link: Name,
    pub kind: BodyKind,
    pub asker: Asker,
    pub result: u32,
    /// The types of its parameters, its locals, and the temporaries that its references bind.
    pub locals: Items<TyId>,
    /// How many string literals it has so far.
    pub literals: u32,
    /// How many static objects it has so far.
    pub statics: u32,
    /// Whether `break` may stand here (6.6.1).
    pub breaks: bool,
    /// Whether `continue` may stand here (6.6.2).
    pub continues: bool,
}

impl Model for Hand {
    ghost use Rattle.std.specs.Coded.{codes};
    ghost use Rattle.cf_elab.specs.Env.{Hand};

    ghost Value = { Hand };

    ghost coded = { Prim.hlevel codes };

    ghost use Rattle.cf_elab.specs.Access.{outside};
    ghost use Rattle.cf_elab_env.specs.Seen.{kind_seen};

    ghost view = { λ h. record { link = h.link; kind = kind_seen h.kind; asker = outside h.asker.name h.asker.ty; result = h.result; locals = h.locals; literals = h.literals; statics = h.statics; breaks = h.breaks; continues = h.continues } };
}

impl Hand {
    /// That of the initialisers of the file.
    pub(crate) fn of_file(alloc: Global) -> Result<Hand, Memory>
        ensures { IfOk result (λ h. h ≡ file_hand) }
    {
        Ok(Hand {
            link: Items::from_slice(alloc, b"__sti")?,
            kind: BodyKind::File,
            asker: Asker {
                name: Items::new(alloc),
                ty: 0,
            },
            result: 0,
            locals: Items::new(alloc),
            literals: 0,
            statics: 0,
            breaks: false,
            continues: false,
        })
    }

    /// The number of its next string literal, which counts then.
    pub(crate) fn take_literal(&mut self) -> Result<u32, Memory>
        ensures number { IfOk result (λ number. number ≡ self.old.literals) }
        ensures state { OnOk result (self.new ≡ record self.old { literals = self.old.literals + 1 }) }
        ensures err { OnErr result (self.new ≡ self.old) }
    {
        let number = self.literals;
        self.literals = number.checked_add(1).ok_or(Memory)?;
        Ok(number)
    }

    /// The number of a new local of this type.
    pub(crate) fn take_local(&mut self, ty: TyId) -> Result<u32, Memory>
        ensures number { IfOk result (λ number. number ≡ length self.old.locals) }
        ensures state { OnOk result (self.new ≡ record self.old { locals = self.old.locals ++ ty ∷ [] }) }
        ensures err { OnErr result (self.new ≡ self.old) }
    {
        let number = next_number(self.locals.len())?;
        self.locals.push(ty)?;
        Ok(number)
    }

    /// How many string literals it has so far.
    pub fn literals(&self) -> u32
        ensures { result ≡ self.now.literals }
    {
        self.literals
    }
}
