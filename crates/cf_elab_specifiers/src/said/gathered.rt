ghost use Rattle.std.specs.Prelude.{◌≡◌, false, map, All, IfSome};
ghost use Rattle.cf_types.specs.Table.{Table};
ghost use Rattle.cf_elab_env.specs.Holds.{IsType};
ghost use Rattle.cf_elab.specs.Specifiers as spec;
ghost use Rattle.cf_elab_specifiers.specs.Said.Seen.{word_seen};
ghost use Rattle.cf_elab_specifiers.specs.Said.Standing as standing;
ghost use Rattle.cf_elab_specifiers.specs.Said.Words.{IsWord};

use crate::said::basics::Basics;
use crate::said::word::Word;
use cf_syntax::{BasicType, Storage};
use cf_types::TyId;
use std::marker::Model;

/// What the specifiers of a declaration say together, with byte places (7.1).
#[derive(Clone, Copy, Debug)]
pub struct Gathered {
    pub basics: Basics,
    /// The type that is named or defined.
    pub named: Option<TyId>,
    /// Where a class or enumeration is defined among them.
    pub defined_at: Option<u32>,
    pub is_const: bool,
    /// `auto`, `register`, `static`, `extern` or `typedef`, of which there is one.
    pub storage: Option<(u32, Storage)>,
    pub inline_at: Option<u32>,
    pub virtual_at: Option<u32>,
    pub friend_at: Option<u32>,
    /// The first that conflicts with one before it.
    pub conflict: Option<u32>,
    pub is_empty: bool,
}

impl Model for Gathered {
    ghost use Rattle.cf_elab.specs.Specifiers.{Gathered};

    ghost Value = { Gathered };

    ghost view = { λ g. record { basics = g.basics; named = g.named; defined_at = g.defined_at; is_const = g.is_const; storage = g.storage; inline_at = g.inline_at; virtual_at = g.virtual_at; friend_at = g.friend_at; conflict = g.conflict; is_empty = g.is_empty } };

    ghost inverse = { λ g. record { basics = g.basics; named = g.named; defined_at = g.defined_at; is_const = g.is_const; storage = g.storage; inline_at = g.inline_at; virtual_at = g.virtual_at; friend_at = g.friend_at; conflict = g.conflict; is_empty = g.is_empty } };
}

impl Gathered {
    /// No specifier at all.
    pub fn nothing() -> Gathered
        ensures { result ≡ spec.nothing_gathered }
    {
        Gathered {
            basics: Basics::none(),
            named: None,
            defined_at: None,
            is_const: false,
            storage: None,
            inline_at: None,
            virtual_at: None,
            friend_at: None,
            conflict: None,
            is_empty: true,
        }
    }

    /// What these specifiers say together. A type that they name is one that a specifier of them names.
    pub fn of_words(words: &[Word]) -> Gathered
        ensures value { result ≡ spec.gathered (map word_seen words.now) }
        ensures known { (types : Table) → All (λ w. IsWord types w) words.now → IfSome result.named (λ t. IsType types t) }
    {
        folded(words)
    }

    /// These and one specifier more.
    pub fn with(self, word: Word) -> Gathered
        ensures { result ≡ spec.gathers self (word_seen word) }
    {
        match word {
            Word::Stored(at, storage) => self.not_empty().with_storage(at, storage),
            Word::Const(_) => Gathered {
                is_const: true,
                ..self.not_empty()
            },
            Word::Basic(at, basic) => self.with_basic(at, basic),
            Word::Type(at, ty) => self.not_empty().with_type(at, ty),
            Word::Defined(at, ty) => Gathered {
                defined_at: Some(at),
                ..self.not_empty().with_type(at, ty)
            },
        }
    }

    fn not_empty(self) -> Gathered
        ensures { result ≡ record self { is_empty = false } }
    {
        Gathered {
            is_empty: false,
            ..self
        }
    }

    /// A word of a fundamental type.
    fn with_basic(self, at: u32, word: BasicType) -> Gathered
        ensures { result ≡ spec.gathers self (spec.basic_word at word) }
    {
        let is_misfit = self.named.is_some() || !self.basics.fits(word);
        let more = Gathered {
            basics: self.basics.with(word),
            is_empty: false,
            ..self
        };
        more.conflicting(is_misfit, at)
    }

    /// A type that is named.
    fn with_type(self, at: u32, ty: TyId) -> Gathered
        ensures { result ≡ spec.with_type at ty self }
    {
        let is_second = self.named.is_some() || self.basics.any();
        let more = Gathered {
            named: self.named.or(Some(ty)),
            ..self
        };
        more.conflicting(is_second, at)
    }

    /// A word that names no type.
    fn with_storage(self, at: u32, storage: Storage) -> Gathered
        ensures { result ≡ spec.with_storage at storage self }
    {
        match storage {
            Storage::Inline => Gathered {
                inline_at: self.inline_at.or(Some(at)),
                ..self
            },
            Storage::Virtual => Gathered {
                virtual_at: self.virtual_at.or(Some(at)),
                ..self
            },
            Storage::Friend => Gathered {
                friend_at: self.friend_at.or(Some(at)),
                ..self
            },
            Storage::Auto => self.with_class(at, storage),
            Storage::Register => self.with_class(at, storage),
            Storage::Static => self.with_class(at, storage),
            Storage::Extern => self.with_class(at, storage),
            Storage::Typedef => self.with_class(at, storage),
        }
    }

    /// One of those words of which there is one at most.
    fn with_class(self, at: u32, storage: Storage) -> Gathered
        ensures { result ≡ standing.with_class at storage self }
    {
        let is_second = self.storage.is_some();
        let more = Gathered {
            storage: self.storage.or(Some((at, storage))),
            ..self
        };
        more.conflicting(is_second, at)
    }

    /// Notes a conflict at a place, unless one is noted.
    fn conflicting(self, is_conflict: bool, at: u32) -> Gathered
        ensures { result ≡ spec.conflicts is_conflict at self }
    {
        if is_conflict {
            Gathered {
                conflict: self.conflict.or(Some(at)),
                ..self
            }
        } else {
            self
        }
    }
}

/// These specifiers, one after the other.
fn folded(words: &[Word]) -> Gathered
    ensures { result ≡ spec.gathered (map word_seen words.now) }
{
    words
        .iter()
        .fold(Gathered::nothing(), |before, word| before.with(*word))
}
