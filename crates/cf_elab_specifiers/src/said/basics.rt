ghost use Rattle.std.specs.Prelude.{◌≡◌};
ghost use Rattle.cf_elab.specs.Specifiers as spec;

use cf_base::Kind;
use cf_syntax::BasicType;
use std::marker::Model;

/// Which words of fundamental types stand among the specifiers (7.1.6).
#[derive(Clone, Copy, Debug, PartialEq, Eq)]
pub struct Basics {
    pub chars: bool,
    pub shorts: bool,
    pub ints: bool,
    pub longs: bool,
    pub signs: bool,
    pub unsigneds: bool,
    pub voids: bool,
}

impl Model for Basics {
    ghost use Rattle.cf_elab.specs.Specifiers.{Basics};

    ghost Value = { Basics };

    ghost view = { λ b. record { chars = b.chars; shorts = b.shorts; ints = b.ints; longs = b.longs; signs = b.signs; unsigneds = b.unsigneds; voids = b.voids } };

    ghost inverse = { λ b. record { chars = b.chars; shorts = b.shorts; ints = b.ints; longs = b.longs; signs = b.signs; unsigneds = b.unsigneds; voids = b.voids } };
}

impl Basics {
    /// No word at all.
    pub fn none() -> Basics
        ensures { result ≡ spec.no_basics }
    {
        Basics {
            chars: false,
            shorts: false,
            ints: false,
            longs: false,
            signs: false,
            unsigneds: false,
            voids: false,
        }
    }

    /// Whether a word fits these: none stands twice, and no two exclude one another.
    pub fn fits(self, word: BasicType) -> bool
        ensures { result ≡ spec.fits_basics word self }
    {
        match word {
            BasicType::Char => {
                !(self.chars || self.shorts || self.ints || self.longs || self.voids)
            }
            BasicType::Short => !(self.chars || self.shorts || self.longs || self.voids),
            BasicType::Int => !(self.chars || self.ints || self.voids),
            BasicType::Long => !(self.chars || self.shorts || self.longs || self.voids),
            BasicType::Signed => !(self.signs || self.unsigneds || self.voids),
            BasicType::Unsigned => !(self.signs || self.unsigneds || self.voids),
            BasicType::Void => !self.any(),
        }
    }

    /// These and one word more.
    pub fn with(self, word: BasicType) -> Basics
        ensures { result ≡ spec.with_basic word self }
    {
        match word {
            BasicType::Char => Basics {
                chars: true,
                ..self
            },
            BasicType::Short => Basics {
                shorts: true,
                ..self
            },
            BasicType::Int => Basics { ints: true, ..self },
            BasicType::Long => Basics {
                longs: true,
                ..self
            },
            BasicType::Signed => Basics {
                signs: true,
                ..self
            },
            BasicType::Unsigned => Basics {
                unsigneds: true,
                ..self
            },
            BasicType::Void => Basics {
                voids: true,
                ..self
            },
        }
    }

    /// Whether there is any word.
    pub fn any(self) -> bool
        ensures { result ≡ spec.any_basic self }
    {
        self.chars
            || self.shorts
            || self.ints
            || self.longs
            || self.signs
            || self.unsigneds
            || self.voids
    }

    /// The integer type that they name; it is `int` where there is no word (7.1.6).
    pub fn kind(self) -> Kind
        ensures { result ≡ spec.basic_kind self }
    {
        if self.chars {
            if self.unsigneds {
                Kind::UChar
            } else if self.signs {
                Kind::SChar
            } else {
                Kind::Char
            }
        } else if self.shorts {
            if self.unsigneds {
                Kind::UShort
            } else {
                Kind::Short
            }
        } else if self.longs {
            if self.unsigneds {
                Kind::ULong
            } else {
                Kind::Long
            }
        } else if self.unsigneds {
            Kind::UInt
        } else {
            Kind::Int
        }
    }
}
