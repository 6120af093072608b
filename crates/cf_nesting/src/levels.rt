//! The levels that are open at a token.

ghost use Rattle.std.specs.Prelude.{◌≡◌, ◌<◌, OnOk, nat_lt};
ghost use Rattle.cf_unit.specs.Nesting as spec;

use crate::brackets::{is_closing, is_opening, is_partner, resets};
use cf_base::Memory;
use cf_parse_expr::words::RIGHT_BRACE;
use cf_unit::Level;
use std::alloc::Global;
use std::marker::Model;

/// The most that the nesting may be.
pub const NESTING_LIMIT: u64 = 256;

/// The insides of the open brackets, the innermost last, with the count of the file's own level, and the place of the first
/// closing bracket without a partner.
#[derive(Drop)]
pub struct Levels {
    inside: Vec<Level>,
    file: u32,
    stray: Option<u32>,
}

impl Model for Levels {
    ghost use Rattle.cf_unit.specs.Nesting.{Levels as Seen};

    ghost Value = { Seen };

    ghost view = { λ l. record { inside = l.inside.items; file = l.file; stray = l.stray } };
}

impl Levels {
    /// The file's level alone, with no tokens in it.
    pub fn new(alloc: Global) -> Levels
        ensures { result ≡ spec.no_levels }
    {
        Levels {
            inside: Vec::new(alloc),
            file: 0,
            stray: None,
        }
    }

    /// How many tokens stand in the innermost level since its last reset.
    fn count(&self) -> u32
        ensures { result ≡ spec.count self.now }
    {
        let depth = self.inside.len();
        if depth == 0 {
            self.file
        } else {
            self.inside[depth - 1].count
        }
    }

    /// Sets the count of the innermost level.
    fn set_count(&mut self, count: u32)
        ensures { self.new ≡ spec.counting count self.old }
    {
        let depth = self.inside.len();
        if depth == 0 {
            self.file = count;
        } else {
            self.inside[depth - 1].count = count;
        }
    }

    /// Counts a token in the innermost level.
    fn count_one(&mut self)
        requires { spec.count self.old < 4294967295 }
        ensures { self.new ≡ spec.one_more self.old }
    {
        let count = self.count();
        self.set_count(count + 1);
    }

    /// Opens a level.
    fn open(&mut self, word: u16, at: u32) -> Result<(), Memory>
        ensures { OnOk result (self.new ≡ spec.opened word at self.old) }
    {
        self.inside.push(Level { word, at, count: 0 })?;
        Ok(())
    }

    /// Whether this closing bracket is the partner of the innermost open one.
    fn has_partner(&self, word: u16) -> bool
        ensures { result ≡ spec.has_partner word self.now }
    {
        let depth = self.inside.len();
        depth != 0 && is_partner(self.inside[depth - 1].word, word)
    }

    /// Closes the innermost level.
    fn close(&mut self, word: u16, before_else: bool)
        ensures { self.new ≡ spec.closed_by word before_else self.old }
    {
        let _ = self.inside.pop();
        if word == RIGHT_BRACE && !before_else {
            self.set_count(0);
        }
    }

    /// Remembers the first closing bracket without a partner.
    fn stray(&mut self, at: u32)
        ensures { self.new ≡ spec.strayed at self.old }
    {
        if self.stray.is_none() {
            self.stray = Some(at);
        }
    }

    /// Takes a closing bracket.
    fn take_closing(&mut self, word: u16, at: u32, before_else: bool)
        requires { spec.count self.old < 4294967295 }
        ensures { self.new ≡ spec.closing word at before_else self.old }
    {
        if self.has_partner(word) {
            self.close(word, before_else);
        } else {
            self.stray(at);
            self.count_one();
        }
    }

    /// Takes a token with this word at this place; whether `else` follows.
    pub fn take(&mut self, word: u16, at: u32, before_else: bool) -> Result<(), Memory>
        requires { spec.count self.old < 4294967295 }
        ensures { OnOk result (self.new ≡ spec.at_word word at before_else self.old) }
    {
        if is_opening(word) {
            self.count_one();
            return self.open(word, at);
        }
        if is_closing(word) {
            self.take_closing(word, at, before_else);
        } else if resets(word) && !before_else {
            self.set_count(0);
        } else {
            self.count_one();
        }
        Ok(())
    }

    /// Whether the nesting passes the limit.
    pub fn exceeds(&self) -> bool
        ensures { result ≡ nat_lt spec.nesting_limit (spec.depth self.now) }
    {
        let mut total = u64::from(self.file);
        for level in self.inside.as_slice() {
            if total > NESTING_LIMIT {
                return true;
            }
            total += u64::from(level.count);
        }
        total > NESTING_LIMIT
    }

    /// The place of the first bracket without a partner, at the end of a file.
    pub fn unmatched(&self) -> Option<u32>
        ensures { result ≡ spec.unpaired self.now }
    {
        let Some(outermost) = self.inside.first() else {
            return self.stray;
        };
        match self.stray {
            Some(at) => Some(at.min(outermost.at)),
            None => Some(outermost.at),
        }
    }
}
