//! The levels that are open at a token.

ghost use Rattle.std.specs.Prelude.{◌≡◌, ◌<◌, OnOk, nat_lt, not, ◌&&◌};
ghost use Rattle.cc_whole_nesting.specs.Nesting as spec;
ghost use Rattle.cc_whole_nesting.specs.declared.kind.Kind.TheVariants as kinds;

use crate::kind::{Bracket, Kind, is_curly, same_bracket};
use crate::level::Level;
use cf_base::Memory;
use std::alloc::Global;
use std::marker::Model;

/// The most that the nesting may be.
pub const NESTING_LIMIT: u64 = 1024;

/// The count of the innermost level, and the levels around it, the innermost last.
#[derive(Drop)]
pub struct Levels {
    count: u32,
    around: Vec<Level>,
}

impl Model for Levels {
    ghost use Rattle.cc_whole_nesting.specs.Nesting.{Levels as Seen};

    ghost Value = { Seen };

    ghost view = { λ l. record { count = l.count; around = l.around.items } };
}

impl Levels {
    /// The level of a text alone, behind the first line.
    pub fn new(alloc: Global) -> Levels
        ensures { result ≡ spec.first_levels }
    {
        Levels {
            count: 3,
            around: Vec::new(alloc),
        }
    }

    /// Counts a token in the innermost level.
    fn count_one(&mut self)
        requires { self.old.count < 4294967295 }
        ensures { self.new ≡ spec.one_more self.old }
    {
        self.count += 1;
    }

    fn reset(&mut self)
        ensures { self.new ≡ spec.reset self.old }
    {
        self.count = 0;
    }

    /// Opens a level.
    fn open(&mut self, bracket: Bracket) -> Result<(), Memory>
        requires { self.old.count < 4294967295 }
        ensures { OnOk result (self.new ≡ spec.opened bracket self.old) }
    {
        let count = self.count + 1;
        self.around.push(Level { bracket, count })?;
        self.count = 0;
        Ok(())
    }

    /// Whether this closing bracket is the partner of the innermost open one.
    fn has_partner(&self, bracket: Bracket) -> bool
        ensures { result ≡ spec.has_partner bracket self.now }
    {
        let depth = self.around.len();
        depth != 0 && same_bracket(self.around[depth - 1].bracket, bracket)
    }

    /// The count of the level around the innermost one.
    fn outer_count(&self) -> u32
        ensures { result ≡ (spec.outer self.now).count }
    {
        let depth = self.around.len();
        if depth == 0 {
            0
        } else {
            self.around[depth - 1].count
        }
    }

    /// Closes the innermost level.
    fn close(&mut self, bracket: Bracket, before_else: bool)
        ensures { self.new ≡ spec.closed bracket before_else self.old }
    {
        let count = self.outer_count();
        let _ = self.around.pop();
        if is_curly(bracket) && !before_else {
            self.count = 0;
        } else {
            self.count = count;
        }
    }

    /// Takes a closing bracket, with whether `else` follows.
    fn take_closing(&mut self, bracket: Bracket, before_else: bool)
        requires { self.old.count < 4294967295 }
        ensures { self.new ≡ spec.at_kind (kinds.Closes bracket) before_else self.old }
    {
        if self.has_partner(bracket) {
            self.close(bracket, before_else);
        } else {
            self.count_one();
        }
    }

    /// Takes a `;` or `,`, with whether `else` follows.
    fn take_end(&mut self, before_else: bool)
        requires { self.old.count < 4294967295 }
        ensures { self.new ≡ spec.at_kind kinds.Ends before_else self.old }
    {
        if before_else {
            self.count_one();
        } else {
            self.reset();
        }
    }

    /// Takes a token, with whether `else` follows.
    pub fn take(&mut self, kind: Kind, before_else: bool) -> Result<(), Memory>
        requires { self.old.count < 4294967295 }
        ensures { OnOk result (self.new ≡ spec.at_kind kind before_else self.old) }
    {
        match kind {
            Kind::Opens(bracket) => self.open(bracket),
            Kind::Closes(bracket) => {
                self.take_closing(bracket, before_else);
                Ok(())
            }
            Kind::Ends => {
                self.take_end(before_else);
                Ok(())
            }
            Kind::Other => {
                self.count_one();
                Ok(())
            }
        }
    }

    /// Whether the nesting passes the limit.
    pub fn exceeds(&self) -> bool
        ensures { result ≡ nat_lt spec.nesting_limit (spec.depth self.now) }
    {
        let mut total = u64::from(self.count);
        for level in self.around.as_slice() {
            if total > NESTING_LIMIT {
                return true;
            }
            total += u64::from(level.count);
        }
        total > NESTING_LIMIT
    }
}
