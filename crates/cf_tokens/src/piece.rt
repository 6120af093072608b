use crate::token::Word;
use cf_base::Rule;

/// What one cut takes off the front of a text.
#[derive(Drop)]
pub(crate) enum Piece {
    /// This many bytes between tokens: a blank, a comment or a marker line.
    Gap(usize),
    /// A token of this many bytes.
    Whole(Word, usize),
    /// No piece: the rule is broken at the first byte.
    Flaw(Rule),
}
