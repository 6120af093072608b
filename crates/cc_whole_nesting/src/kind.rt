//! What a token does to the levels.

ghost use Rattle.std.specs.Prelude.{◌≡◌};
ghost use Rattle.cc_whole_nesting.specs.Nesting as spec;

use cc_whole_tokens::{Mark, Token};

/// A bracket of which the inside is a level.
#[derive(Clone, Copy, Debug, PartialEq, Eq)]
pub enum Bracket {
    Round,
    Square,
    Curly,
}

/// What a token does to the level in which it stands.
#[derive(Clone, Copy, Debug, PartialEq, Eq)]
pub enum Kind {
    Opens(Bracket),
    Closes(Bracket),
    /// It resets the level: `;` and `,`.
    Ends,
    Other,
}

fn kind_of_mark(mark: Mark) -> Kind
    ensures { result ≡ spec.kind_of_mark mark }
{
    match mark {
        Mark::LeftParen => Kind::Opens(Bracket::Round),
        Mark::LeftBracket => Kind::Opens(Bracket::Square),
        Mark::LeftBrace => Kind::Opens(Bracket::Curly),
        Mark::RightParen => Kind::Closes(Bracket::Round),
        Mark::RightBracket => Kind::Closes(Bracket::Square),
        Mark::RightBrace => Kind::Closes(Bracket::Curly),
        Mark::Semicolon | Mark::Comma => Kind::Ends,
        _ => Kind::Other,
    }
}

/// What this token does.
pub fn kind_of(token: &Token) -> Kind
    ensures { result ≡ spec.kind_of token.now }
{
    match token {
        Token::Mark(mark) => kind_of_mark(*mark),
        _ => Kind::Other,
    }
}

/// Whether `else` stands at the front.
pub fn begins_else(tokens: &[Token]) -> bool
    ensures { result ≡ spec.begins_else tokens.now }
{
    match tokens {
        [Token::Mark(mark), ..] => mark.is(Mark::Else),
        _ => false,
    }
}

/// Whether the brackets are of one kind.
pub fn same_bracket(opening: Bracket, closing: Bracket) -> bool
    ensures { result ≡ spec.same_bracket opening closing }
{
    match (opening, closing) {
        (Bracket::Round, Bracket::Round) => true,
        (Bracket::Square, Bracket::Square) => true,
        (Bracket::Curly, Bracket::Curly) => true,
        _ => false,
    }
}

pub fn is_curly(bracket: Bracket) -> bool
    ensures { result ≡ spec.is_curly bracket }
{
    match bracket {
        Bracket::Curly => true,
        _ => false,
    }
}
