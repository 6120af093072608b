//! The landmarks of a text: names, numbers and strings, and words but `extern` and `else`.

ghost use Rattle.std.specs.Prelude.{◌≡◌, ◌==◌};
ghost use Rattle.cc_whole_laws.specs.Landmark as spec;

use cc_whole_tokens::{Mark, Token};

fn is_word(mark: Mark) -> bool
    ensures { result ≡ (spec.word_mark mark == 1) }
{
    match mark {
        Mark::Break | Mark::Case | Mark::Char | Mark::Continue | Mark::Default | Mark::For => true,
        Mark::If | Mark::Int | Mark::Return | Mark::Short | Mark::Static | Mark::Struct => true,
        Mark::Switch | Mark::Unsigned | Mark::Void | Mark::Pair | Mark::FunctionPointer => true,
        _ => false,
    }
}

/// Whether a token is a landmark.
pub fn is_landmark(token: &Token) -> bool
    ensures { result ≡ (spec.landmark token.now == 1) }
{
    match token {
        Token::Mark(mark) => is_word(*mark),
        Token::Dash | Token::Shared => false,
        Token::Name(_) | Token::Signed(_) | Token::Unsigned(_) | Token::Text(_) => true,
    }
}
