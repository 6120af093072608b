//! A landmark of a text by its number.

ghost use Rattle.std.specs.Prelude.{◌≡◌};
ghost use Rattle.cc_whole_read.specs.Landmarks.{landmark_from};

use cc_whole_tokens::Token;
use cc_whole_wide::is_landmark;

/// The index of the landmark before which so many stand, if there is one.
pub fn landmark_at(tokens: &[Token], number: usize) -> Option<usize>
    ensures { result ≡ landmark_from tokens.now 0 number }
{
    let mut left = number;
    for (index, token) in tokens.iter().enumerate() {
        if is_landmark(token) {
            if left == 0 {
                return Some(index);
            }
            left -= 1;
        }
    }
    None
}
