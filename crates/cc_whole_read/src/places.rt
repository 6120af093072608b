//! Bytes of a text at which its tokens begin.

ghost use Rattle.std.specs.Prelude.{◌≡◌};
ghost use Rattle.cc_whole_read.specs.Behind.{place_in};

use cc_whole_front::Front;

/// The place of the token of this index, or behind the last one the place at which none begins.
pub fn place_of(front: &Front, index: usize) -> usize
    ensures { result ≡ place_in front.now.places.items front.now.end index }
{
    if index < front.places.len() {
        front.places[index]
    } else {
        front.end
    }
}
