//! Cuts a text of the whole small C into its tokens.
//!
//! `tokens` gives the tokens of a text, and the byte place of each; where it gives none, the text has none. A
//! text is cut in one way, so these are its tokens. `first_token` gives the one at the front. `cc_whole_tokens` has how a text is cut, and `specs/` how the
//! token at the front is found.
#![tactic(auto)]

mod cut;
mod first;
mod front;
mod marks;
mod string;

pub use cut::{CutError, TokenList, first_token, tokens, without_blanks};
pub use front::rest_of;
