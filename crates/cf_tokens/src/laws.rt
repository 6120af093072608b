ghost use Rattle.cf_tokens.specs.Laws.{HasOneAnswer, AreLongest};

/// A law and no code: a text has one list of tokens at most, or one fault with one place.
pub fn one_answer()
    ensures { HasOneAnswer }
{}

/// A law and no code: no token could have been longer, so each is as long as it can be.
pub fn longest_tokens()
    ensures { AreLongest }
{}
