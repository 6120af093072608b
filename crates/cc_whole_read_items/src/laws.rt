//! What the answers of `items_of` tell.

ghost use Rattle.std.specs.Prelude.{◌≡◌, List};
ghost use Rattle.cc_whole_tokens.specs.declared.token.Token.{Token};
ghost use Rattle.cc_whole.specs.declared.unit.CItem.{CItem};
ghost use Rattle.cc_whole.specs.SpellsItems.{SpellsItems};

/// The law that tokens spell at most one list of items. It does nothing.
pub fn tokens_have_one_list_of_items()
    ensures { (tokens : List Token) (these those : List CItem) → SpellsItems these tokens → SpellsItems those tokens → these ≡ those }
{}
