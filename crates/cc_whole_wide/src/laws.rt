//! What stands in the place of items.

ghost use Rattle.std.specs.Prelude.{List};
ghost use Rattle.cc_whole_tokens.specs.declared.token.Token.{Token};
ghost use Rattle.cc_whole.specs.declared.unit.CItem.{CItem};
ghost use Rattle.cc_whole.specs.SpellsItems.{SpellsItems};
ghost use Rattle.cc_whole_wide.specs.Place.{InPlace};

/// The law that others stand in the place of the items that tokens spell, whose first fault tells that of the items. It does nothing.
pub fn items_have_others_in_place()
    ensures { (items : List CItem) (tokens : List Token) → SpellsItems items tokens → InPlace tokens items }
{}
