//! What the numbers of tokens tell of their items.

ghost use Rattle.std.specs.Prelude.{◌≡◌, List};
ghost use Rattle.cc_whole_tokens.specs.declared.token.Token.{Token};
ghost use Rattle.cc_whole.specs.declared.unit.CItem.{CItem};
ghost use Rattle.cc_whole.specs.Plain.{items_of};
ghost use Rattle.cc_whole.specs.SpellsItems.{SpellsItems};
ghost use Rattle.cc_whole_fitting.specs.Fitting.{fitting_items};
ghost use Rattle.cc_whole_fitting.specs.Numbers.{numbers_fit};

/// The law that the numbers of tokens fit exactly where all constants of their items do. It does nothing.
pub fn numbers_fit_as_their_items()
    ensures { (items : List CItem) (tokens : List Token) → SpellsItems items tokens → numbers_fit tokens ≡ fitting_items (items_of items) }
{}
