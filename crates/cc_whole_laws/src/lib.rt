//! Laws of the whole small C: the texts of a tree have as many landmarks as the tree, so places of broken rules can be
//! numbers of landmarks.
#![tactic(auto)]

ghost use Rattle.std.specs.Prelude.{◌≡◌, List};
ghost use Rattle.cc_whole_tokens.specs.declared.token.Token.{Token};
ghost use Rattle.cc_whole.specs.declared.unit.CItem.{CItem};
ghost use Rattle.cc_whole.specs.Plain.{items_of};
ghost use Rattle.cc_whole.specs.SpellsItems.{SpellsItems};
ghost use Rattle.cc_whole_laws.specs.Landmark.{landmarks_in, items_marks};

/// The law that tokens which spell items have as many landmarks as the items' trees tell. It does nothing.
pub fn texts_have_their_landmarks()
    ensures { (items : List CItem) (tokens : List Token) → SpellsItems items tokens → landmarks_in tokens ≡ items_marks (items_of items) }
{}
