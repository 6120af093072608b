//! Laws of linking of the whole small C: it has one answer, and a valid program that is linked alone is itself.
#![tactic(auto)]

ghost use Rattle.std.specs.Prelude.{◌≡◌, List, [], ◌∷◌, Result, Ok, true};
ghost use Rattle.cc_whole.specs.declared.unit.CUnit.{CUnit};
ghost use Rattle.cc_whole.specs.declared.unit.CProgram.{CProgram};
ghost use Rattle.cc_whole.specs.ValidUnit.{valid_program};
ghost use Rattle.cc_whole_link.specs.Link.{Links, Refusal};
ghost use Rattle.cc_whole_linked.specs.Alone.{alone};
ghost use Rattle.cc_whole_linked.specs.Limited.{LinkAnswer, LinksWithin};

/// The law that units make at most one program or refusal. It does nothing.
pub fn linking_has_one_answer()
    ensures { (units : List CUnit) (r s : Result CProgram Refusal) → Links units r → Links units s → r ≡ s }
{}

/// The law that units have at most one answer of linking within the limit Static. It does nothing.
pub fn linking_within_the_limit_has_one_answer()
    ensures { (units : List CUnit) (a b : LinkAnswer) → LinksWithin units a → LinksWithin units b → a ≡ b }
{}

/// The law that a valid program which is linked alone, as a unit of version 1, is itself. It does nothing.
pub fn a_program_links_alone()
    ensures { (program : CProgram) → valid_program program ≡ true → Links (alone program ∷ []) (Ok program) }
{}
