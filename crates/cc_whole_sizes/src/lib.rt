//! The sizes of locals and variables in valid units and programs of the whole small C: the laws that each fits 32 bits.
//! `specs/Sizes` has the locals of items and what it means that sizes fit.
#![tactic(auto)]

ghost use Rattle.std.specs.Prelude.{◌≡◌, true, List};
ghost use Rattle.cc_whole.specs.declared.unit.CProgram.{CProgram};
ghost use Rattle.cc_whole.specs.Plain.{Item, items_of};
ghost use Rattle.cc_whole.specs.ValidUnit.{valid_items, valid_program};
ghost use Rattle.cc_whole_sizes.specs.Sizes.{SizesFit};

/// The law that the locals and variables of valid items have sizes that fit 32 bits. It does nothing.
pub fn sizes_of_valid_items_fit()
    ensures { (items : List Item) → valid_items items ≡ true → SizesFit items }
{}

/// The law that the locals and variables of a valid program have sizes that fit 32 bits. It does nothing.
pub fn sizes_of_valid_programs_fit()
    ensures { (program : CProgram) → valid_program program ≡ true → SizesFit (items_of program.items) }
{
    sizes_of_valid_items_fit();
}
