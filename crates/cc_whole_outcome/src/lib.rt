//! The outcome of texts of the whole small C, in `specs/`: each is read, the units are linked, and the program runs.
#![tactic(auto)]

ghost use Rattle.std.specs.Prelude.{◌≡◌, ℕ, List, [], ◌∷◌, true};
ghost use Rattle.cc_whole.specs.declared.unit.CProgram.{CProgram};
ghost use Rattle.cc_whole.specs.Text.{Text};
ghost use Rattle.cc_whole.specs.ValidUnit.{valid_program};
ghost use Rattle.cc_whole_linked.specs.Alone.{alone};
ghost use Rattle.cc_whole_mean.specs.Start.{c_mean};
ghost use Rattle.cc_whole_outcome.specs.CMean.{CMean};

/// The law that a text of a valid program, as a unit of version 1, has the outcome of the program. It does nothing.
pub fn a_program_runs_alone()
    ensures { (program : CProgram) (text input : List ℕ) (heap depth n : ℕ) → valid_program program ≡ true → Text text (alone program)
        → CMean (text ∷ []) input heap depth n (c_mean program input heap depth n) }
{}
