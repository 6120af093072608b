ghost use Rattle.std.specs.Prelude.{◌≡◌, ℕ, List, Result};
ghost use Rattle.cf_core.specs.FromUnit.{Unit as CoreUnit};
ghost use Rattle.cf_first.specs.First.{First, Refusal};

/// A law: a file has one core, breaks one rule at one place, or passes one limit.
pub fn files_have_one_answer()
    ensures { (bytes : List ℕ) → (a b : Result CoreUnit Refusal) → First bytes a → First bytes b → a ≡ b }
{}
