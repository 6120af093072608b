ghost use Rattle.std.specs.Prelude.{◌≡◌, ℕ, List, Some, map};
ghost use Rattle.cf_base.specs.World.{Outcome};
ghost use Rattle.cf_core.specs.FromUnit.{Unit, units_mean};
ghost use Rattle.cf_plain.specs.View as plain;
ghost use Rattle.cf_plain.specs.Joined.{files_mean};
ghost use Rattle.cf_sequence_unit.specs.Sequences.{AreSequenced};

/// The law that sequencing keeps the meaning of the files of a program: for each input, heap limit, depth limit and bound of ticks the plain units,
/// joined, show the same trace and come to the same end as the cores, an undefined act too. It does nothing.
pub fn sequenced_units_keep_the_meaning()
    ensures { (units : List Unit) (made : List plain.Unit) → AreSequenced units made → (input : List ℕ) (heap depth n : ℕ) (x : Outcome)
        → units_mean units input heap depth n ≡ Some x → files_mean (map plain.file_of made) input heap depth n ≡ Some x }
{}
