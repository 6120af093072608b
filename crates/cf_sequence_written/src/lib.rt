//! The laws that what the code writes of a file is the definition's, and has the meaning of the file's core.
//!
//! `cf_sequence_fn` says what the code writes for a file, over `cf_sequence_stmt` for statements and `cf_sequence_expr` for expressions. These are
//! the plain statements that `cf_sequence` defines, whose meaning is that of the core.
#![tactic(auto)]

ghost use Rattle.std.specs.Prelude.{◌≡◌, ℕ, List, Some, is_some, map, not, true};
ghost use Rattle.std.specs.List.{list_all};
ghost use Rattle.std.specs.declared.alloc.Global.{Global};
ghost use Rattle.cf_base.specs.World.{Outcome};
ghost use Rattle.cf_core.specs.FromUnit.{Unit, IsValid, file_of, tables_of, units_mean};
ghost use Rattle.cf_plain.specs.Joined.{files_mean};
ghost use Rattle.cf_plain.specs.Numbers.{function_known};
ghost use Rattle.cf_plain.specs.View as plain;
ghost use Rattle.cf_sequence.specs.Built.{is_built_file};
ghost use Rattle.cf_sequence.specs.Sequenced.{sequenced_file};
ghost use Rattle.cf_sequence_built.specs.Unbuilt.{in_file};
ghost use Rattle.cf_sequence_fn.specs.Functions.{written_unit, written_function};
ghost use Rattle.cf_sequence_written.specs.Built.{AreBuilt};

/// The law that what is written for a valid file of built functions is its plain file. It does nothing.
pub fn written_files_are_sequenced()
    ensures { (alloc : Global) (frames : List ℕ) (unit : Unit) → IsValid unit → is_built_file (file_of unit) ≡ true
        → plain.file_of (written_unit alloc frames unit) ≡ sequenced_file (file_of unit) }
{}

/// The law that what is written for valid files of built functions has their meaning: for each input, heap limit, depth limit and bound of ticks
/// the plain files, joined, show the same trace and come to the same end as the cores, an undefined act too. It does nothing.
pub fn written_files_keep_the_meaning()
    ensures { (alloc : Global) (frames : Unit → List ℕ) (units : List Unit) → AreBuilt units → (input : List ℕ) (heap depth n : ℕ) (x : Outcome)
        → units_mean units input heap depth n ≡ Some x
        → files_mean (map (λ u. plain.file_of (written_unit alloc (frames u) u)) units) input heap depth n ≡ Some x }
{}

/// The law that in a file a construct that is not built is found just where the file is not one of built functions. It does nothing.
pub fn what_is_found_is_not_built()
    ensures { (unit : Unit) → is_some (in_file unit) ≡ not (is_built_file (file_of unit)) }
{}

/// The law that each number of a type in what is written for a valid file is there in the file's tables. It does nothing.
pub fn written_numbers_are_known()
    ensures { (alloc : Global) (unit : Unit) → IsValid unit
        → list_all (function_known (tables_of unit)) (map (written_function unit.types alloc) unit.functions) ≡ true }
{}
