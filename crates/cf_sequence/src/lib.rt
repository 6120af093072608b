//! Sequencing: a core becomes plain statements of one effect each, in which the order of evaluation, temporaries and the ends of objects are settled.
//!
//! `specs/` has the plain unit that a core's file becomes (`Sequenced`), and which cores have been built so far (`Built`). The laws below say that
//! plain statements have the meaning of their cores; `proofs/` tries the definition on programs of all forms.
#![tactic(auto)]

ghost use Rattle.std.specs.Prelude.{◌≡◌, ℕ, List, true, Some, map, Contains};
ghost use Rattle.std.specs.List.{list_all};
ghost use Rattle.cf_base.specs.World.{Outcome};
ghost use Rattle.cf_core.specs.Types.{Name};
ghost use Rattle.cf_core.specs.Core.{CoreFile, Function};
ghost use Rattle.cf_core.specs.Calls.{Program};
ghost use Rattle.cf_core.specs.Joined.{program_of};
ghost use Rattle.cf_core.specs.Named.{Named};
ghost use Rattle.cf_core.specs.Program.{Mean};
ghost use Rattle.cf_plain.specs.Joined.{files_mean};
ghost use Rattle.cf_plain.specs.Named.{Named as PlainNamed};
ghost use Rattle.cf_plain.specs.Program.{PlainMean};
ghost use Rattle.cf_sequence.specs.Built.{is_built_file, is_plainly_built};
ghost use Rattle.cf_sequence.specs.Sequenced.{sequenced, sequenced_file, sequenced_function};

/// The law that sequencing keeps the meaning of files, for those that are built so far: for each input, heap limit, depth limit and bound of ticks
/// their plain units, joined, show the same trace and come to the same end as their cores, an undefined act too. It does nothing.
pub fn sequencing_keeps_the_meaning_of_files()
    ensures { (files : List CoreFile) → list_all is_built_file files ≡ true → (input : List ℕ) (heap depth n : ℕ) (x : Outcome)
        → Mean (program_of files) input heap depth n ≡ Some x → files_mean (map sequenced_file files) input heap depth n ≡ Some x }
{}

/// The same law of a program whose files are joined. It does nothing.
pub fn sequencing_keeps_the_meaning()
    ensures { (P : Program) → is_plainly_built P ≡ true → (input : List ℕ) (heap depth n : ℕ) (x : Outcome)
        → Mean P input heap depth n ≡ Some x → PlainMean (sequenced P) input heap depth n ≡ Some x }
{}

/// The law that the plain statements of a function name no virtual function without dispatch (10.2, 12.4) that its core does not name so, in files that are
/// built so far: these define no class. It does nothing.
pub fn sequencing_names_no_more()
    ensures { (file : CoreFile) → is_built_file file ≡ true → (f : Function) (name : Name)
        → Contains (PlainNamed file.classes (sequenced_function file.classes file.statics f)) name → Contains (Named file.classes f) name }
{}
