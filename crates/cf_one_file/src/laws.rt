//! The laws, from the core to its plain file, to the runs of its text, and to the meaning with which these agree.
ghost use Rattle.std.specs.Prelude.{◌≡◌, ℕ, List, None, true};
ghost use Rattle.cf_core.specs.FromUnit.{Unit as CoreUnit, IsValid, file_of};
ghost use Rattle.cf_core_sound.specs.Well.{OfBytes};
ghost use Rattle.cf_lower_place.specs.Input.{IsInput};
ghost use Rattle.cf_lower_program.specs.Lowerable.{Lowerable};
ghost use Rattle.cf_plain.specs.View as plain;
ghost use Rattle.cf_sequence.specs.Built.{is_built_file};
ghost use Rattle.cf_sequence_built.specs.Unbuilt.{in_file};
ghost use Rattle.cf_sequence_unit.specs.Sequences.{Sequences};
ghost use Rattle.cf_one_file.specs.Covered.{Covered};
ghost use Rattle.cf_one_file.specs.Means.{LowerableFileMeans, OneFileMeans, LinkedFilesHaveMain, LowerableFileRunsAsMeant, OneFileRunsAsMeant};

use cc_whole_read::text_has_one_unit;
use cf_file_sound::one_file_is_sound;
use cf_lower_alone::one_file_agrees;
use cf_sequence_lowered::sequenced_files_are_lowerable;
use cf_sequence_unit::sequenced_units_keep_the_meaning;

/// The law that a core of which no construct is told as not built has a file whose functions and static objects are of the forms that sequencing builds. It does nothing.
pub fn built_cores_have_built_files()
    ensures { (core : CoreUnit) → in_file core ≡ None → is_built_file (file_of core) ≡ true }
{}

/// The law that the plain file of a covered core is lowered. It does nothing.
pub fn covered_is_lowerable()
    ensures { (core : CoreUnit) (made : plain.Unit) → IsValid core → Sequences core made → Covered core → Lowerable (plain.file_of made) }
{
    sequenced_files_are_lowerable();
}

/// The law that a text for a core whose plain file is lowered does what the core means, for every input of bytes, heap limit, depth limit and bound of ticks (3.4): each
/// outcome of the text, linked alone, agrees with the core's, where that has one. It does nothing.
pub fn lowerable_file_means()
    ensures { LowerableFileMeans }
{
    text_has_one_unit();
    one_file_agrees();
    sequenced_units_keep_the_meaning();
}

/// The same law of a core that is covered, which asks nothing of its plain file. It does nothing.
pub fn one_file_means()
    ensures { OneFileMeans }
{
    covered_is_lowerable();
    lowerable_file_means();
}

/// The law that both words for an input of bytes say one thing: what the laws of lowering ask of an input is what soundness asks. It does nothing.
pub fn inputs_are_of_bytes()
    ensures { (input : List ℕ) → IsInput input → OfBytes input }
{}

/// The law that the unit of a core whose plain file is lowered links by itself to a program only where the core's file has a `main` that is not local to it (3.4). It does nothing.
pub fn linked_files_have_main()
    ensures { LinkedFilesHaveMain }
{}

/// The law that a text for a core whose plain file is lowered, and which is sound if it has a `main`, runs as the core means: there is a meaning, and the run agrees with it.
/// A text that runs is linked, so there is a `main`. It does nothing.
pub fn lowerable_file_runs_as_meant()
    ensures { LowerableFileRunsAsMeant }
{
    text_has_one_unit();
    inputs_are_of_bytes();
    lowerable_file_means();
    one_file_is_sound();
    linked_files_have_main();
}

/// The same law of a core that is covered. It does nothing.
pub fn one_file_runs_as_meant()
    ensures { OneFileRunsAsMeant }
{
    covered_is_lowerable();
    lowerable_file_runs_as_meant();
}
