//! The laws that a file which passes all tests is lowered.

ghost use Rattle.std.specs.Prelude.{◌≡◌, true};
ghost use Rattle.cf_core.specs.Core.{CoreFile};
ghost use Rattle.cf_core.specs.FromUnit.{Unit as CoreUnit, IsValid, file_of};
ghost use Rattle.cf_core.specs.Valid.{valid_file};
ghost use Rattle.cf_lower_program.specs.Lowerable.{Lowerable};
ghost use Rattle.cf_plain.specs.View as plain;
ghost use Rattle.cf_sequence.specs.Built.{is_built_file};
ghost use Rattle.cf_sequence.specs.Sequenced.{sequenced_file};
ghost use Rattle.cf_sequence_unit.specs.Sequences.{Sequences};
ghost use Rattle.cf_lowerable.specs.Remaining.{Remaining};
ghost use Rattle.cf_lowerable.specs.Tested.{CoreTested, Tested};

use cf_sequence_kept::sequenced_registers_are_kept;
use cf_sequence_lowered::{
    sequenced_actions_are_lowered, sequenced_arguments_are_apart, sequenced_counts_fit,
    sequenced_files_have_no_classes, sequenced_functions_are_plain, sequenced_labels_fit,
    sequenced_literals_differ, sequenced_names_are_shared_or_local, sequenced_texts_fit,
    sequenced_types_are_lowered,
};
use cf_sequence_valid::sequenced_files_are_valid;

/// The law that what sequencing makes of a valid file of built functions is lowered where the file's core passes the tests of cores, and what is made passes
/// those that are left. It does nothing.
pub fn tested_files_are_lowerable()
    ensures { (file : CoreFile) → valid_file file ≡ true → is_built_file file ≡ true → CoreTested file → Remaining (sequenced_file file) → Lowerable (sequenced_file file) }
{
    sequenced_files_are_valid();
    sequenced_files_have_no_classes();
    sequenced_functions_are_plain();
    sequenced_types_are_lowered();
    sequenced_actions_are_lowered();
    sequenced_texts_fit();
    sequenced_literals_differ();
    sequenced_labels_fit();
    sequenced_counts_fit();
    sequenced_names_are_shared_or_local();
    sequenced_arguments_are_apart();
    sequenced_registers_are_kept();
}

/// The same law of the unit that sequencing gives for a valid core. It does nothing.
pub fn tested_units_are_lowerable()
    ensures { (core : CoreUnit) (made : plain.Unit) → IsValid core → Sequences core made → Tested (file_of core) (plain.file_of made) → Lowerable (plain.file_of made) }
{
    tested_files_are_lowerable();
}
