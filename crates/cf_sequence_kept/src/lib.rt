//! The law that in what sequencing makes each register is set before it is used, and holds there what the action takes.
#![tactic(auto)]

ghost use Rattle.std.specs.Prelude.{◌≡◌, true};
ghost use Rattle.cf_core.specs.Core.{CoreFile};
ghost use Rattle.cf_core.specs.Valid as core;
ghost use Rattle.cf_plain_kept.specs.Kept.{functions_kept};
ghost use Rattle.cf_sequence.specs.Built.{is_built_file};
ghost use Rattle.cf_sequence.specs.Sequenced.{sequenced_file};

/// The law that in the plain functions of a valid core's file each register is set before it is used, and holds there what the action takes, for files
/// that are built so far. It does nothing.
pub fn sequenced_registers_are_kept()
    ensures { (file : CoreFile) → core.valid_file file ≡ true → is_built_file file ≡ true → functions_kept (sequenced_file file) ≡ true }
{}
