//! The law that sequencing makes valid plain statements.
//!
//! `cf_sequence` defines the plain file that a core's file becomes. Where the core's file is valid and of built functions, its plain file is valid too:
//! what is numbered is there, each local has the type that it is used with, and each way out of a loop or switch stands in one.
#![tactic(auto)]

ghost use Rattle.std.specs.Prelude.{◌≡◌, true};
ghost use Rattle.cf_core.specs.Core.{CoreFile};
ghost use Rattle.cf_core.specs.Valid as core;
ghost use Rattle.cf_plain.specs.Valid as plain;
ghost use Rattle.cf_sequence.specs.Built.{is_built_file};
ghost use Rattle.cf_sequence.specs.Sequenced.{sequenced_file};

/// The law that the plain file of a valid core's file is valid, for files that are built so far. It does nothing.
pub fn sequenced_files_are_valid()
    ensures { (file : CoreFile) → core.valid_file file ≡ true → is_built_file file ≡ true → plain.valid_file (sequenced_file file) ≡ true }
{}
