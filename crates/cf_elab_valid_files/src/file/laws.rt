//! The law of files: a function that does nothing, and whose contract is the law.

ghost use Rattle.cf_elab_valid_files.specs.File.Laws.{FilesAreValid};

/// The core that is made of a file is valid, where its end is well formed and constants name no local.
pub fn files_are_valid()
    ensures { FilesAreValid }
{}
