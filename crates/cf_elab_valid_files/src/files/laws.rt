//! The laws: functions that do nothing, and whose contracts are the laws.

ghost use Rattle.cf_elab_valid_files.specs.Bodies.Laws.{ConstantsAreApart};
ghost use Rattle.cf_elab_valid_files.specs.Files.Laws.{ElaboratedFilesAreValid, FinishedFilesAreValid};

/// A constant initialiser of a static object of a function names no local (6.7, 8.4).
pub fn constants_are_apart()
    ensures { ConstantsAreApart }
{}

/// The core that is made of a file is valid, where its end is well formed.
pub fn elaborated_files_are_valid()
    ensures { ElaboratedFilesAreValid }
{}

/// The same where a look at the end finds it well formed.
pub fn finished_files_are_valid()
    ensures { FinishedFilesAreValid }
{}
