//! The law of static objects: a function that does nothing, and whose contract is the law.

ghost use Rattle.cf_elab_valid_files.specs.Statics.Laws.{StaticsAreValid};

/// What is declared with linkage or static, in a file or in a function, fits the end (3.3, 6.7, 8.4).
pub fn statics_are_valid()
    ensures { StaticsAreValid }
{}
