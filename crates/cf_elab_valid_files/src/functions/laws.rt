//! The law of functions with a body: a function that does nothing, and whose contract is the law.

ghost use Rattle.cf_elab_valid_files.specs.Functions.Laws.{FunctionsAreValid};

/// What is made of a function with a body fits the end of the file, in which its frame has complete types, where constants name no local (8.3).
pub fn functions_are_valid()
    ensures { FunctionsAreValid }
{}
