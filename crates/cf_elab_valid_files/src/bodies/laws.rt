//! The law of statements and declarations by their trees: a function that does nothing, and whose contract is the law.

ghost use Rattle.cf_elab_valid_files.specs.Bodies.Laws.{BodiesAreValid};

/// What is made of a statement fits the function at hand, and what is made of a declaration fits there or in the file, where constants name no local (6, 7).
pub fn bodies_are_valid()
    ensures { BodiesAreValid }
{}
