//! Laws of the core that elaboration makes: functions that do nothing, and whose contracts are the laws.

ghost use Rattle.cf_elab_valid.specs.Laws.{ExpressionsAreValid, SimpleStatementsAreValid, TypesAreThere};

/// What is made of an expression is a place or a value of its type, with each number there, in the tables of the end (5).
pub fn expressions_are_valid()
    ensures { ExpressionsAreValid }
{}

/// What is made of a type in brackets is the number of one of the types so far (8.1).
pub fn types_are_there()
    ensures { TypesAreThere }
{}

/// What is made of a statement that declares nothing fits the function at hand, where its parts are fine: expressions, blocks, choices, loops and jumps (6.2 to 6.6).
pub fn simple_statements_are_valid()
    ensures { SimpleStatementsAreValid }
{}
