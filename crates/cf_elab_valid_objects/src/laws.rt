//! Laws of initialisers and of automatic objects: functions that do nothing, and whose contracts are the laws.

ghost use Rattle.cf_elab_valid_objects.specs.Laws.{KeepersAreValid, InitialisersAreValid, ExpressionsAreQuiet, InitialisersLeaveNames, LocalsAreValid};

/// Whatever keeps a temporary, the reference that binds it starts as a reference of its type (8.4.3, 12.2).
pub fn keepers_are_valid()
    ensures { KeepersAreValid }
{}

/// What is made of an initialiser, or of none, starts an object or a reference of its type (8.4).
pub fn initialisers_are_valid()
    ensures { InitialisersAreValid }
{}

/// Elaborating an expression changes nothing but the table of types and the count of string literals (5).
pub fn expressions_are_quiet()
    ensures { ExpressionsAreQuiet }
{}

/// An initialiser leaves the names, and all that they stand for, where what keeps a temporary does (8.4).
pub fn initialisers_leave_names()
    ensures { InitialisersLeaveNames }
{}

/// What is made of the declaration of an automatic object fits the function at hand, and so does the statement of several (6.7).
pub fn locals_are_valid()
    ensures { LocalsAreValid }
{}
