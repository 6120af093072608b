//! The laws of constants: functions that do nothing, and whose contracts are the laws.

ghost use Rattle.cf_elab_apart.specs.Laws.{ExpressionsAreApart, StartsAreApart};

/// What is made of an expression names no local where it is constant (5.19).
pub fn expressions_are_apart()
    ensures { ExpressionsAreApart }
{}

/// What starts a static object of a function names no local where it is constant, if the parts of the initialiser are apart (8.4).
pub fn starts_are_apart()
    ensures { StartsAreApart }
{}
