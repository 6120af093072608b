//! The meaning of a valid core never comes to `Malformed`: what each node gives is as its typing says, and every moment of a run is sound.
//!
//! `specs/` says when a value is one of a type (`Values`), when a moment of a run is sound (`States`), what an act does that is never malformed
//! (`Well`), and of which expressions and statements this is told (`Simple`, `Statements`). There is no code here: the laws are functions that do nothing.
#![tactic(auto)]

ghost use Rattle.cf_core_sound.specs.Laws.{ProgramsAreSound, StatementsAreSound, ValuesAreSound};

/// The law that programs without classes, whose functions and constants are typed and of the forms that `Programs` has, are never malformed: for every
/// input of bytes, heap limit, depth limit and bound of ticks the meaning gives a trace and an end. It does nothing.
pub fn programs_are_sound()
    ensures { ProgramsAreSound }
{}

/// The law that expressions are sound: from a sound moment none is malformed, its value is as its typing says, and it leaves a sound moment. It does
/// nothing.
pub fn values_are_sound()
    ensures { ValuesAreSound }
{}

/// The law that statements are sound: from a sound moment none is malformed, and each ends as it may: it falls through, breaks or continues where it
/// stands in a loop or switch, or returns a value of its function's result. It does nothing.
pub fn statements_are_sound()
    ensures { StatementsAreSound }
{}
