//! The C statements of a plain function keep the rules of validity, where names stand for what the function's actions take them for. As a law; nothing here
//! runs.
#![tactic(auto)]

ghost use Rattle.std.specs.Prelude.{List};
ghost use Rattle.cf_plain.specs.Plain.{PlainFunction};
ghost use Rattle.cc_whole.specs.Known.{Named};
ghost use Rattle.cf_lower_valid_body.specs.Scope.{Stands, BodyIsValid};

/// The law that the C statements of a plain function are valid, whose registers hold what its actions take, and whose own names and those of the file stand
/// for what they are. It does nothing.
pub fn bodies_are_valid()
    ensures { (names : List Named) (f : PlainFunction) → Stands names f → BodyIsValid names f }
{}
