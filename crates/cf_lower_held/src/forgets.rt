//! What is left where statements run any number of times.

ghost use Rattle.std.specs.Prelude.{◌≡◌, map};
ghost use Rattle.cf_lower.specs.Kept as definition;
ghost use Rattle.cf_plain.specs.View.{parts_in_order};
ghost use Rattle.cf_lower_held.specs.Holds.{without};
ghost use Rattle.cf_lower_held.specs.Scenes.{built_in, holding, locals_in, statement_in, statements_in};

use crate::registers::Registers;
use crate::scene::Scene;
use cf_base::Items;
use cf_plain::{Plain, PlainPart};

/// The registers that statements set hold nothing any more.
#[cycle(forgets)]
pub fn forget(x: &Scene<'_>, all: &Items<Plain>, rs: &mut Registers)
    ensures { holding x.now rs.new ≡ definition.untouched (locals_in x.now) (holding x.now rs.old) (statements_in x.now all.now) }
{
    for s in all.as_slice() {
        forget_one(x, s, rs);
    }
}

/// Those that one statement sets.
#[cycle(forgets)]
fn forget_one(x: &Scene<'_>, s: &Plain, rs: &mut Registers)
    ensures { holding x.now rs.new ≡ without (λ r. definition.sets (locals_in x.now) r (statement_in x.now s.now)) (holding x.now rs.old) }
{
    match s {
        Plain::Set { register, .. } => rs.clear(*register),
        Plain::If { yes, no, .. } => {
            forget(x, yes, rs);
            forget(x, no, rs);
        }
        Plain::Loop { body, next } => {
            forget(x, body, rs);
            forget(x, next, rs);
        }
        Plain::Switch { body, .. } => forget(x, body, rs),
        Plain::Parts { parts } => forget_parts(x, parts, rs),
        Plain::Act { .. } => {}
        Plain::Case { .. } => {}
        Plain::Default => {}
        Plain::Break => {}
        Plain::Continue => {}
        Plain::Return { .. } => {}
    }
}

/// Those that the statements of bases and data members set.
#[cycle(forgets)]
fn forget_parts(x: &Scene<'_>, parts: &Items<PlainPart>, rs: &mut Registers)
    ensures { holding x.now rs.new ≡ without (λ r. definition.parts_set (locals_in x.now) r (parts_in_order (map (built_in x.now) parts.now))) (holding x.now rs.old) }
{
    for part in parts.as_slice() {
        forget(x, &part.statements, rs);
    }
}
