//! What is left where statements may begin at any label.

ghost use Rattle.std.specs.Prelude.{◌≡◌};
ghost use Rattle.cf_plain_kept.specs.Kept as definition;
ghost use Rattle.cf_lowerable_ready.specs.Contents.{without};
ghost use Rattle.cf_lowerable_ready.specs.Scenes.{knowing, statement_in, statements_in};

use crate::contents::Contents;
use crate::scene::Scene;
use cf_base::Items;
use cf_plain::Plain;

/// The registers that statements set hold nothing any more.
#[cycle(forgets)]
pub fn forget(x: &Scene<'_>, all: &Items<Plain>, cs: &mut Contents)
    ensures { knowing x.now cs.new ≡ definition.untouched (knowing x.now cs.old) (statements_in x.now all.now) }
{
    for s in all.as_slice() {
        forget_one(x, s, cs);
    }
}

/// Those that one statement sets.
#[cycle(forgets)]
fn forget_one(x: &Scene<'_>, s: &Plain, cs: &mut Contents)
    ensures { knowing x.now cs.new ≡ without (λ r. definition.sets r (statement_in x.now s.now)) (knowing x.now cs.old) }
{
    match s {
        Plain::Set { register, .. } => cs.clear(*register),
        Plain::If { yes, no, .. } => {
            forget(x, yes, cs);
            forget(x, no, cs);
        }
        Plain::Loop { body, next } => {
            forget(x, body, cs);
            forget(x, next, cs);
        }
        Plain::Switch { body, .. } => forget(x, body, cs),
        Plain::Parts { .. } => cs.clear_all(),
        Plain::Act { .. } => {}
        Plain::Case { .. } => {}
        Plain::Default => {}
        Plain::Break => {}
        Plain::Continue => {}
        Plain::Return { .. } => {}
    }
}
