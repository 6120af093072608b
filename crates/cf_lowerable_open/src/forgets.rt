//! The registers that statements set.

ghost use Rattle.std.specs.Prelude.{◌≡◌};
ghost use Rattle.cf_plain_kept.specs.Kept.{all_set, sets};
ghost use Rattle.cf_lowerable_open.specs.Objects.{without};
ghost use Rattle.cf_lowerable_open.specs.Views.{holding, statement_in, statements_in};

use crate::objects::Objects;
use crate::scene::Scene;
use cf_base::Items;
use cf_plain::Plain;

/// The registers that statements set hold no object any more.
#[cycle(forgets)]
pub fn forget(x: &Scene<'_>, all: &Items<Plain>, g: &mut Objects)
    ensures { holding g.new ≡ without (λ r. all_set r (statements_in x.now all.now)) (holding g.old) }
{
    for s in all.as_slice() {
        forget_one(x, s, g);
    }
}

/// Those that one statement sets.
#[cycle(forgets)]
fn forget_one(x: &Scene<'_>, s: &Plain, g: &mut Objects)
    ensures { holding g.new ≡ without (λ r. sets r (statement_in x.now s.now)) (holding g.old) }
{
    match s {
        Plain::Set { register, .. } => g.clear(*register),
        Plain::If { yes, no, .. } => {
            forget(x, yes, g);
            forget(x, no, g);
        }
        Plain::Loop { body, next } => {
            forget(x, body, g);
            forget(x, next, g);
        }
        Plain::Switch { body, .. } => forget(x, body, g),
        Plain::Parts { .. } => g.clear_all(),
        Plain::Act { .. } => {}
        Plain::Case { .. } => {}
        Plain::Default => {}
        Plain::Break => {}
        Plain::Continue => {}
        Plain::Return { .. } => {}
    }
}
