//! The objects in registers behind statements.

ghost use Rattle.std.specs.Prelude.{◌≡◌, OnOk};
ghost use Rattle.cf_lowerable_open.specs.Objects as spec;
ghost use Rattle.cf_lowerable_open.specs.Views.{holding, statement_in, statements_in};

use crate::actions::object_given;
use crate::forgets::forget;
use crate::objects::Objects;
use crate::scene::Scene;
use cf_base::{Items, Memory};
use cf_plain::Plain;

/// The objects behind statements.
#[cycle(behind)]
fn go_behind_all(x: &Scene<'_>, all: &Items<Plain>, g: &mut Objects) -> Result<(), Memory>
    ensures { OnOk result (holding g.new ≡ spec.behind_all (statements_in x.now all.now) (holding g.old)) }
{
    for s in all.as_slice() {
        go_behind(x, s, g)?;
    }
    Ok(())
}

/// The objects behind a statement.
#[cycle(behind)]
pub fn go_behind(x: &Scene<'_>, s: &Plain, g: &mut Objects) -> Result<(), Memory>
    ensures { OnOk result (holding g.new ≡ spec.behind (statement_in x.now s.now) (holding g.old)) }
{
    match s {
        Plain::Set { register, action } => {
            g.place(*register, object_given(x, action))?;
            Ok(())
        }
        Plain::If { yes, no, .. } => {
            let mut other = g.copied(x.alloc)?;
            go_behind_all(x, yes, g)?;
            go_behind_all(x, no, &mut other)?;
            g.share(&other);
            Ok(())
        }
        Plain::Loop { .. } => {
            g.clear_all();
            Ok(())
        }
        Plain::Switch { body, .. } => {
            forget(x, body, g);
            Ok(())
        }
        Plain::Case { .. } => {
            g.clear_all();
            Ok(())
        }
        Plain::Default => {
            g.clear_all();
            Ok(())
        }
        Plain::Act { .. } => Ok(()),
        Plain::Break => Ok(()),
        Plain::Continue => Ok(()),
        Plain::Return { .. } => Ok(()),
        Plain::Parts { .. } => Ok(()),
    }
}
