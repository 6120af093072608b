ghost use Rattle.std.specs.Prelude.{◌≡◌, reverse};
ghost use Rattle.cf_base.specs.World.{World};
ghost use Rattle.cf_core.specs.FromTypes.{Tables};
ghost use Rattle.cf_core.specs.Run.{for_all, gone, object_changed};
ghost use Rattle.cf_core_objects.specs.Answer.{Told};
ghost use Rattle.cf_core_objects.specs.Store.{state_of};
ghost use Rattle.cf_core_objects.specs.declared.object.Entered.{Entered as Enter};

use crate::answer::Stop;
use crate::object::{Entered, Objects};

/// An object ends. A run ends only objects that it made.
fn end_object(objects: &mut Objects<'_>, object: usize) -> Result<(), Stop>
    ensures { (T : Tables) (e : Enter) (w : World) → Told (λ u. tt) result (state_of T e objects.new) w (object_changed object gone (state_of T e objects.old) w) }
{
    if object >= objects.cells.len() {
        return Err(Stop::Memory);
    }
    objects.cells[object].is_gone = true;
    Ok(())
}

/// Objects end, the last of the list first.
pub fn end_objects(objects: &mut Objects<'_>, list: &[usize]) -> Result<(), Stop>
    ensures { (T : Tables) (e : Enter) (w : World) → Told (λ u. tt) result (state_of T e objects.new) w (for_all (reverse list.now) (λ o. object_changed o gone) (state_of T e objects.old) w) }
{
    match list.split_last() {
        None => Ok(()),
        Some((last, rest)) => match end_object(objects, *last) {
            Err(stop) => Err(stop),
            Ok(()) => end_objects(objects, rest),
        },
    }
}

/// The temporaries of the full expression at hand end, the newest first (12.2).
pub fn end_temporaries(entered: &Entered<'_>, objects: &mut Objects<'_>) -> Result<(), Stop>
    ensures { (T : Tables) (w : World) → Told (λ u. tt) result (state_of T entered.now objects.new) w (for_all (reverse entered.now.temporaries.items) (λ o. object_changed o gone) (state_of T entered.now objects.old) w) }
{
    let temporaries = entered.temporaries.as_slice();
    end_objects(objects, temporaries)
}

/// The objects that were declared in the innermost scope end, the newest first (6.7).
pub fn end_scope(entered: &Entered<'_>, objects: &mut Objects<'_>) -> Result<(), Stop>
    ensures { (T : Tables) (w : World) → Told (λ u. tt) result (state_of T entered.now objects.new) w (for_all (reverse entered.now.scope.items) (λ o. object_changed o gone) (state_of T entered.now objects.old) w) }
{
    let scope = entered.scope.as_slice();
    end_objects(objects, scope)
}
