//! The temporaries that references bind and keep (8.4.3).

ghost use Rattle.std.specs.Prelude.{◌≡◌, true, OnOk};
ghost use Rattle.cf_core.specs.FromUnit.{tables_of};
ghost use Rattle.cf_core.specs.Numbers.{are_known};
ghost use Rattle.cf_sequence_expr.specs.Pieces.{piece};
ghost use Rattle.cf_sequence_expr.specs.Pieces as spec;

use crate::values::value;
use crate::writing::{Full, Writing, behind, copied};
use cf_base::{Memory, Name};
use cf_core::{Core, CoreUnit};
use cf_plain::Action;
use cf_types::TyId;

/// Writes the temporary of a local reference, which is this local, and its place into this register (8.4.3).
#[cycle(values)]
#[tactic(auto, unfolding(crate::specs::Pieces::held))]
pub fn held(
    unit: &CoreUnit,
    e: &Core,
    local: u32,
    ty: TyId,
    full: Full,
    n: u32,
    w: &mut Writing,
) -> Result<(), Memory>
    requires { are_known (tables_of unit.now) e.now ≡ true }
    ensures { OnOk result (w.new ≡ spec.held local ty (piece unit.now.types e.now) full n w.old) }
{
    let object = behind(n)?;
    let first = behind(object)?;
    w.set(object, Action::Declare { local, ty })?;
    w.set(n, Action::Local { number: local })?;
    value(unit, e, full, first, w)?;
    w.act(Action::First {
        place: object,
        value: first,
    })
}

/// Writes the temporary of a static reference, which is the static object of this name, and its place into this register (8.4.3).
#[cycle(values)]
#[tactic(auto, unfolding(crate::specs::Pieces::static_held))]
pub fn static_held(
    unit: &CoreUnit,
    e: &Core,
    name: &Name,
    full: Full,
    n: u32,
    w: &mut Writing,
) -> Result<(), Memory>
    requires { are_known (tables_of unit.now) e.now ≡ true }
    ensures { OnOk result (w.new ≡ spec.static_held name.now (piece unit.now.types e.now) full n w.old) }
{
    let first = behind(n)?;
    value(unit, e, full, first, w)?;
    let name = copied(w.alloc, name)?;
    w.set(n, Action::FinishStatic { name })?;
    w.act(Action::First {
        place: n,
        value: first,
    })
}
