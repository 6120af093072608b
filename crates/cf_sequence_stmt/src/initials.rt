//! Initialisers: of locals and static objects, and of the elements of a list (8.4).

ghost use Rattle.std.specs.Prelude.{◌≡◌, ◌<◌, ◌-◌, length, map, suc, true, IfOk, OnOk};
ghost use Rattle.cf_core.specs.FromUnit.{tables_of};
ghost use Rattle.cf_core.specs.Numbers.{are_known, all_of};
ghost use Rattle.cf_sequence_stmt.specs.Bodies as spec;
ghost use Rattle.cf_sequence_stmt.specs.Rows.{row_at};
ghost use Rattle.cf_sequence_stmt.specs.Steps.{step};
ghost use Rattle.cf_sequence_stmt.specs.Steps as steps;
ghost use Rattle.cf_types.specs.Table.{Table};

use crate::body::{Body, Open};
use crate::expressions::{end_all, enter};
use crate::rows::array_at;
use cf_base::Memory;
use cf_core::{Core, CoreStatic, CoreUnit, Holder};
use cf_plain::Action;
use cf_sequence_expr::{Writing, behind, beyond, copied, width};
use cf_types::TyId;
use std::alloc::Global;

/// Whether an initialiser does nothing.
fn is_blank(e: &Core) -> bool
    ensures { (types : Table) → result ≡ spec.is_blank (step types e.now).initial }
{
    matches!(e, Core::Blank { .. })
}

/// Writes the initialiser of the place in this register that gives this value, which is stored before the temporaries end.
#[tactic(auto, unfolding(crate::specs::Bodies::started, crate::specs::Bodies::left_behind))]
fn settled(unit: &CoreUnit, e: &Core, ty: TyId, n: u32, w: &mut Writing) -> Result<(), Memory>
    requires { are_known (tables_of unit.now) e.now ≡ true }
    ensures { OnOk result (w.new ≡ spec.started spec.gives (step unit.now.types e.now).piece ty n w.old) }
{
    let flags = behind(n)?;
    let entered = enter(unit, e, flags, w)?;
    w.act(Action::First {
        place: n,
        value: entered.register,
    })?;
    end_all(entered.full, entered.made.as_slice(), w)
}

/// Writes the initialiser of an object of this type whose place is in this register: it does nothing, fills the object by itself, starts its
/// elements, or gives a value (8.4).
#[cycle(initials)]
#[tactic(auto, unfolding(crate::specs::Bodies::started, crate::specs::Steps::listed), using(crate::proofs::ListLaws::count_mapped))]
fn started(unit: &CoreUnit, e: &Core, ty: TyId, n: u32, w: &mut Writing) -> Result<(), Memory>
    requires known { are_known (tables_of unit.now) e.now ≡ true }
    requires typed { ty < length unit.now.types.types }
    ensures { OnOk result (w.new ≡ spec.started (step unit.now.types e.now).initial (step unit.now.types e.now).piece ty n w.old) }
{
    match e {
        Core::Blank { .. } => Ok(()),
        Core::Zeros { .. } => w.act(Action::Zeros { place: n }),
        Core::Characters { bytes, .. } => {
            let bytes = copied(w.alloc, bytes)?;
            w.act(Action::Characters { place: n, bytes })
        }
        Core::List { starts, rest, .. } => {
            let free = free_behind(w.alloc, unit, e, n)?;
            elements_in(unit, starts.as_slice(), ty, n, free, w)?;
            left_out_in(unit, rest.get(), starts.len(), ty, n, free, w)
        }
        _ => settled(unit, e, ty, n, w),
    }
}

/// The register that is free behind a place and the locals of its initialiser.
#[tactic(auto, using(crate::proofs::Pieces::same_piece))]
fn free_behind(alloc: Global, unit: &CoreUnit, e: &Core, n: u32) -> Result<u32, Memory>
    requires { are_known (tables_of unit.now) e.now ≡ true }
    ensures { IfOk result (λ free. free ≡ spec.behind_flags (suc n) (step unit.now.types e.now).piece) }
{
    beyond(behind(n)?, width(alloc, unit, e)?)
}

/// Writes the elements of an array, if the type is one, each with its own initialiser (8.4.1).
#[cycle(initials)]
#[tactic(auto, unfolding(crate::specs::Steps::elements_in))]
fn elements_in(
    unit: &CoreUnit,
    all: &[Core],
    ty: TyId,
    n: u32,
    free: u32,
    w: &mut Writing,
) -> Result<(), Memory>
    requires known { all_of (tables_of unit.now) (map (are_known (tables_of unit.now)) all.now) ≡ true }
    requires typed { ty < length unit.now.types.types }
    ensures { OnOk result (w.new ≡ steps.elements_in (row_at unit.now.types ty) (map (step unit.now.types) all.now) n free w.old) }
{
    match array_at(unit, ty) {
        None => Ok(()),
        Some(row) => elements(unit, all, row.element, n, free, w),
    }
}

/// Writes the elements of an array, if the type is one, from the first on that a list leaves out (8.4.1).
#[cycle(initials)]
#[tactic(auto, unfolding(crate::specs::Steps::left_out_in))]
fn left_out_in(
    unit: &CoreUnit,
    e: &Core,
    first: usize,
    ty: TyId,
    n: u32,
    free: u32,
    w: &mut Writing,
) -> Result<(), Memory>
    requires known { are_known (tables_of unit.now) e.now ≡ true }
    requires typed { ty < length unit.now.types.types }
    ensures { OnOk result (w.new ≡ steps.left_out_in (row_at unit.now.types ty) first (step unit.now.types e.now) n free w.old) }
{
    match array_at(unit, ty) {
        None => Ok(()),
        Some(row) => left_out(unit, e, row.element, first, row.bound, n, free, w),
    }
}

/// Writes the elements of a list, each with its own initialiser.
#[cycle(initials)]
fn elements(
    unit: &CoreUnit,
    all: &[Core],
    ty: TyId,
    n: u32,
    free: u32,
    w: &mut Writing,
) -> Result<(), Memory>
    requires known { all_of (tables_of unit.now) (map (are_known (tables_of unit.now)) all.now) ≡ true }
    requires typed { ty < length unit.now.types.types }
    ensures { OnOk result (w.new ≡ steps.elements ty n free 0 (map (step unit.now.types) all.now) w.old) }
{
    let mut index: u32 = 0;
    for e in all {
        element_placed(n, free, index, w)?;
        started(unit, e, ty, free, w)?;
        index = behind(index)?;
    }
    Ok(())
}

/// Writes the elements of an array from the first on that a list leaves out, which one initialiser starts.
#[cycle(initials)]
fn left_out(
    unit: &CoreUnit,
    e: &Core,
    ty: TyId,
    first: usize,
    bound: u32,
    n: u32,
    free: u32,
    w: &mut Writing,
) -> Result<(), Memory>
    requires known { are_known (tables_of unit.now) e.now ≡ true }
    requires typed { ty < length unit.now.types.types }
    ensures { OnOk result (w.new ≡ steps.left_out ty n free first (bound - first) (step unit.now.types e.now) w.old) }
{
    let count = (bound as usize).saturating_sub(first);
    let mut index = beyond(0, first)?;
    for _ in 0..count {
        element_placed(n, free, index, w)?;
        started(unit, e, ty, free, w)?;
        index = behind(index)?;
    }
    Ok(())
}

/// Writes that the place of the element of this number comes into a register, from the place of its array.
#[tactic(auto, unfolding(crate::specs::Bodies::element_placed))]
fn element_placed(array: u32, register: u32, index: u32, w: &mut Writing) -> Result<(), Memory>
    ensures { OnOk result (w.new ≡ spec.element_placed array register index w.old) }
{
    let second = behind(register)?;
    w.set(register, Action::Decay { array })?;
    w.set(
        second,
        Action::Number {
            value: index as i64,
        },
    )?;
    w.set(
        register,
        Action::Index {
            left: register,
            right: second,
        },
    )
}

/// The local that is the temporary of the reference that this initialises, if there is one (8.4.3).
pub fn held(e: &Core) -> Option<Open>
    ensures { (types : Table) → result ≡ (step types e.now).held }
{
    match e {
        Core::Bind {
            holder: Holder::LocalTemporary { local, ty },
            ..
        } => Some(Open {
            number: *local,
            ty: *ty,
        }),
        _ => None,
    }
}

/// It is there, behind those so far.
#[tactic(auto, unfolding(crate::specs::Bodies::held_too))]
fn hold(held: Option<Open>, b: &mut Body) -> Result<(), Memory>
    ensures { OnOk result (b.new ≡ spec.held_too held b.old) }
{
    match held {
        None => Ok(()),
        Some(x) => b.declare(x.number, x.ty),
    }
}

/// Writes the declaration of a local, with its initialiser (6.7).
#[tactic(auto, unfolding(crate::specs::Bodies::declared))]
pub fn declared(unit: &CoreUnit, e: &Core, local: u32, ty: TyId, b: &mut Body) -> Result<(), Memory>
    requires known { are_known (tables_of unit.now) e.now ≡ true }
    requires typed { ty < length unit.now.types.types }
    ensures { OnOk result (b.new ≡ spec.declared local ty (step unit.now.types e.now).initial (step unit.now.types e.now).held (step unit.now.types e.now).piece b.old) }
{
    b.writing.set(0, Action::Declare { local, ty })?;
    started(unit, e, ty, 0, &mut b.writing)?;
    hold(held(e), b)?;
    b.declare(local, ty)
}

/// Whether an initialiser is a reference's.
fn binds(e: &Core) -> bool
    ensures { result ≡ steps.binds e.now }
{
    matches!(e, Core::Bind { .. })
}

/// Writes that control reaches a static object, and its place into register 0: a reference's own, where its initialiser is one's (6.7, 8.4.3).
#[tactic(auto, unfolding(crate::specs::Bodies::reached))]
fn reached(x: &CoreStatic, w: &mut Writing) -> Result<(), Memory>
    ensures { OnOk result (w.new ≡ spec.reached x.now.name x.now.ty (steps.binds x.now.start) w.old) }
{
    let name = copied(w.alloc, &x.name)?;
    if binds(&x.start) {
        return w.set(0, Action::Reach { name });
    }
    w.act(Action::Reach { name })?;
    let name = copied(w.alloc, &x.name)?;
    w.set(0, Action::Static { name, ty: x.ty })
}

/// Writes what sets a static object, if it has an initialiser (6.7, 8.4).
#[tactic(auto, unfolding(crate::specs::Bodies::placed))]
pub fn placed(unit: &CoreUnit, x: &CoreStatic, w: &mut Writing) -> Result<(), Memory>
    requires known { are_known (tables_of unit.now) x.now.start ≡ true }
    requires typed { x.now.ty < length unit.now.types.types }
    ensures { OnOk result (w.new ≡ spec.placed x.now.name x.now.ty (steps.binds x.now.start) (step unit.now.types x.now.start).initial (step unit.now.types x.now.start).piece w.old) }
{
    if is_blank(&x.start) {
        return Ok(());
    }
    reached(x, w)?;
    started(unit, &x.start, x.ty, 0, w)?;
    let name = copied(w.alloc, &x.name)?;
    w.act(Action::FinishStatic { name })
}
