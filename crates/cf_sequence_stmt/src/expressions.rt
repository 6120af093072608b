//! Full expressions (12.2).

ghost use Rattle.std.specs.Prelude.{◌≡◌, true, IfOk, OnOk};
ghost use Rattle.cf_core.specs.FromUnit.{tables_of};
ghost use Rattle.cf_core.specs.Numbers.{are_known};
ghost use Rattle.cf_sequence_expr.specs.Pieces.{found_in};
ghost use Rattle.cf_sequence_expr.specs.declared.writing.Writing.{Writing};
ghost use Rattle.cf_sequence_stmt.specs.Bodies as spec;
ghost use Rattle.cf_sequence_stmt.specs.Steps.{step};

use crate::body::Body;
use cf_base::{Items, Memory};
use cf_core::{Core, CoreUnit};
use cf_plain::{Action, Plain};
use cf_sequence_expr::{Full, Temporary, Writing, beyond, temporaries_of, value, width};

/// A full expression whose value is in a register, and its temporaries.
#[derive(Drop)]
pub struct Entered {
    pub full: Full,
    pub register: u32,
    pub made: Items<Temporary>,
}

/// Writes that the flag of a temporary in a branch is 0 (12.2).
#[tactic(auto, unfolding(crate::specs::Bodies::cleared_one))]
fn clear_one(full: Full, x: Temporary, w: &mut Writing) -> Result<(), Memory>
    ensures { OnOk result (w.new ≡ spec.cleared_one full x w.old) }
{
    if !x.in_branch {
        return Ok(());
    }
    let flag = full.flag(x.local)?;
    w.set(flag, Action::Number { value: 0 })
}

/// Writes the flags of temporaries in branches, before their full expression.
fn clear(full: Full, made: &[Temporary], w: &mut Writing) -> Result<(), Memory>
    ensures { OnOk result (w.new ≡ spec.cleared full made.now w.old) }
{
    for x in made {
        clear_one(full, *x, w)?;
    }
    Ok(())
}

/// Writes the end of a temporary: one in a branch ends where its flag is not 0 (12.2).
#[tactic(auto, unfolding(crate::specs::Bodies::over_one))]
fn end_one(full: Full, x: Temporary, w: &mut Writing) -> Result<(), Memory>
    ensures { OnOk result (w.new ≡ spec.over_one full x w.old) }
{
    let finish = Action::Finish {
        ty: x.ty,
        local: x.local,
    };
    if !x.in_branch {
        return w.act(finish);
    }
    let register = full.flag(x.local)?;
    let mut yes = Items::new(w.alloc);
    yes.push(Plain::Act { action: finish })?;
    let no = Items::new(w.alloc);
    w.put(Plain::If { register, yes, no })
}

/// Writes the ends of temporaries behind their full expression, the newest first.
pub fn end_all(full: Full, made: &[Temporary], w: &mut Writing) -> Result<(), Memory>
    ensures { OnOk result (w.new ≡ spec.over full made.now w.old) }
{
    match made.split_first() {
        None => Ok(()),
        Some((oldest, newer)) => {
            end_all(full, newer, w)?;
            end_one(full, *oldest, w)
        }
    }
}

/// Writes the value of a full expression whose flags are the registers from this one on.
#[tactic(auto, unfolding(crate::specs::Bodies::entered), using(crate::proofs::Pieces::same_piece))]
pub fn enter(unit: &CoreUnit, e: &Core, base: u32, w: &mut Writing) -> Result<Entered, Memory>
    requires { are_known (tables_of unit.now) e.now ≡ true }
    ensures written { OnOk result (w.new ≡ spec.entered base (step unit.now.types e.now).piece w.old) }
    ensures full { IfOk result (λ v. v.full ≡ spec.full_at base w.old) }
    ensures register { IfOk result (λ v. v.register ≡ spec.behind_flags base (step unit.now.types e.now).piece) }
    ensures made { IfOk result (λ v. v.made ≡ found_in (step unit.now.types e.now).piece (Writing.next w.old)) }
{
    let full = Full {
        first: w.next,
        base,
    };
    let register = beyond(base, width(w.alloc, unit, e)?)?;
    let made = temporaries_of(w.alloc, unit, e, w.next)?;
    clear(full, made.as_slice(), w)?;
    value(unit, e, full, register, w)?;
    Ok(Entered {
        full,
        register,
        made,
    })
}

/// Writes an expression by itself (6.2).
#[tactic(auto, unfolding(crate::specs::Bodies::full, crate::specs::Bodies::left_behind))]
pub fn full(unit: &CoreUnit, e: &Core, b: &mut Body) -> Result<(), Memory>
    requires { are_known (tables_of unit.now) e.now ≡ true }
    ensures { OnOk result (b.new ≡ spec.full (step unit.now.types e.now).piece b.old) }
{
    let entered = enter(unit, e, 0, &mut b.writing)?;
    end_all(entered.full, entered.made.as_slice(), &mut b.writing)
}

/// Writes the value of an expression that is used, and gives its register.
#[tactic(auto, unfolding(crate::specs::Bodies::given, crate::specs::Bodies::left_behind))]
pub fn given(unit: &CoreUnit, e: &Core, b: &mut Body) -> Result<u32, Memory>
    requires { are_known (tables_of unit.now) e.now ≡ true }
    ensures written { OnOk result (b.new ≡ spec.given (step unit.now.types e.now).piece b.old) }
    ensures register { IfOk result (λ n. n ≡ spec.behind_flags 0 (step unit.now.types e.now).piece) }
{
    let entered = enter(unit, e, 0, &mut b.writing)?;
    b.writing.used(entered.register)?;
    end_all(entered.full, entered.made.as_slice(), &mut b.writing)?;
    Ok(entered.register)
}

/// Writes a condition, and gives the register with 1 or 0.
#[tactic(auto, unfolding(crate::specs::Bodies::tested, crate::specs::Bodies::left_behind))]
pub fn tested(unit: &CoreUnit, e: &Core, b: &mut Body) -> Result<u32, Memory>
    requires { are_known (tables_of unit.now) e.now ≡ true }
    ensures written { OnOk result (b.new ≡ spec.tested (step unit.now.types e.now).piece b.old) }
    ensures register { IfOk result (λ n. n ≡ spec.behind_flags 0 (step unit.now.types e.now).piece) }
{
    let entered = enter(unit, e, 0, &mut b.writing)?;
    b.writing.set(
        entered.register,
        Action::Truth {
            operand: entered.register,
        },
    )?;
    end_all(entered.full, entered.made.as_slice(), &mut b.writing)?;
    Ok(entered.register)
}
