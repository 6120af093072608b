//! The statements of constant initialisers.

ghost use Rattle.std.specs.Prelude.{◌≡◌, ◌++◌, OnOk};
ghost use Rattle.cf_lower.specs.Constants as definition;
ghost use Rattle.cf_lower_stmt.specs.Steps.{written};
ghost use Rattle.cf_lower_types.specs.Bare.{classes_of};
ghost use Rattle.cf_lower_constants.specs.Sites.{statement_at, statements_at, told_all};

use crate::acts::{decided, known_by};
use crate::registers::Knowns;
use crate::site::Site;
use crate::stores::done;
use cc_whole::CStatement;
use cf_base::{Items, Memory};
use cf_plain::Plain;

/// Writes the stores of statements in order, and tells what is known behind them.
#[cycle(constants)]
fn constants(
    x: &Site<'_>,
    all: &Items<Plain>,
    known: &mut Knowns,
    code: &mut Items<CStatement>,
) -> Result<(), Memory>
    ensures code { OnOk result (written code.new ≡ written code.old ++ definition.constant_code (classes_of x.now.tables.now) (statements_at x.now all.now) x.now.owner.now (told_all x.now known.old)) }
    ensures known { OnOk result (told_all x.now known.new ≡ definition.all_known_after (classes_of x.now.tables.now) (statements_at x.now all.now) x.now.owner.now (told_all x.now known.old)) }
{
    for s in all.as_slice() {
        constant(x, s, known, code)?;
    }
    Ok(())
}

/// Writes the stores of a statement, and tells what is known behind it. A branch is the statements that are taken, where that is known (5.14 to 5.16).
#[cycle(constants)]
fn constant(
    x: &Site<'_>,
    s: &Plain,
    known: &mut Knowns,
    code: &mut Items<CStatement>,
) -> Result<(), Memory>
    ensures code { OnOk result (written code.new ≡ written code.old ++ definition.constant_stores (classes_of x.now.tables.now) (statement_at x.now s.now) x.now.owner.now (told_all x.now known.old)) }
    ensures known { OnOk result (told_all x.now known.new ≡ definition.known_after (classes_of x.now.tables.now) (statement_at x.now s.now) x.now.owner.now (told_all x.now known.old)) }
{
    match s {
        Plain::Act { action } => {
            done(x, known, action, code)?;
            Ok(())
        }
        Plain::Set { register, action } => {
            let given = known_by(x, known, action)?;
            known.know(x.alloc, *register, given)?;
            Ok(())
        }
        Plain::If { register, yes, no } => {
            let truth = decided(x, known, *register)?;
            match truth {
                None => {
                    known.forget();
                    Ok(())
                }
                Some(taken) => {
                    if taken {
                        constants(x, yes, known, code)?;
                        return Ok(());
                    }
                    constants(x, no, known, code)?;
                    Ok(())
                }
            }
        }
        Plain::Loop { .. } => Ok(()),
        Plain::Switch { .. } => Ok(()),
        Plain::Case { .. } => Ok(()),
        Plain::Default => Ok(()),
        Plain::Break => Ok(()),
        Plain::Continue => Ok(()),
        Plain::Return { .. } => Ok(()),
        Plain::Parts { .. } => Ok(()),
    }
}

/// Writes the stores of an initialiser.
pub fn initialiser(
    x: &Site<'_>,
    all: &Items<Plain>,
    code: &mut Items<CStatement>,
) -> Result<(), Memory>
    ensures { OnOk result (written code.new ≡ written code.old ++ definition.constant_code (classes_of x.now.tables.now) (statements_at x.now all.now) x.now.owner.now definition.nothing_known) }
{
    let mut known = Knowns::new(x.alloc);
    constants(x, all, &mut known, code)?;
    Ok(())
}
