//! The statements of initialisers.

ghost use Rattle.std.specs.Prelude.{◌≡◌, [], IfOk, OnOk};
ghost use Rattle.cf_lower.specs.Constants as definition;
ghost use Rattle.cf_lower_constants.specs.Sites.{statement_at, statements_at, told_all};
ghost use Rattle.cf_lower_program.specs.Starts as starts;

use crate::acts::{act_known, set};
use crate::values::both;
use cf_base::{Items, Memory};
use cf_lower_constants::{Knowns, Site, decided};
use cf_plain::Plain;

/// Whether all that statements do is known, and what is known behind them.
#[cycle(statements)]
fn statements_known(x: &Site<'_>, all: &Items<Plain>, known: &mut Knowns) -> Result<bool, Memory>
    ensures known { IfOk result (λ are. are ≡ starts.starts_known (statements_at x.now all.now) x.now.owner.now (told_all x.now known.old)) }
    ensures behind { OnOk result (told_all x.now known.new ≡ definition.all_known_after [] (statements_at x.now all.now) x.now.owner.now (told_all x.now known.old)) }
{
    let mut so_far = true;
    for statement in all.as_slice() {
        let is = statement_known(x, statement, known)?;
        let joined = both(so_far, is);
        so_far = joined;
    }
    Ok(so_far)
}

/// Whether all that a statement does is known, and what is known behind it. A branch is the statements that are taken, where that is known (5.14 to 5.16).
#[cycle(statements)]
fn statement_known(x: &Site<'_>, statement: &Plain, known: &mut Knowns) -> Result<bool, Memory>
    ensures known { IfOk result (λ is. is ≡ starts.start_known (statement_at x.now statement.now) x.now.owner.now (told_all x.now known.old)) }
    ensures behind { OnOk result (told_all x.now known.new ≡ definition.known_after [] (statement_at x.now statement.now) x.now.owner.now (told_all x.now known.old)) }
{
    match statement {
        Plain::Act { action } => {
            let is = act_known(x, known, action)?;
            Ok(is)
        }
        Plain::Set { register, action } => {
            let is = set(x, *register, action, known)?;
            Ok(is)
        }
        Plain::If { register, yes, no } => {
            let truth = decided(x, known, *register)?;
            match truth {
                None => {
                    known.forget();
                    Ok(false)
                }
                Some(taken) => {
                    if taken {
                        let are = statements_known(x, yes, known)?;
                        return Ok(are);
                    }
                    let are = statements_known(x, no, known)?;
                    Ok(are)
                }
            }
        }
        Plain::Loop { .. } => Ok(false),
        Plain::Switch { .. } => Ok(false),
        Plain::Case { .. } => Ok(false),
        Plain::Default => Ok(false),
        Plain::Break => Ok(false),
        Plain::Continue => Ok(false),
        Plain::Return { .. } => Ok(false),
        Plain::Parts { .. } => Ok(false),
    }
}

/// Whether all that the statements of an initialiser do is known before the run.
pub(crate) fn initialiser_known(x: &Site<'_>, all: &Items<Plain>) -> Result<bool, Memory>
    ensures { IfOk result (λ are. are ≡ starts.starts_known (statements_at x.now all.now) x.now.owner.now definition.nothing_known) }
{
    let mut known = Knowns::new(x.alloc);
    let are = statements_known(x, all, &mut known)?;
    Ok(are)
}
