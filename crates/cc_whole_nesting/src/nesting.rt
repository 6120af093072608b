ghost use Rattle.std.specs.Prelude.{◌≡◌, IfOk};
ghost use Rattle.cc_whole_nesting.specs.Nesting as spec;

use crate::kind::{begins_else, kind_of};
use crate::levels::Levels;
use cc_whole_tokens::Token;
use cf_base::Memory;
use std::alloc::Global;

/// Whether the nesting at some of these tokens, which stand behind a first line, passes the limit.
#[tactic(auto, unfolding(crate::specs::Nesting::passes))]
pub fn is_too_deep(alloc: Global, tokens: &[Token]) -> Result<bool, Memory>
    ensures { IfOk result (λ deep. deep ≡ spec.passes tokens.now) }
{
    let mut levels = Levels::new(alloc);
    let mut rest = tokens;
    while let [token, behind @ ..] = rest {
        levels.take(kind_of(token), begins_else(behind))?;
        if levels.exceeds() {
            return Ok(true);
        }
        rest = behind;
    }
    Ok(false)
}
