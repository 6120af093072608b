//! Whether a declaration can begin.

ghost use Rattle.std.specs.Prelude.{◌≡◌, IfOk};
ghost use Rattle.cf_parse_decl.specs.Trial.{may_declare};

use crate::known::Known;
use cf_base::Memory;
use cf_parse_expr::specifiers::specifier;
use cf_parse_expr::words::begins;
use cf_parse_expr::{Cursor, Scopes, Stop};
use std::alloc::Global;

/// `class`, `struct` and `enum`.
const KEYS: [u16; 3] = [70, 99, 78];

/// Whether a specifier or a definition can stand here. Where none can, no declaration begins.
#[tactic(auto, unfolding(crate::specs::Trial::may_declare))]
pub fn may_declare(alloc: Global, known: &Known, c: &Cursor<'_>) -> Result<bool, Memory>
    ensures { IfOk result (λ may. may ≡ may_declare known.now.names c.now) }
{
    if begins(&KEYS, c) {
        return Ok(true);
    }
    let scopes = Scopes::new(alloc, &known.names);
    let mut ahead = Cursor::new(c.rest());
    match specifier(alloc, &scopes, &mut ahead, false) {
        Ok(_) => Ok(true),
        Err(Stop::Nothing) => Ok(false),
        Err(Stop::Memory) => Err(Memory),
    }
}
