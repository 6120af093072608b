//! Bodies that are passed over, since they are read late (9.3.2).

ghost use Rattle.std.specs.Prelude.{◌≡◌};
ghost use Rattle.cf_unit.specs.Bodies.{past_braces};
ghost use Rattle.cf_parse_class.specs.Parts.{Passes};

use cf_parse_expr::words::{LEFT_BRACE, RIGHT_BRACE};
use cf_parse_expr::{Cursor, Stop};

/// Goes past the partner of the first `{`.
pub fn pass_over(c: &mut Cursor<'_>) -> Result<(), Stop>
    ensures { Passes (past_braces 0 c.old) result c.new }
{
    let mut open = 0usize;
    for _turn in 0..c.len() {
        let word = c.front();
        c.skip();
        if word == LEFT_BRACE {
            open += 1;
        } else if word == RIGHT_BRACE {
            if open == 0 {
                return Err(Stop::Nothing);
            }
            open -= 1;
            if open == 0 {
                return Ok(());
            }
        }
    }
    Err(Stop::Nothing)
}
