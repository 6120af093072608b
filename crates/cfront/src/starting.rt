ghost use Rattle.std.specs.Prelude.{◌≤◌};
ghost use Rattle.cfront.specs.Steps.{StartLeaves};

use crate::outcome::Outcome;
use crate::translating::Program;
use cc_whole_limits::passes_nodes;
use cc_whole_run::Limits;
use cf_base::{Bound, Limit};

/// The most that the frames of a run may take, in bytes.
const MOST_FRAMES: u64 = 1 << 23;

/// Whether a program may be run: it has fewer than 2^32 tree nodes, and the greatest bound of its functions' frames, once for each level of depth,
/// is at most 2^23 bytes. Too many nodes come first.
pub fn may_start(program: &Program, limits: Limits) -> Result<(), Outcome>
    requires { program.now.frame ≤ 65536 }
    ensures { StartLeaves program.now limits result }
{
    if passes_nodes(&program.program) {
        return Err(Outcome::Limit {
            file: None,
            limit: Limit {
                bound: Bound::Nodes,
                most: 4_294_967_295,
            },
        });
    }
    let product = program.frame * u64::from(limits.depth);
    if product > MOST_FRAMES {
        Err(Outcome::Frames { product })
    } else {
        Ok(())
    }
}
