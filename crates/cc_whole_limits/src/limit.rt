ghost use Rattle.std.specs.Prelude.{◌≡◌, nat_lt};
ghost use Rattle.cc_whole.specs.Plain.{items_of};
ghost use Rattle.cc_whole_limits.specs.Nodes.{nodes_of};
ghost use Rattle.cc_whole_limits.specs.StartLimit as spec;

use crate::frames::greatest_frame;
use crate::nodes::nodes;
use cc_whole::CProgram;

/// Why a program is not run.
#[derive(Clone, Copy, Debug, PartialEq, Eq)]
pub enum StartLimit {
    /// It has 2^32 tree nodes or more.
    Nodes,
    /// The greatest frame of its functions, times the depth, is this, which is more than 2^23; or the greatest number where it is greater.
    Frames { product: u64 },
}

/// Whether so many nodes, and a greatest frame at this depth, may run.
fn allows(count: u64, frame: u64, depth: u32) -> Result<(), StartLimit>
    ensures { result ≡ spec.allows count frame depth }
{
    if count > 4_294_967_295 {
        return Err(StartLimit::Nodes);
    }
    let product = frame.saturating_mul(u64::from(depth));
    if product > 8_388_608 {
        Err(StartLimit::Frames { product })
    } else {
        Ok(())
    }
}

/// Whether a program has 2^32 tree nodes or more.
pub fn passes_nodes(program: &CProgram) -> bool
    ensures { result ≡ nat_lt spec.most_nodes (nodes_of (items_of program.now.items)) }
{
    nodes(program.items.as_slice()) > 4_294_967_295
}

/// Whether a program may run at a depth: it has fewer than 2^32 nodes, and the greatest frame of its functions times the depth is at
/// most 2^23. Too many nodes come first.
pub fn may_start(program: &CProgram, depth: u32) -> Result<(), StartLimit>
    ensures { result ≡ spec.may_start (items_of program.now.items) depth }
{
    let items = program.items.as_slice();
    allows(nodes(items), greatest_frame(items), depth)
}
