//! The recursion: what stands inside a production is read by the rules, one depth further in.

ghost use Rattle.cf_syntax.specs.Reading.{readers};
ghost use Rattle.cf_parse_expr.specs.Reads.{Reads};
ghost use Rattle.cf_parse_expr.specs.Nests.{Nests};
ghost use Rattle.cf_parse_expr.specs.Inner.{inner};
ghost use Rattle.cf_parse_expr.specs.Nodes.{node_at};

use crate::cursor::Cursor;
use crate::grammar::{Grammar, Node, Wanted};
use crate::scopes::Scopes;
use crate::stop::Stop;
use std::alloc::Global;

impl<F: Fn(Global, usize, Wanted, &Scopes<'_>, &mut Cursor<'_>) -> Result<Node, Stop>> Grammar<F> {
    /// What is wanted, by its rule.
    fn node(&self, names: &Scopes<'_>, c: &mut Cursor<'_>, wanted: Wanted) -> Result<Node, Stop>
        requires { Nests self.now.depth (F.pre self.now.inside) (F.post self.now.inside) }
        ensures { Reads (node_at (readers self.now.depth) wanted names.now c.old) result c.new }
    {
        match wanted {
            Wanted::Commas => Ok(Node::Expr(self.commas(names, c)?)),
            Wanted::Assign => Ok(Node::Expr(self.assign(names, c)?)),
            Wanted::Condition => Ok(Node::Expr(self.condition(names, c)?)),
            Wanted::Cast => Ok(Node::Expr(self.cast(names, c)?)),
            Wanted::Unary => Ok(Node::Expr(self.unary(names, c)?)),
            Wanted::TypeId => Ok(Node::TypeId(self.type_inside(names, c)?)),
            Wanted::Params => Ok(Node::Params(self.params(names, c)?)),
            Wanted::Declarator(kind) => {
                let (d, classes) = self.declarator(names, c, kind)?;
                Ok(Node::Declarator(d, classes))
            }
        }
    }
}

/// What is wanted, where phrases stand inside one another to this depth at most.
pub fn inside(
    alloc: Global,
    depth: usize,
    wanted: Wanted,
    names: &Scopes<'_>,
    c: &mut Cursor<'_>,
) -> Result<Node, Stop>
    ensures { Reads (inner (readers depth) wanted names.now c.old) result c.new }
{
    if depth == 0 {
        return Err(Stop::Nothing);
    }
    Grammar {
        alloc,
        depth: depth - 1,
        inside,
    }
    .node(names, c, wanted)
}
