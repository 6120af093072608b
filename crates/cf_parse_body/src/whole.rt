//! Bodies as the rules of the grammar read them.

ghost use Rattle.cf_parse_body.specs.Bodies.{GivesBody, ReadsBody};
ghost use Rattle.cf_parse_decl.specs.Nests.{Nests};
ghost use Rattle.cf_unit.specs.Bodies as rule;
ghost use Rattle.cf_unit.specs.Declares.{shape};
ghost use Rattle.cf_unit.specs.Files.{inner, by_tree};
ghost use Rattle.cf_unit.specs.Read.{reading};

use crate::bodies::{Body, body_read, body_read_by};
use cf_parse_decl::{Grammar, Known, Node, Wanted};
use cf_parse_expr::{Cursor, Stop};
use cf_syntax::{DeclTree, TypeNames};
use std::alloc::Global;

/// The initialisers and the block of a function (8.3), where these names are known, and what is known behind it.
pub fn body<F: Fn(Global, usize, Wanted, &mut Known, &mut Cursor<'_>) -> Result<Node, Stop>>(
    grammar: &Grammar<F>,
    names: TypeNames,
    c: &mut Cursor<'_>,
) -> Result<(Body, Known), Stop>
    requires { Nests grammar.now.depth (F.pre grammar.now.inside) (F.post grammar.now.inside) }
    ensures { ReadsBody (reading (rule.body (inner by_tree grammar.now.depth) names) c.old) result c.new }
{
    body_read(grammar, names, c)
}

/// What stands behind the declarator of a function, in a declaration that stands in the last of so many open scopes, in the way in which
/// bodies are read (9.3.2). The scopes are as before the declaration behind it.
pub fn body_by<F: Fn(Global, usize, Wanted, &mut Known, &mut Cursor<'_>) -> Result<Node, Stop>>(
    grammar: &Grammar<F>,
    home: usize,
    tree: &DeclTree,
    known: &mut Known,
    c: &mut Cursor<'_>,
) -> Result<Body, Stop>
    requires { Nests grammar.now.depth (F.pre grammar.now.inside) (F.post grammar.now.inside) }
    ensures { GivesBody (reading (rule.body_by (inner by_tree grammar.now.depth) known.old.bodies home (shape tree.now) known.old) c.old) result known.new c.new }
{
    body_read_by(grammar, home, tree, known, c)
}
