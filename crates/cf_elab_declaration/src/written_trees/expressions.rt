//! Expressions that initialise something.

ghost use Rattle.std.specs.Prelude.{◌≡◌, IfOk, OnOk};
ghost use Rattle.cf_elab_env.specs.Answered.{AgreesAs};
ghost use Rattle.cf_elab_env.specs.Holds.{Grows};
ghost use Rattle.cf_elab_expr.specs.Shut as expression;
ghost use Rattle.cf_elab_initial.specs.Lists.Known.{TreeKnown, TreesKnown};
ghost use Rattle.cf_elab_initial.specs.Lists.Seen.{tree_seen, trees_seen};
ghost use Rattle.cf_elab_declaration.specs.WrittenTrees.Shut as shut;

use cf_base::{Bytes, Items};
use cf_elab_env::{Env, Stop};
use cf_elab_expr::evaluated;
use cf_elab_initial::Tree;
use cf_syntax::Expr;

/// An expression at this byte place of its initialiser. A string literal alone waits, since it may initialise an array (8.4.2).
#[tactic(auto, using(crate::proofs::WrittenTreesLaws::TextLaws::text_laws))]
pub(crate) fn expression_tree(e: &Expr, at: u32, env: &mut Env) -> Result<Tree, Stop>
    requires { expression.IsBuilt e.now }
    ensures made { AgreesAs tree_seen (shut.expression_tree at e.now env.old) result env.new }
    ensures known { IfOk result (λ t. TreeKnown env.new.types (tree_seen t)) }
    ensures grows { OnOk result (Grows env.old.types env.new.types) }
{
    match e {
        Expr::Text(literal_at, bytes) => Ok(Tree::Text {
            at,
            literal_at: *literal_at,
            bytes: Bytes::from_slice(env.alloc(), bytes.as_slice())?,
        }),
        _ => {
            let value = evaluated(e, env)?;
            Ok(Tree::Leaf { at, value })
        }
    }
}

/// Arguments in brackets at this byte place, in order.
pub(crate) fn expression_trees(all: &[Expr], at: u32, env: &mut Env) -> Result<Items<Tree>, Stop>
    requires { expression.AreBuilt all.now }
    ensures made { AgreesAs trees_seen (shut.expression_trees at all.now env.old) result env.new }
    ensures known { IfOk result (λ ts. TreesKnown env.new.types (trees_seen ts)) }
    ensures grows { OnOk result (Grows env.old.types env.new.types) }
{
    let mut trees = Items::new(env.alloc());
    for e in all {
        trees.push(expression_tree(e, at, env)?)?;
    }
    Ok(trees)
}
