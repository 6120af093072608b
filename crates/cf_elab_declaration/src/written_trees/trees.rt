//! Values in initialisers, with lists in braces (8.4.1).

ghost use Rattle.std.specs.Prelude.{◌≡◌, IfOk, OnOk};
ghost use Rattle.cf_elab_env.specs.Answered.{AgreesAs};
ghost use Rattle.cf_elab_env.specs.Holds.{Grows};
ghost use Rattle.cf_elab_initial.specs.Lists.Known.{TreeKnown, TreesKnown};
ghost use Rattle.cf_elab_initial.specs.Lists.Seen.{tree_seen, trees_seen};
ghost use Rattle.cf_elab_declaration.specs.WrittenTrees.Shut as shut;

use crate::written_trees::built;
use crate::written_trees::expressions::expression_tree;
use cf_base::Items;
use cf_elab_env::{Env, Stop};
use cf_elab_initial::Tree;
use cf_unit::Init;

/// A value in an initialiser with its expressions elaborated, from left to right.
#[cycle(initialisers)]
#[tactic(auto, using(crate::proofs::WrittenTreesLaws::TreeLaws::tree_laws))]
pub fn tree_of(i: &Init, env: &mut Env) -> Result<Tree, Stop>
    requires { shut.IsBuilt i.now }
    ensures made { AgreesAs tree_seen (shut.tree_of i.now env.old) result env.new }
    ensures known { IfOk result (λ t. TreeKnown env.new.types (tree_seen t)) }
    ensures grows { OnOk result (Grows env.old.types env.new.types) }
{
    match i {
        Init::Value(at, e) => {
            built::value(*at, e);
            let tree = expression_tree(e.get(), *at, env)?;
            Ok(tree)
        }
        Init::List(at, all) => {
            built::list(*at, all);
            let trees = trees_of(all.as_slice(), env)?;
            Ok(Tree::Branch { at: *at, trees })
        }
    }
}

/// Values in braces, in order.
#[cycle(initialisers)]
fn trees_of(all: &[Init], env: &mut Env) -> Result<Items<Tree>, Stop>
    requires { shut.AreBuilt all.now }
    ensures made { AgreesAs trees_seen (shut.trees_of all.now env.old) result env.new }
    ensures known { IfOk result (λ ts. TreesKnown env.new.types (trees_seen ts)) }
    ensures grows { OnOk result (Grows env.old.types env.new.types) }
{
    let mut trees = Items::new(env.alloc());
    for i in all {
        trees.push(tree_of(i, env)?)?;
    }
    Ok(trees)
}
