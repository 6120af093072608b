//! Outlines of initialisers: their braces and their literals, which give the bound of an array before the expressions are elaborated (8.2.4).

ghost use Rattle.std.specs.Prelude.{◌≡◌, IfOk, map};
ghost use Rattle.cf_elab.specs.Lists as lists;
ghost use Rattle.cf_elab_initial.specs.Lists.Seen.{tree_seen, trees_seen};
ghost use Rattle.cf_elab_declaration.specs.WrittenTrees.Shut as shut;

use cf_base::{Boxed, Bytes, Items, Memory};
use cf_core::Core;
use cf_elab_env::Value;
use cf_elab_initial::Tree;
use cf_syntax::Expr;
use cf_types::TyId;
use cf_unit::{Init, Initialiser};
use std::alloc::Global;

/// The outline of an initialiser; arguments in brackets are as in braces.
#[tactic(auto, using(crate::proofs::WrittenTreesLaws::OutlineLaws::initialiser_laws))]
pub fn outline(i: &Initialiser, alloc: Global) -> Result<Tree, Memory>
    ensures { IfOk result (λ t. tree_seen t ≡ shut.outline i.now) }
{
    match i {
        Initialiser::Equals(_, i) => {
            let tree = outline_of(i.get(), alloc)?;
            Ok(tree)
        }
        Initialiser::Arguments(at, all) => {
            let trees = expression_outlines(all.as_slice(), *at, alloc)?;
            Ok(Tree::Branch { at: *at, trees })
        }
    }
}

/// That of a value in an initialiser.
#[cycle(outlines)]
#[tactic(auto, using(crate::proofs::WrittenTreesLaws::OutlineLaws::outline_laws))]
fn outline_of(i: &Init, alloc: Global) -> Result<Tree, Memory>
    ensures { IfOk result (λ t. tree_seen t ≡ shut.outline_of i.now) }
{
    match i {
        Init::Value(at, e) => {
            let tree = expression_outline(e.get(), *at, alloc)?;
            Ok(tree)
        }
        Init::List(at, all) => {
            let trees = outlines_of(all.as_slice(), alloc)?;
            Ok(Tree::Branch { at: *at, trees })
        }
    }
}

/// Those of values in braces, in order.
#[cycle(outlines)]
fn outlines_of(all: &[Init], alloc: Global) -> Result<Items<Tree>, Memory>
    ensures { IfOk result (λ ts. trees_seen ts ≡ map shut.outline_of all.now) }
{
    let mut trees = Items::new(alloc);
    for i in all {
        trees.push(outline_of(i, alloc)?)?;
    }
    Ok(trees)
}

/// Those of arguments in brackets at this byte place, in order.
fn expression_outlines(all: &[Expr], at: u32, alloc: Global) -> Result<Items<Tree>, Memory>
    ensures { IfOk result (λ ts. trees_seen ts ≡ map (shut.expression_outline at) all.now) }
{
    let mut trees = Items::new(alloc);
    for e in all {
        trees.push(expression_outline(e, at, alloc)?)?;
    }
    Ok(trees)
}

/// That of an expression at this byte place: a string literal alone, or a leaf that has no value yet.
#[tactic(auto, using(crate::proofs::WrittenTreesLaws::OutlineLaws::expression_laws))]
fn expression_outline(e: &Expr, at: u32, alloc: Global) -> Result<Tree, Memory>
    ensures { IfOk result (λ t. tree_seen t ≡ shut.expression_outline at e.now) }
{
    match e {
        Expr::Text(literal_at, bytes) => Ok(Tree::Text {
            at,
            literal_at: *literal_at,
            bytes: Bytes::from_slice(alloc, bytes.as_slice())?,
        }),
        _ => {
            let value = no_value(alloc, at)?;
            Ok(Tree::Leaf { at, value })
        }
    }
}

/// What stands for the value of an expression that is not elaborated yet.
fn no_value(alloc: Global, at: u32) -> Result<Value, Memory>
    ensures { IfOk result (λ v. v ≡ lists.no_value at) }
{
    let node = Boxed::new(alloc, Core::Blank { at })?;
    Ok(Value::computed(at, node, TyId::new(0)))
}
