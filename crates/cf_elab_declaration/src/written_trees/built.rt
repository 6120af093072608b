//! The parts of a form that is built are built. These functions do nothing: their contracts tell the caller.

ghost use Rattle.cf_elab_expr.specs.Shut as expression;
ghost use Rattle.cf_elab_declaration.specs.WrittenTrees.Shut as shut;

use cf_base::{Boxed, Items};
use cf_syntax::Expr;
use cf_unit::Init;

#[tactic(auto, using(crate::proofs::WrittenTreesLaws::BuiltParts::value_inside))]
pub(crate) fn value(_at: u32, _e: &Boxed<Expr>)
    requires { shut.IsBuilt (Init.Value _at _e.now) }
    ensures { expression.IsBuilt _e.now }
{}

#[tactic(auto, using(crate::proofs::WrittenTreesLaws::BuiltParts::list_inside))]
pub(crate) fn list(_at: u32, _all: &Items<Init>)
    requires { shut.IsBuilt (Init.List _at _all.now) }
    ensures { shut.AreBuilt _all.now }
{}
