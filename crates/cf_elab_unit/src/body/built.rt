//! The parts of a statement that is built are built. These functions do nothing: their contracts tell the caller.

ghost use Rattle.cf_elab_unit.specs.Body.Shut as shut;
ghost use Rattle.cf_elab_declaration.specs.Enums.ExprShut as expression;

use cf_base::Boxed;
use cf_syntax::Expr;
use cf_unit::Stmt;

#[tactic(auto, using(crate::proofs::BodyLaws::BuiltForms::if_condition, crate::proofs::BodyLaws::BuiltForms::if_yes, crate::proofs::BodyLaws::BuiltForms::if_no))]
pub(crate) fn conditional(_at: u32, _e: &Boxed<Expr>, _yes: &Boxed<Stmt>, _no: &Option<Boxed<Stmt>>)
    requires { shut.IsBuilt (Stmt.If _at _e.now _yes.now _no.now) }
    ensures condition { expression.IsBuilt _e.now }
    ensures yes { shut.IsBuilt _yes.now }
    ensures no { shut.MaybeBuilt _no.now }
{}

#[tactic(auto, using(crate::proofs::BodyLaws::BuiltForms::for_first, crate::proofs::BodyLaws::BuiltForms::for_condition, crate::proofs::BodyLaws::BuiltForms::for_step, crate::proofs::BodyLaws::BuiltForms::for_body))]
pub(crate) fn for_loop(
    _at: u32,
    _first: &Boxed<Stmt>,
    _e: &Option<Boxed<Expr>>,
    _step: &Option<Boxed<Expr>>,
    _body: &Boxed<Stmt>,
)
    requires { shut.IsBuilt (Stmt.For _at _first.now _e.now _step.now _body.now) }
    ensures first { shut.IsBuilt _first.now }
    ensures condition { shut.HasBuilt _e.now }
    ensures step { shut.HasBuilt _step.now }
    ensures body { shut.IsBuilt _body.now }
{}
