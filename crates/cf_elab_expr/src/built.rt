//! The parts of a form that is built are built. These functions do nothing: their contracts tell the caller.

ghost use Rattle.std.specs.Prelude.{◌≡◌, None, true};
ghost use Rattle.cf_syntax.specs.declared.declarator.Param.{out-Param};
ghost use Rattle.cf_syntax.specs.declared.declarator.TypeId.{out-TypeId};
ghost use Rattle.cf_elab.specs.Built.{of_path, of_specifiers};
ghost use Rattle.cf_elab_shape.specs.Shapes.Seen.{is_built as has_shape};
ghost use Rattle.cf_elab_expr.specs.Shut as shut;

use cf_base::{Boxed, Items};
use cf_syntax::{AssignOp, BasicType, BinaryOp, DeclTree, Expr, Param, Path, Pointer, TypeId};

#[tactic(auto, using(crate::proofs::BuiltForms::paren_inside))]
pub(crate) fn paren(_at: u32, _a: &Boxed<Expr>)
    requires { shut.IsBuilt (Expr.Paren _at _a.now) }
    ensures inside { shut.IsBuilt _a.now }
{}

#[tactic(auto, using(crate::proofs::BuiltForms::index_left, crate::proofs::BuiltForms::index_right))]
pub(crate) fn index(_at: u32, _a: &Boxed<Expr>, _b: &Boxed<Expr>)
    requires { shut.IsBuilt (Expr.Index _at _a.now _b.now) }
    ensures first { shut.IsBuilt _a.now }
    ensures second { shut.IsBuilt _b.now }
{}

#[tactic(auto, using(crate::proofs::BuiltForms::binary_left, crate::proofs::BuiltForms::binary_right))]
pub(crate) fn binary(_at: u32, _op: BinaryOp, _a: &Boxed<Expr>, _b: &Boxed<Expr>)
    requires { shut.IsBuilt (Expr.Binary _at _op _a.now _b.now) }
    ensures first { shut.IsBuilt _a.now }
    ensures second { shut.IsBuilt _b.now }
{}

#[tactic(auto, using(crate::proofs::BuiltForms::assign_left, crate::proofs::BuiltForms::assign_right))]
pub(crate) fn assign(_at: u32, _op: AssignOp, _a: &Boxed<Expr>, _b: &Boxed<Expr>)
    requires { shut.IsBuilt (Expr.Assign _at _op _a.now _b.now) }
    ensures first { shut.IsBuilt _a.now }
    ensures second { shut.IsBuilt _b.now }
{}

#[tactic(auto, using(crate::proofs::BuiltForms::conditional_first, crate::proofs::BuiltForms::conditional_second, crate::proofs::BuiltForms::conditional_third))]
pub(crate) fn conditional(_at: u32, _c: &Boxed<Expr>, _a: &Boxed<Expr>, _b: &Boxed<Expr>)
    requires { shut.IsBuilt (Expr.Conditional _at _c.now _a.now _b.now) }
    ensures first { shut.IsBuilt _c.now }
    ensures second { shut.IsBuilt _a.now }
    ensures third { shut.IsBuilt _b.now }
{}

#[tactic(auto, using(crate::proofs::BuiltForms::call_called, crate::proofs::BuiltForms::call_arguments))]
pub(crate) fn call(_at: u32, _called: &Boxed<Expr>, _arguments: &Items<Expr>)
    requires { shut.IsBuilt (Expr.Call _at _called.now _arguments.now) }
    ensures called { shut.IsBuilt _called.now }
    ensures arguments { shut.AreBuilt _arguments.now }
{}

#[tactic(auto, using(crate::proofs::BuiltForms::comma_inside))]
pub(crate) fn comma(_at: u32, _all: &Items<Expr>)
    requires { shut.IsBuilt (Expr.Comma _at _all.now) }
    ensures { shut.AreBuilt _all.now }
{}

#[tactic(auto, using(crate::proofs::BuiltForms::basic_arguments))]
pub(crate) fn basic(_at: u32, _basic: BasicType, _arguments: &Items<Expr>)
    requires { shut.IsBuilt (Expr.BasicCall _at _basic _arguments.now) }
    ensures { shut.AreBuilt _arguments.now }
{}

#[tactic(auto, using(crate::proofs::BuiltForms::typed_path, crate::proofs::BuiltForms::typed_arguments))]
pub(crate) fn typed(_at: u32, _path: &Path, _arguments: &Items<Expr>)
    requires { shut.IsBuilt (Expr.TypeCall _at _path.now _arguments.now) }
    ensures path { of_path _path.now ≡ None }
    ensures arguments { shut.AreBuilt _arguments.now }
{}

#[tactic(auto, using(crate::proofs::BuiltForms::cast_type, crate::proofs::BuiltForms::cast_value))]
pub(crate) fn cast(_at: u32, _ty: &Boxed<TypeId>, _a: &Boxed<Expr>)
    requires { shut.IsBuilt (Expr.Cast _at _ty.now _a.now) }
    ensures ty { shut.TypeIsBuilt _ty.now }
    ensures value { shut.IsBuilt _a.now }
{}

// ---- declarators

#[tactic(auto, using(crate::proofs::BuiltTrees::pointed_by, crate::proofs::BuiltTrees::pointed_inside))]
pub(crate) fn pointed(_pointer: &Pointer, _inside: &Boxed<DeclTree>)
    requires { shut.TreeIsBuilt (DeclTree.Pointed _pointer.now _inside.now) }
    ensures pointer { has_shape _pointer.now ≡ true }
    ensures inside { shut.TreeIsBuilt _inside.now }
{}

#[tactic(auto, using(crate::proofs::BuiltTrees::bracketed_inside))]
pub(crate) fn bracketed(_at: u32, _inside: &Boxed<DeclTree>)
    requires { shut.TreeIsBuilt (DeclTree.Bracketed _at _inside.now) }
    ensures { shut.TreeIsBuilt _inside.now }
{}

#[tactic(auto, using(crate::proofs::BuiltTrees::function_inside, crate::proofs::BuiltTrees::function_parameters))]
pub(crate) fn function(_at: u32, _inside: &Boxed<DeclTree>, _all: &Items<Param>, _is_const: bool)
    requires { shut.TreeIsBuilt (DeclTree.Function _at _inside.now _all.now _is_const) }
    ensures inside { shut.TreeIsBuilt _inside.now }
    ensures parameters { shut.ParametersAreBuilt _all.now }
{}

#[tactic(auto, using(crate::proofs::BuiltTrees::array_inside, crate::proofs::BuiltTrees::array_bound))]
pub(crate) fn array(_at: u32, _inside: &Boxed<DeclTree>, _bound: &Option<Boxed<Expr>>)
    requires { shut.TreeIsBuilt (DeclTree.Array _at _inside.now _bound.now) }
    ensures inside { shut.TreeIsBuilt _inside.now }
    ensures bound { shut.BoundIsBuilt _bound.now }
{}

#[tactic(auto, using(crate::proofs::BuiltTrees::parameter_parts))]
pub(crate) fn parameter_parts(_p: &Param)
    requires { shut.ParameterIsBuilt _p.now }
    ensures specifiers { of_specifiers (out-Param _p.now).specifiers ≡ None }
    ensures tree { shut.TreeIsBuilt (out-Param _p.now).declarator }
{}

#[tactic(auto, using(crate::proofs::BuiltTrees::type_parts))]
pub(crate) fn type_parts(_t: &TypeId)
    requires { shut.TypeIsBuilt _t.now }
    ensures specifiers { of_specifiers (out-TypeId _t.now).specifiers ≡ None }
    ensures tree { shut.TreeIsBuilt (out-TypeId _t.now).declarator }
{}
