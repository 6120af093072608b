//! Names in trees: where the place of a call is, and what a declarator declares.

ghost use Rattle.std.specs.Prelude.{◌≡◌, None, IfOk};
ghost use Rattle.std.specs.Option.{option_copied};
ghost use Rattle.cf_elab.specs.Built.{of_name};
ghost use Rattle.cf_elab.specs.Expression as expression;
ghost use Rattle.cf_elab_expr.specs.Shut as shut;

use crate::built;
use cf_base::{Bytes, Items, Memory};
use cf_syntax::{DeclTree, Expr, Last, Name};
use std::alloc::Global;

/// The byte place of a call: the last name of what is called, or else the bracket (5.2.2).
pub(crate) fn call_place(at: u32, called: &Expr) -> u32
    ensures { result ≡ expression.call_place at (shut.last_name called.now) }
{
    match last_name(called) {
        Some(name) => name,
        None => at,
    }
}

/// The byte place of the last name of an expression, if there is one.
#[tactic(auto, using(crate::proofs::LastNames::last_laws))]
fn last_name(e: &Expr) -> Option<u32>
    ensures { result ≡ shut.last_name e.now }
{
    match e {
        Expr::Named(name) => Some(name.last_at),
        Expr::Paren(_, inside) => last_name(inside.get()),
        Expr::Dot(_, _, name) => Some(name.last_at),
        Expr::Arrow(_, _, name) => Some(name.last_at),
        Expr::Int(_, _, _)
        | Expr::Char(_, _)
        | Expr::Text(_, _)
        | Expr::This(_)
        | Expr::BasicCall(_, _, _)
        | Expr::TypeCall(_, _, _)
        | Expr::Index(_, _, _)
        | Expr::Call(_, _, _)
        | Expr::StepAfter(_, _, _)
        | Expr::StepBefore(_, _, _)
        | Expr::Prefix(_, _, _)
        | Expr::SizeofExpr(_, _)
        | Expr::SizeofType(_, _)
        | Expr::Delete(_, _, _, _)
        | Expr::New(_, _, _, _, _, _, _)
        | Expr::NewBracketed(_, _, _, _, _)
        | Expr::Cast(_, _, _)
        | Expr::Binary(_, _, _, _)
        | Expr::Conditional(_, _, _, _)
        | Expr::Assign(_, _, _, _)
        | Expr::Comma(_, _) => None,
    }
}

/// The name that a declarator declares, if it has one (8). In one that is built it is an identifier.
#[tactic(auto, using(crate::proofs::Trees::name_laws))]
pub fn declared_name(d: &DeclTree) -> Option<&Name>
    ensures { option_copied result ≡ shut.name_of d.now }
{
    match d {
        DeclTree::Unnamed => None,
        DeclTree::Declared(name) => Some(name),
        DeclTree::Pointed(_, inside)
        | DeclTree::Bracketed(_, inside)
        | DeclTree::Function(_, inside, _, _)
        | DeclTree::Array(_, inside, _) => declared_name(inside.get()),
    }
}

/// A copy of the name that a declarator declares, if it has one (8).
#[tactic(auto, using(crate::proofs::Trees::name_laws, crate::proofs::BuiltTrees::declared_name))]
pub(crate) fn copied_name(d: &DeclTree, alloc: Global) -> Result<Option<Name>, Memory>
    requires { shut.TreeIsBuilt d.now }
    ensures { IfOk result (λ name. name ≡ shut.name_of d.now) }
{
    match d {
        DeclTree::Unnamed => Ok(None),
        DeclTree::Declared(name) => {
            let name = copied(alloc, name)?;
            Ok(Some(name))
        }
        DeclTree::Pointed(pointer, inside) => {
            built::pointed(pointer, inside);
            let name = copied_name(inside.get(), alloc)?;
            Ok(name)
        }
        DeclTree::Bracketed(at, inside) => {
            built::bracketed(*at, inside);
            let name = copied_name(inside.get(), alloc)?;
            Ok(name)
        }
        DeclTree::Function(at, inside, all, is_const) => {
            built::function(*at, inside, all, *is_const);
            let name = copied_name(inside.get(), alloc)?;
            Ok(name)
        }
        DeclTree::Array(at, inside, bound) => {
            built::array(*at, inside, bound);
            let name = copied_name(inside.get(), alloc)?;
            Ok(name)
        }
    }
}

/// A copy of a name that is an identifier.
#[tactic(auto, using(crate::proofs::Identifiers::name_laws))]
fn copied(alloc: Global, name: &Name) -> Result<Name, Memory>
    requires { of_name name.now ≡ None }
    ensures { IfOk result (λ made. made ≡ name.now) }
{
    match &name.last {
        Last::Ident(bytes) => {
            let bytes = Bytes::from_slice(alloc, bytes.as_slice())?;
            Ok(Name {
                at: name.at,
                from_file: false,
                scopes: Items::new(alloc),
                last_at: name.last_at,
                last: Last::Ident(bytes),
            })
        }
        Last::Destructor(_) | Last::Operator(_) | Last::Conversion(_, _) => unreachable!(),
    }
}
