//! What a declarator declares (8.2.5).

ghost use Rattle.std.specs.Prelude.{◌≡◌};
ghost use Rattle.std.specs.Option.{option_copied};
ghost use Rattle.cf_elab.specs.Expression.{declared};
ghost use Rattle.cf_elab.specs.Scan.{outline};

use cf_syntax::{DeclTree, Name};

/// The name that is declared, if there is one.
pub fn declared_name(tree: &DeclTree) -> Option<&Name>
    ensures outlined { option_copied result ≡ (outline tree.now).name }
    ensures declared { option_copied result ≡ (declared tree.now).name }
{
    match tree {
        DeclTree::Unnamed => None,
        DeclTree::Declared(name) => Some(name),
        DeclTree::Pointed(_, inner) => declared_name(inner.get()),
        DeclTree::Bracketed(_, inner) => declared_name(inner.get()),
        DeclTree::Function(_, inner, _, _) => declared_name(inner.get()),
        DeclTree::Array(_, inner, _) => declared_name(inner.get()),
    }
}

/// Whether nothing but brackets stands round the name.
pub fn is_bare(tree: &DeclTree) -> bool
    ensures { result ≡ (outline tree.now).is_bare }
{
    match tree {
        DeclTree::Unnamed => true,
        DeclTree::Declared(_) => true,
        DeclTree::Pointed(_, _) => false,
        DeclTree::Bracketed(_, inner) => is_bare(inner.get()),
        DeclTree::Function(_, _, _, _) => false,
        DeclTree::Array(_, _, _) => false,
    }
}

/// Whether the declarator is a function's: parameters stand directly behind the name.
pub fn is_function(tree: &DeclTree) -> bool
    ensures { result ≡ (outline tree.now).is_function }
{
    match tree {
        DeclTree::Unnamed => false,
        DeclTree::Declared(_) => false,
        DeclTree::Pointed(_, inner) => is_function(inner.get()),
        DeclTree::Bracketed(_, inner) => is_function(inner.get()),
        DeclTree::Function(_, inner, _, _) => is_function(inner.get()) || is_bare(inner.get()),
        DeclTree::Array(_, inner, _) => is_function(inner.get()),
    }
}
