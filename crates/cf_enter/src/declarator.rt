//! What a declarator declares (8.2.5).

ghost use Rattle.std.specs.Prelude.{◌≡◌, []};
ghost use Rattle.std.specs.Option.{option_copied};
ghost use Rattle.cf_unit.specs.Declares as spec;
ghost use Rattle.cf_enter.specs.Names.{named_as};

use cf_syntax::{DeclTree, Last, Name};

/// The declared name, if there is one.
#[tactic(auto, using(crate::proofs::Shapes::name_of_function))]
pub fn declared_name(tree: &DeclTree) -> Option<&Name>
    ensures { option_copied result ≡ (spec.shape tree.now).name }
{
    match tree {
        DeclTree::Unnamed => None,
        DeclTree::Declared(name) => Some(name),
        DeclTree::Pointed(_, d) => declared_name(d.get()),
        DeclTree::Bracketed(_, d) => declared_name(d.get()),
        DeclTree::Function(_, d, _, _) => declared_name(d.get()),
        DeclTree::Array(_, d, _) => declared_name(d.get()),
    }
}

/// Whether nothing but brackets stands round the name.
#[tactic(auto, using(crate::proofs::Shapes::bare_of_function))]
pub fn is_bare(tree: &DeclTree) -> bool
    ensures { result ≡ (spec.shape tree.now).is_bare }
{
    match tree {
        DeclTree::Unnamed => true,
        DeclTree::Declared(_) => true,
        DeclTree::Pointed(_, _) => false,
        DeclTree::Bracketed(_, d) => is_bare(d.get()),
        DeclTree::Function(_, _, _, _) => false,
        DeclTree::Array(_, _, _) => false,
    }
}

/// Whether parameters stand directly behind the name.
#[tactic(auto, using(crate::proofs::Shapes::params_of_function))]
pub fn has_params(tree: &DeclTree) -> bool
    ensures { result ≡ (spec.shape tree.now).has_params }
{
    match tree {
        DeclTree::Unnamed => false,
        DeclTree::Declared(_) => false,
        DeclTree::Pointed(_, d) => has_params(d.get()),
        DeclTree::Bracketed(_, d) => has_params(d.get()),
        DeclTree::Function(_, d, _, _) => is_bare(d.get()) || has_params(d.get()),
        DeclTree::Array(_, d, _) => has_params(d.get()),
    }
}

/// The identifier that is declared, if no class qualifies it.
pub fn plain_name(tree: &DeclTree) -> Option<&[u8]>
    ensures { named_as result (spec.plain_name (spec.shape tree.now).name) }
{
    let name = declared_name(tree)?;
    if name.from_file || !name.scopes.is_empty() {
        return None;
    }
    match &name.last {
        Last::Ident(bytes) => Some(bytes.as_slice()),
        _ => None,
    }
}
