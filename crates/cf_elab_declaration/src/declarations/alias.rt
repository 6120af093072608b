//! The name that an enumeration without one takes of the `typedef` that it stands in (7.2).

ghost use Rattle.std.specs.Prelude.{◌≡◌};
ghost use Rattle.std.specs.Option.{option_copied};
ghost use Rattle.cf_elab.specs.Trees as tree;
ghost use Rattle.cf_elab_declaration.specs.Declarations.Shut as shut;

use crate::enums::declared_name;
use cf_base::Bytes;
use cf_syntax::{Last, Name, Storage, TypeSpecifier};
use cf_unit::{InitDeclarator, Specifier};

/// The first name of a declaration, where it is a `typedef`.
#[tactic(auto, using(crate::proofs::DeclarationsLaws::AliasLaws::alias_laws))]
pub(crate) fn alias<'a>(
    specifiers: &[Specifier],
    declarators: &'a [InitDeclarator],
) -> Option<&'a Bytes>
    ensures { option_copied result ≡ shut.alias specifiers.now declarators.now }
{
    if is_typedef(specifiers) {
        first_name(declarators)
    } else {
        None
    }
}

/// Whether `typedef` stands among the specifiers.
fn is_typedef(specifiers: &[Specifier]) -> bool
    ensures { result ≡ shut.is_typedef specifiers.now }
{
    specifiers.iter().any(|specifier| says_typedef(specifier))
}

#[tactic(auto, using(crate::proofs::DeclarationsLaws::AliasLaws::word_laws))]
fn says_typedef(specifier: &Specifier) -> bool
    ensures { result ≡ shut.says_typedef specifier.now }
{
    match specifier {
        Specifier::Plain(plain) => is_typedef_word(plain),
        Specifier::Class(_) | Specifier::Enumeration(_) => false,
    }
}

fn is_typedef_word(specifier: &TypeSpecifier) -> bool
    ensures { result ≡ tree.is_typedef_word specifier.now }
{
    matches!(specifier, TypeSpecifier::Storage(_, Storage::Typedef))
}

/// The name that the first declarator declares, if it is an identifier.
#[tactic(auto, using(crate::proofs::DeclarationsLaws::AliasLaws::first_laws))]
fn first_name(declarators: &[InitDeclarator]) -> Option<&Bytes>
    ensures { option_copied result ≡ shut.first_name declarators.now }
{
    match declarators.first() {
        None => None,
        Some(first) => identifier(declared_name(first.declarator.get())),
    }
}

fn identifier(name: Option<&Name>) -> Option<&Bytes>
    ensures { option_copied result ≡ shut.ident_of (option_copied name.entry) }
{
    match name {
        None => None,
        Some(name) => match &name.last {
            Last::Ident(bytes) => Some(bytes),
            _ => None,
        },
    }
}
