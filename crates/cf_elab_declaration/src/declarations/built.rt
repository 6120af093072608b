//! The parts of a form that is built are built. These functions do nothing: their contracts tell the caller.

ghost use Rattle.cf_unit.specs.declared.declaration.Declaration.{out-Declaration};
ghost use Rattle.cf_elab_declaration.specs.Declarations.Shut as shut;
ghost use Rattle.cf_elab_declaration.specs.Enums.ExprShut as expression;
ghost use Rattle.cf_elab_declaration.specs.WrittenTrees.Shut as written;

use cf_unit::{Declaration, InitDeclarator};

#[tactic(auto, using(crate::proofs::DeclarationsLaws::BuiltParts::declaration_laws))]
pub(crate) fn declaration(_d: &Declaration)
    requires { shut.IsBuilt _d.now }
    ensures specifiers { shut.SpecifiersAreBuilt (out-Declaration _d.now).specifiers }
    ensures declarators { shut.DeclaratorsAreBuilt (out-Declaration _d.now).declarators }
{}

#[tactic(auto, using(crate::proofs::DeclarationsLaws::BuiltParts::declarator_laws))]
pub(crate) fn declarator(_d: &InitDeclarator)
    requires { shut.DeclaratorIsBuilt _d.now }
    ensures tree { expression.TreeIsBuilt _d.now.declarator }
    ensures initialiser { written.PartsAreBuilt _d.now.initialiser }
{}
