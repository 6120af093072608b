//! The parts of a function that is built are built. The function here does nothing: its contract tells the caller.

ghost use Rattle.cf_unit.specs.declared.class.FunctionDef.{out-FunctionDef};
ghost use Rattle.cf_elab_unit.specs.Body.Shut as body_of;
ghost use Rattle.cf_elab_unit.specs.Body.DeclarationShut as declaration;
ghost use Rattle.cf_elab_unit.specs.Definitions.Shut as shut;
ghost use Rattle.cf_elab_unit.specs.Body.ExprShut as expression;

use cf_unit::FunctionDef;

#[tactic(auto, using(crate::proofs::DefinitionsLaws::BuiltParts::function_laws))]
pub(crate) fn function(_f: &FunctionDef)
    requires { shut.IsBuilt _f.now }
    ensures specifiers { declaration.SpecifiersAreBuilt (out-FunctionDef _f.now).specifiers }
    ensures tree { expression.TreeIsBuilt (out-FunctionDef _f.now).declarator }
    ensures body { body_of.AreBuilt (out-FunctionDef _f.now).body }
{}
