ghost use Rattle.std.specs.Prelude.{◌≡◌, IfOk, OnOk};
ghost use Rattle.cf_elab.specs.Answer.{Made};
ghost use Rattle.cf_elab_env.specs.Holds.{Grows, IsType};
ghost use Rattle.cf_elab_declare.specs.Defines.Shut as shut;
ghost use Rattle.cf_elab_initial.specs.Lists.Seen.{tree_seen};

use cf_base::Memory;
use cf_elab_env::Env;
use cf_elab_initial::{Tree, count_in};
use cf_types::TyId;

/// The type of an array of this element whose initialiser gives the bound: by its outline, before its expressions are elaborated (8.2.4).
#[tactic(auto, using(crate::proofs::DefinesLaws::BoundLaws::bound_laws))]
pub fn array_given(env: &mut Env, element: TyId, outline: &Tree) -> Result<TyId, Memory>
    requires { IsType env.old.types element }
    ensures made { IfOk result (λ t. shut.array_given element (tree_seen outline.now) env.old ≡ Made t env.new) }
    ensures known { IfOk result (λ t. IsType env.new.types t) }
    ensures grows { OnOk result (Grows env.old.types env.new.types) }
{
    let count = count_in(env, element, outline)?;
    let ty = env.array_of(element, count)?;
    Ok(ty)
}
