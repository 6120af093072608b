ghost use Rattle.std.specs.Prelude.{◌≡◌, ℕ, IfOk, OnOk};
ghost use Rattle.cf_classes.specs.LinkName.{Main, Plain};
ghost use Rattle.cf_elab_env.specs.Answered.{Agrees};
ghost use Rattle.cf_elab_env.specs.Holds.{IsType};
ghost use Rattle.cf_elab_objects.specs.Links.Text.{added};
ghost use Rattle.cf_elab_objects.specs.Links.Shut as shut;

use crate::links::codes::{add_parameters, params_at};
use crate::links::text::Text;
use cf_base::{Memory, Name};
use cf_elab_env::{Env, Stop};
use cf_types::TyId;

/// The link name of a function of this name and type that is no member, where it is within the limit on names.
#[tactic(auto, using(crate::proofs::LinksLaws::FunctionLaws::plain_laws))]
pub fn plain_link(env: &Env, name: &[u8], ty: TyId) -> Result<Name, Stop>
    requires { IsType env.now.types ty }
    ensures { Agrees (shut.name_or_limit (shut.function_link env.now (Plain name.now) ty) env.now) result env.now }
{
    let mut text = Text::new(env.alloc());
    text.add(name)?;
    text.add(b"__F")?;
    add_signature(&mut text, env, ty)?;
    let link = text.ended(env)?;
    Ok(link)
}

/// Adds the parameters of a function of this type.
#[tactic(auto, using(crate::proofs::LinksLaws::CodeLaws::signature_laws))]
fn add_signature(text: &mut Text, env: &Env, ty: TyId) -> Result<(), Memory>
    requires { IsType env.now.types ty }
    ensures { OnOk result (text.new ≡ added (shut.parameter_code env.now ty) text.old) }
{
    env.holds();
    if params_at(env, ty).is_empty() {
        text.add(b"v")?;
    } else {
        add_parameters(text, env, ty)?;
    }
    Ok(())
}

/// The link name of `main` (3.4).
#[tactic(auto, using(crate::proofs::LinksLaws::FunctionLaws::main_laws))]
pub fn main_link(env: &Env) -> Result<Name, Memory>
    ensures { IfOk result (λ link. (ty : ℕ) → link ≡ shut.function_link env.now Main ty) }
{
    Name::from_slice(env.alloc(), b"__main")
}
