//! A new enumeration and its type.

ghost use Rattle.std.specs.Prelude.{◌≡◌, IfOk, OnOk};
ghost use Rattle.std.specs.Option.{option_copied};
ghost use Rattle.cf_elab.specs.Answer.{Made};
ghost use Rattle.cf_elab.specs.Enumeration as spec;
ghost use Rattle.cf_elab.specs.Operand.{enumeral, sort_of};
ghost use Rattle.cf_elab_env.specs.Holds.{Grows, IsType};
ghost use Rattle.cf_elab_declaration.specs.Enums.Shut as shut;

use cf_base::{Memory, Name};
use cf_elab_env::Env;
use cf_types::{Ty, TyId};
use std::alloc::Global;

/// The name of an enumeration: its own, or that of the `typedef` that it stands in; empty where there is neither.
pub(crate) fn label(
    alloc: Global,
    name: &Option<(u32, Name)>,
    alias: Option<&Name>,
) -> Result<Name, Memory>
    ensures { IfOk result (λ label. label ≡ spec.label_name name.now (option_copied alias.entry)) }
{
    match name {
        Some((_, name)) => Name::from_slice(alloc, name.as_slice()),
        None => match alias {
            Some(name) => Name::from_slice(alloc, name.as_slice()),
            None => Ok(Name::new(alloc)),
        },
    }
}

/// The number and the type of a new enumeration of this name.
#[tactic(auto, using(crate::proofs::EnumsLaws::MakingLaws::new_laws))]
pub(crate) fn new_type(env: &mut Env, name: Name) -> Result<(u32, TyId), Memory>
    ensures made { IfOk result (λ new. shut.new_type name env.old ≡ Made new env.new) }
    ensures known { IfOk result (λ new. IsType env.new.types new.1) }
    ensures sort { IfOk result (λ new. sort_of env.new.types new.1 ≡ enumeral new.0) }
    ensures grows { OnOk result (Grows env.old.types env.new.types) }
{
    let number = env.new_enum(name)?;
    env.holds();
    let ty = env.intern(Ty::Enum(number))?;
    Ok((number, ty))
}
