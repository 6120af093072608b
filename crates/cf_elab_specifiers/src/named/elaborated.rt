ghost use Rattle.std.specs.Prelude.{◌≡◌};
ghost use Rattle.cf_elab.specs.Declarator as declarator;
ghost use Rattle.cf_elab_env.specs.Answered.{Agrees};
ghost use Rattle.cf_elab_env.specs.Holds.{IsType};
ghost use Rattle.cf_elab_env.specs.Seen.{sort_seen};
ghost use Rattle.cf_elab_specifiers.specs.Named.Shut as shut;

use crate::named::refusal::no_type;
use cf_elab_env::{Env, Sort, Stop};
use cf_syntax::ClassKey;
use cf_types::TyId;

/// The type is one by its key; else K10 (7.1.6).
#[tactic(auto, using(crate::proofs::NamedLaws::WordLaws::key_laws))]
pub(crate) fn check_key(env: &Env, at: u32, key: ClassKey, ty: TyId) -> Result<(), Stop>
    requires { IsType env.now.types ty }
    ensures { Agrees (shut.need_key at key ty env.now) result env.now }
{
    if is_by_key(key, env.sort_of(ty)) {
        Ok(())
    } else {
        Err(no_type(at))
    }
}

fn is_by_key(key: ClassKey, sort: Sort) -> bool
    ensures { result ≡ declarator.of_key key (sort_seen sort) }
{
    match key {
        ClassKey::Enum => matches!(sort, Sort::Enumeral(_)),
        _ => false,
    }
}
