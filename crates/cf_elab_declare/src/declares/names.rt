ghost use Rattle.std.specs.Prelude.{◌≡◌, None};
ghost use Rattle.cf_elab.specs.Built.{of_name};
ghost use Rattle.cf_syntax.specs.declared.name.Last.{Last as Written};

use cf_base::Bytes;
use cf_syntax::{Last, Name};

/// The identifier that a name is, where it is one that is built.
#[tactic(auto, using(crate::proofs::DeclaresLaws::NameLaws::name_laws))]
pub fn identifier(name: &Name) -> &Bytes
    requires { of_name name.now ≡ None }
    ensures { name.now.last ≡ Last.Ident result.now }
{
    match &name.last {
        Last::Ident(bytes) => bytes,
        _ => unreachable!(),
    }
}
