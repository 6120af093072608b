ghost use Rattle.std.specs.Prelude.{◌≡◌, ◌||◌, not};
ghost use Rattle.cf_elab.specs.Operand as operand;
ghost use Rattle.cf_elab_env.specs.Answered.{Agrees};
ghost use Rattle.cf_elab_env.specs.Holds.{IsType};
ghost use Rattle.cf_elab_env.specs.Seen.{sort_seen};
ghost use Rattle.cf_elab_shape.specs.Shapes.Shut as shut;

use cf_elab_arith::broken;
use cf_elab_env::{Env, Sort, Stop};
use cf_types::TyId;

/// Of a type that is made as it may be, nothing; else K26 at the operator (8.2).
#[tactic(auto, using(crate::proofs::ShapesLaws::FormLaws::need_laws))]
pub(crate) fn check_form(env: &Env, is_fine: bool, at: u32) -> Result<(), Stop>
    ensures { Agrees (shut.need_at is_fine at env.now) result env.now }
{
    let _env = env;
    if is_fine {
        Ok(())
    } else {
        Err(Stop::Broken(broken(26, at)))
    }
}

/// Whether there are pointers to the type: it is no reference (8.2.1).
#[tactic(auto, using(crate::proofs::ShapesLaws::FormLaws::form_laws))]
pub(crate) fn has_pointers(env: &Env, ty: TyId) -> bool
    requires { IsType env.now.types ty }
    ensures { result ≡ shut.points env.now.types ty }
{
    let is_reference = is_reference(env.sort_of(ty));
    !is_reference
}

/// Whether there are references to the type: it is neither a reference nor void (8.2.2).
#[tactic(auto, using(crate::proofs::ShapesLaws::FormLaws::form_laws))]
pub(crate) fn has_references(env: &Env, ty: TyId) -> bool
    requires { IsType env.now.types ty }
    ensures { result ≡ shut.refers env.now.types ty }
{
    let sort = env.sort_of(ty);
    !(is_reference(sort) || is_void(sort))
}

/// Whether a function may return it: it is neither an array nor a function (8.2.5).
#[tactic(auto, using(crate::proofs::ShapesLaws::FormLaws::form_laws))]
pub(crate) fn is_returned(env: &Env, ty: TyId) -> bool
    requires { IsType env.now.types ty }
    ensures { result ≡ shut.returned env.now.types ty }
{
    let sort = env.sort_of(ty);
    !(is_array(sort) || is_function(sort))
}

/// Whether there are arrays of it: it is no reference, not void and no function (8.2.4).
#[tactic(auto, using(crate::proofs::ShapesLaws::FormLaws::form_laws))]
pub(crate) fn has_arrays(env: &Env, ty: TyId) -> bool
    requires { IsType env.now.types ty }
    ensures { result ≡ shut.held env.now.types ty }
{
    let sort = env.sort_of(ty);
    !(is_reference(sort) || is_void(sort) || is_function(sort))
}

fn is_reference(sort: Sort) -> bool
    ensures { result ≡ operand.is_reference (sort_seen sort) }
{
    matches!(sort, Sort::Reference(_))
}

pub(crate) fn is_void(sort: Sort) -> bool
    ensures { result ≡ operand.is_void (sort_seen sort) }
{
    matches!(sort, Sort::Void)
}

fn is_array(sort: Sort) -> bool
    ensures { result ≡ operand.is_array (sort_seen sort) }
{
    matches!(sort, Sort::Array(_, _))
}

fn is_function(sort: Sort) -> bool
    ensures { result ≡ operand.is_function (sort_seen sort) }
{
    matches!(sort, Sort::Function(_))
}
