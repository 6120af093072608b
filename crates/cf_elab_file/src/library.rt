ghost use Rattle.std.specs.Prelude.{◌≡◌, All, IfOk, OnOk, Some, slice_get};
ghost use Rattle.cf_types.specs.Table.{AreParameters};
ghost use Rattle.cf_elab.specs.Answer.{Made};
ghost use Rattle.cf_elab.specs.File as file;
ghost use Rattle.cf_elab_env.specs.Holds.{Grows, IsType};
ghost use Rattle.cf_elab_file.specs.Shut as shut;

use cf_base::{Items, Kind, Memory, Name};
use cf_elab_env::{Entity, Env, Extent, FunctionEntry};
use cf_types::{Ty, TyId};
use std::alloc::Global;

/// What is known at the begin of a file that defines these names: the three functions of the library are declared.
#[tactic(auto, using(crate::proofs::LibraryLaws::beginning_laws))]
pub fn begun(alloc: Global, extent: Extent, defines: Items<Name>) -> Result<Env, Memory>
    ensures { IfOk result (λ env. shut.beginning (file.first_env extent defines) ≡ Made tt env) }
{
    let (mut env, int) = Env::new(alloc, extent, defines)?;
    declare_all(&mut env, int)?;
    Ok(env)
}

/// Declares the functions of the library, where the type `int` is known.
#[tactic(auto, using(crate::proofs::LibraryLaws::all_laws))]
fn declare_all(env: &mut Env, int: TyId) -> Result<(), Memory>
    requires int { slice_get env.old.types.types int ≡ Some (Ty.Int Kind.Int) }
    requires known { IsType env.old.types int }
    ensures { OnOk result (shut.library_all int env.old ≡ Made tt env.new) }
{
    let void = env.void()?;
    let character = Items::from_slice(env.alloc(), &[int])?;
    declare(env, b"putchar", int, character)?;
    let nothing = Items::new(env.alloc());
    declare(env, b"getchar", int, nothing)?;
    let status = Items::from_slice(env.alloc(), &[int])?;
    declare(env, b"exit", void, status)?;
    Ok(())
}

/// Declares a function of the library with this result and these parameters.
#[tactic(auto, using(crate::proofs::LibraryLaws::library_laws))]
fn declare(env: &mut Env, name: &[u8], returned: TyId, params: Items<TyId>) -> Result<(), Memory>
    requires known { IsType env.old.types returned }
    requires params_known { All (λ t. IsType env.old.types t) params }
    requires parameters { AreParameters env.old.types.types params }
    ensures made { OnOk result (shut.library name.now returned params env.old ≡ Made tt env.new) }
    ensures grows { OnOk result (Grows env.old.types env.new.types) }
{
    let ty = env.function_type(returned, params, false)?;
    let entry = library_entry(env.alloc(), name, ty)?;
    let number = env.add_entry(entry)?;
    let numbers = Items::from_slice(env.alloc(), &[number])?;
    env.declare(name, Entity::Functions(numbers))?;
    Ok(())
}

/// A function of the library, which no file defines.
fn library_entry(alloc: Global, name: &[u8], ty: TyId) -> Result<FunctionEntry, Memory>
    ensures { IfOk result (λ entry. entry ≡ file.library_entry name.now ty) }
{
    Ok(FunctionEntry {
        name: Name::from_slice(alloc, name)?,
        link: Name::from_slice(alloc, name)?,
        ty,
        at: 0,
        is_defined: false,
        is_internal: false,
    })
}
