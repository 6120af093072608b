//! The library's functions, which each unit declares.

ghost use Rattle.std.specs.Prelude.{◌≡◌, ◌++◌, ◌∷◌, [], IfOk, OnOk};
ghost use Rattle.cc_whole.specs.Plain.{declares, items_of};
ghost use Rattle.cc_whole.specs.declared.types.CType.TheVariants as ty;
ghost use Rattle.cf_lower.specs.Functions as spec;
ghost use Rattle.cf_lower.specs.Written.{local_name};
ghost use Rattle.cf_lower_unit.specs.Pieces as pieces;

use crate::items::push;
use cc_whole::{CItem, CParameter, CPrototype, CType};
use cf_base::{Items, Memory};
use cf_lower_names::local_name as parameter_name;
use std::alloc::Global;

/// One parameter, an int.
fn one_int(alloc: Global) -> Result<Items<CParameter>, Memory>
    ensures { IfOk result (λ made. made ≡ spec.parameter ty.Int (local_name 0) ∷ []) }
{
    let name = parameter_name(alloc, 0)?;
    let mut made = Items::new(alloc);
    made.push(CParameter {
        ty: CType::Int,
        name,
    })?;
    Ok(made)
}

/// Declares a function of the library.
fn declare(
    alloc: Global,
    name: &[u8],
    given: Option<CType>,
    parameters: Items<CParameter>,
    made: &mut Items<CItem>,
) -> Result<(), Memory>
    ensures { OnOk result (items_of made.new ≡ items_of made.old ++ declares (pieces.library_head name.now given parameters) ∷ []) }
{
    let name = Items::from_slice(alloc, name)?;
    let head = CPrototype {
        is_static: false,
        result: given,
        name,
        parameters,
    };
    push(made, CItem::Prototype(head))?;
    Ok(())
}

/// Declares the library's functions.
pub(crate) fn declare_library(alloc: Global, made: &mut Items<CItem>) -> Result<(), Memory>
    ensures { OnOk result (items_of made.new ≡ items_of made.old ++ spec.library) }
{
    let letter = one_int(alloc)?;
    declare(alloc, b"putchar", Some(CType::Int), letter, made)?;
    let nothing = Items::new(alloc);
    declare(alloc, b"getchar", Some(CType::Int), nothing, made)?;
    let status = one_int(alloc)?;
    declare(alloc, b"exit", None, status, made)?;
    Ok(())
}
