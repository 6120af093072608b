//! The places that names stand for.

ghost use Rattle.std.specs.Prelude.{◌≡◌, if◌then◌else◌, IfOk};
ghost use Rattle.cc_whole.specs.Plain.{expression_of};
ghost use Rattle.cf_core.specs.FromTypes.{type_of};
ghost use Rattle.cf_lower.specs.Expressions as spec;
ghost use Rattle.cf_lower.specs.Kept as kept;
ghost use Rattle.cf_lower.specs.Written as written;
ghost use Rattle.cf_lower_held.specs.Scenes.{locals_in};
ghost use Rattle.cf_lower_layout.specs.Sorts.{sort_to};
ghost use Rattle.cf_lower_names.specs.declared.cell.Cell.TheVariants as cells;
ghost use Rattle.cf_lower_types.specs.Bare.{is_code};

use cc_whole::CExpression;
use cf_base::{Boxed, Memory, Name};
use cf_lower_held::{Scene, type_of_local};
use cf_lower_names::{Cell, address_of, as_value, load_named, local_name};
use cf_lower_types::{is_function, referred};
use cf_types::TyId;

/// What a pointer or a reference to the type of this number is in a register.
fn target_cell(x: &Scene<'_>, target: TyId) -> Cell
    ensures { result ≡ (if is_code (sort_to (type_of x.now.tables.now target)) then cells.Code else cells.Address) }
{
    if is_function(x.tables, target) {
        Cell::Code
    } else {
        Cell::Address
    }
}

/// The place that a name of this type stands for (8.4.3).
#[tactic(auto, using(crate::proofs::PlaceLaws::by_reference, crate::proofs::PlaceLaws::by_itself))]
pub fn place_named(x: &Scene<'_>, name: Name, ty: TyId) -> Result<Boxed<CExpression>, Memory>
    ensures { IfOk result (λ made. expression_of made ≡ spec.place_named name (type_of x.now.tables.now ty)) }
{
    match referred(x.tables, ty) {
        Some(target) => {
            let held = load_named(x.alloc, name)?;
            let made = as_value(x.alloc, target_cell(x, target), held)?;
            Ok(made)
        }
        None => {
            let made = address_of(x.alloc, name)?;
            Ok(made)
        }
    }
}

/// The place that a local's name stands for.
#[tactic(auto, using(crate::proofs::PlaceLaws::named_same, crate::proofs::PlaceLaws::named_void))]
pub fn local_place(x: &Scene<'_>, local: u32) -> Result<Boxed<CExpression>, Memory>
    ensures { IfOk result (λ made. expression_of made ≡ spec.place_named (written.local_name local) (kept.type_of_local (locals_in x.now) local)) }
{
    let name = local_name(x.alloc, local)?;
    match type_of_local(x, local) {
        Some(ty) => {
            let made = place_named(x, name, ty)?;
            Ok(made)
        }
        None => {
            let made = address_of(x.alloc, name)?;
            Ok(made)
        }
    }
}
