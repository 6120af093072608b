//! What the statements of a function stand in.

ghost use Rattle.std.specs.Prelude.{◌≡◌, slice_get};
ghost use Rattle.std.specs.Option.{option_map};
ghost use Rattle.cf_core.specs.FromTypes.{type_of};
ghost use Rattle.cf_lowerable_ready.specs.Scenes.{locals_in};

use cf_base::Items;
use cf_lower_types::Tables;
use cf_types::TyId;
use std::alloc::Global;

/// What the statements of a function stand in.
#[derive(Drop)]
pub struct Scene<'a> {
    pub alloc: Global,
    pub tables: &'a Tables<'a>,
    /// The type of the function's result.
    pub result: TyId,
    /// The types of its parameters, and of its locals behind them.
    pub types: Items<TyId>,
}

/// The type of a local, if there is one of this number.
#[tactic(auto, using(crate::proofs::Locals::there))]
pub fn local_type(x: &Scene<'_>, local: u32) -> Option<TyId>
    ensures { option_map (type_of x.now.tables.now) result ≡ slice_get (locals_in x.now) local }
{
    x.types.get(local as usize).copied()
}
