//! What the statements of a function stand in.

ghost use Rattle.std.specs.Prelude.{◌≡◌};
ghost use Rattle.std.specs.Option.{option_map};
ghost use Rattle.cf_core.specs.FromTypes.{type_of};
ghost use Rattle.cf_lower.specs.Kept as kept;
ghost use Rattle.cf_lower_held.specs.Scenes.{locals_in};

use cf_base::Items;
use cf_lower_types::Tables;
use cf_types::TyId;
use std::alloc::Global;

/// What the statements of a function stand in.
#[derive(Drop)]
pub struct Scene<'a> {
    pub alloc: Global,
    pub tables: &'a Tables<'a>,
    /// The link name of the function.
    pub function: &'a [u8],
    /// The type of its result.
    pub result: TyId,
    /// The types of its parameters, and of its locals behind them.
    pub types: Items<TyId>,
    /// The locals that are the objects of parameters of its calls.
    pub arguments: Items<u32>,
}

/// The type of a local, if there is one of this number.
#[tactic(auto, using(crate::proofs::Locals::type_there))]
pub fn type_of_local(x: &Scene<'_>, local: u32) -> Option<TyId>
    ensures { kept.type_or_void (option_map (type_of x.now.tables.now) result) ≡ kept.type_of_local (locals_in x.now) local }
{
    x.types.get(local as usize).copied()
}

/// Whether a local is the object of a parameter of a call.
pub fn is_argument(x: &Scene<'_>, local: u32) -> bool
    ensures { result ≡ kept.is_argument (locals_in x.now) local }
{
    x.arguments
        .as_slice()
        .iter()
        .any(|argument| *argument == local)
}
