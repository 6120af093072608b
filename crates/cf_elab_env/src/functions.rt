use cf_base::Name;
use cf_types::TyId;
use std::marker::Model;

/// A declared function that is no member. So far no parameter has a default argument.
#[derive(Debug, Drop)]
pub struct FunctionEntry {
    pub name: Name,
    pub link: Name,
    pub ty: TyId,
    /// The byte place of its first declaration.
    pub at: u32,
    pub is_defined: bool,
    /// Whether its name is local to the file (3.3).
    pub is_internal: bool,
}

impl Model for FunctionEntry {
    ghost use Rattle.std.specs.Prelude.{[]};
    ghost use Rattle.std.specs.Coded.{codes};
    ghost use Rattle.cf_core.specs.contracts.node.Core as core;
    ghost use Rattle.cf_elab.specs.Env.{FunctionEntry};

    ghost Value = { FunctionEntry };

    ghost coded = { Prim.hlevel (codes, core.the_row.coded) };

    ghost view = { λ f. record { name = f.name; link = f.link; type = f.ty; defaults = []; at = f.at; is_defined = f.is_defined; is_internal = f.is_internal } };
}
