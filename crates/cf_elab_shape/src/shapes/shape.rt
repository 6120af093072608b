ghost use Rattle.std.specs.Prelude.{◌≡◌};
ghost use Rattle.std.specs.Option.{option_copied};
ghost use Rattle.cf_elab.specs.Shape as spec;
ghost use Rattle.cf_elab_shape.specs.Shapes.Seen.{shape_seen};

use cf_base::{Boxed, Items};
use cf_elab_env::Value;
use cf_syntax::Name;
use cf_types::TyId;
use std::marker::Model;

/// A parameter of a function (8.2.5). So far none has a default argument.
#[derive(Drop)]
pub struct Parameter {
    /// The byte place of its first token.
    pub at: u32,
    pub name: Option<Name>,
    /// Its own type.
    pub ty: TyId,
    /// Whether `auto` or `register` stands before it.
    pub is_stored: bool,
}

impl Model for Parameter {
    ghost use Rattle.std.specs.Prelude.{None};
    ghost use Rattle.std.specs.Coded.{codes};
    ghost use Rattle.cf_core.specs.contracts.node.Core as core;
    ghost use Rattle.cf_elab.specs.Shape.{Parameter};

    ghost Value = { Parameter };

    ghost coded = { Prim.hlevel (codes, core.the_row.coded) };

    ghost view = { λ p. record { at = p.at; name = p.name; type = p.ty; default = None; is_stored = p.is_stored } };
}

/// A declarator whose bounds and parameters are elaborated, from the outside. An operator has its byte place.
#[derive(Drop)]
pub enum Shape {
    /// The name, or nothing.
    Inner,
    Pointing {
        at: u32,
        is_const: bool,
        inside: Boxed<Shape>,
    },
    Referring {
        at: u32,
        inside: Boxed<Shape>,
    },
    /// A function, and whether `const` stands behind its parameters.
    Taking {
        at: u32,
        parameters: Items<Parameter>,
        is_const: bool,
        inside: Boxed<Shape>,
    },
    /// An array with its bound, if it has one.
    Holding {
        at: u32,
        bound: Option<Value>,
        inside: Boxed<Shape>,
    },
}

impl Shape {
    /// Whether it is the declarator of a name or nothing: what the name declares directly.
    pub fn is_inner(&self) -> bool
        ensures { result ≡ spec.is_inner (shape_seen self.now) }
    {
        matches!(self, Shape::Inner)
    }

    /// The parameters, where the name itself is a function's.
    pub fn function_of(&self) -> Option<&Items<Parameter>>
        ensures { option_copied result ≡ spec.function_of (shape_seen self.now) }
    {
        match self {
            Shape::Inner => None,
            Shape::Pointing { inside, .. } => inside.get().function_of(),
            Shape::Referring { inside, .. } => inside.get().function_of(),
            Shape::Taking {
                parameters,
                inside,
                ..
            } => {
                if inside.get().is_inner() {
                    Some(parameters)
                } else {
                    inside.get().function_of()
                }
            }
            Shape::Holding { inside, .. } => inside.get().function_of(),
        }
    }
}
