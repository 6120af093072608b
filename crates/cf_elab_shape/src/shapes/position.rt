use std::marker::Model;

/// What a name may be declared as.
#[derive(Clone, Copy, Debug, PartialEq, Eq)]
pub struct Position {
    /// With an array bound left out, where its initialiser or its caller gives it (8.2.4).
    pub unbounded: bool,
    /// With `const` behind its parameters, where it is a nonstatic member function (9.3.1).
    pub const_function: bool,
}

impl Model for Position {
    ghost use Rattle.cf_elab.specs.Shape.{Position};

    ghost Value = { Position };

    ghost view = { λ p. record { unbounded = p.unbounded; const_function = p.const_function } };

    ghost inverse = { λ p. record { unbounded = p.unbounded; const_function = p.const_function } };
}
