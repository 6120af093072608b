use std::marker::Model;

/// Forms of the language that only elaboration shows, and that may be left out of what is built.
#[derive(Clone, Copy, Debug, PartialEq, Eq)]
pub struct Extent {
    /// A second function of one name with other parameters.
    pub overloads: bool,
    /// A static object whose initialiser is not constant.
    pub computed: bool,
    /// A declaration of what the file does not define.
    pub elsewhere: bool,
}

impl Model for Extent {
    ghost use Rattle.cf_elab.specs.Env.{Extent};

    ghost Value = { Extent };

    ghost view = { λ e. record { overloads = e.overloads; computed = e.computed; elsewhere = e.elsewhere } };

    ghost inverse = { λ e. record { overloads = e.overloads; computed = e.computed; elsewhere = e.elsewhere } };
}
