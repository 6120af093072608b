ghost use Rattle.std.specs.Prelude.{◌≡◌};
ghost use Rattle.cf_elab.specs.Functions as functions;
ghost use Rattle.cf_elab_functions.specs.Seen.{says_seen};

use cf_base::Name;
use cf_types::TyId;

/// What a function of the file is called in its link name.
#[derive(Clone, Copy, Debug, PartialEq, Eq)]
pub enum Called {
    /// `main` (3.4).
    Main,
    /// By its own name.
    Plain,
}

/// How a declaration says its function.
#[derive(Debug, Drop)]
pub struct Says {
    pub name: Name,
    pub called: Called,
    /// The byte place of the name.
    pub at: u32,
    pub ty: TyId,
    pub is_static: bool,
    pub is_inline: bool,
    /// Whether it has a body.
    pub defines: bool,
    /// Whether an initialiser stands behind it, which it may not have.
    pub is_initialised: bool,
}

impl Says {
    /// Whether it makes its name local to the file (3.3).
    pub(crate) fn is_internal(&self) -> bool
        ensures { result ≡ functions.says_internal (says_seen self.now) }
    {
        self.is_static || self.is_inline
    }
}
