ghost use Rattle.std.specs.Prelude.{◌≡◌};
ghost use Rattle.cc_whole_mean.specs.Scope.{Scope};

use cc_whole_mean::Named;

/// The names in scope.
pub trait Names {
    ghost scope: { Self → Scope };

    /// What the name stands for, if it is in scope.
    fn named(&self, name: &[u8]) -> Option<Named>
        ensures { result ≡ scope self.now name.now };
}
