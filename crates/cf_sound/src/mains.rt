//! Whether a file has a `main`.

ghost use Rattle.std.specs.Prelude.{◌≡◌};
ghost use Rattle.std.specs.List.{list_any};
ghost use Rattle.cf_core.specs.FromUnit.{file_of};
ghost use Rattle.cf_file_sound.specs.Files.{has_main};
ghost use Rattle.cf_sound.specs.Mains.{stands};

use cf_core::{CoreFn, CoreUnit};

/// Whether a function is named `__main` and is not its file's alone.
fn stands(f: &CoreFn) -> bool
    ensures { result ≡ stands f.now }
{
    f.name.as_slice() == b"__main".as_slice() && !f.is_local
}

/// Whether one of these functions does.
fn one_stands(functions: &[CoreFn]) -> bool
    ensures { result ≡ list_any stands functions.now }
{
    functions.iter().any(|f| stands(f))
}

/// Whether a file has a `main`: a function of this link name that is not the file's alone (3.4).
#[tactic(auto, using(crate::proofs::Standing::main_stands))]
pub fn has_main(unit: &CoreUnit) -> bool
    ensures { result ≡ has_main (file_of unit.now) }
{
    one_stands(unit.functions())
}
