//! A law on the tests of a file.

ghost use Rattle.std.specs.Prelude.{◌≡◌, true};
ghost use Rattle.cf_core.specs.Core.{CoreFile};
ghost use Rattle.cf_lowerable_core.specs.Looks.{looks, Looked};

/// The law that a file passes these tests just where it passes each of six tests of `CoreLowers`. It does nothing.
pub fn looks_are_tests()
    ensures passed { (file : CoreFile) → looks file ≡ true → Looked file }
    ensures passes { (file : CoreFile) → Looked file → looks file ≡ true }
{}
