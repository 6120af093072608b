//! The laws: a function that does nothing, and whose contract they are.

ghost use Rattle.cf_elab_finished.specs.Laws.{OneCore, CoreOfFirst};

/// A file has one core at most, and that is the one of the definition of elaboration (17).
pub fn files_have_one_core()
    ensures one { OneCore }
    ensures first { CoreOfFirst }
{}
