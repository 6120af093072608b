//! The units that lowering makes of plain files are valid. As a law; nothing here runs.
#![tactic(auto)]

ghost use Rattle.cf_lower_program.specs.Agrees.{UnitsAreValid};

/// The law that the unit of each file that the laws on whole programs are about has a text and keeps rules V1 to V12. It does nothing.
pub fn units_are_valid()
    ensures { UnitsAreValid }
{}
