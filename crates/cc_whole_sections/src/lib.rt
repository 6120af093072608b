//! Items that stand in two sections, the first of which declares what the bodies of the second use, are valid where each is by itself and each name has one
//! type. As a law; nothing here runs.
#![tactic(auto)]

ghost use Rattle.std.specs.Prelude.{◌≡◌, List, ◌++◌};
ghost use Rattle.cc_whole.specs.Plain.{Item};
ghost use Rattle.cc_whole.specs.Fault.{fine};
ghost use Rattle.cc_whole.specs.Known.{Named};
ghost use Rattle.cc_whole.specs.Valid.{first_fault};
ghost use Rattle.cc_whole_sections.specs.Sections.{Sections};

/// The law that items in two sections have no fault. It does nothing.
pub fn sections_are_valid()
    ensures { (known wanted : List Named) (first second : List Item) → Sections known wanted first second → first_fault (first ++ second) ≡ fine }
{}
