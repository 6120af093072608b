//! Laws of link names: functions that do nothing, and whose contracts are the laws.

ghost use Rattle.cf_classes.specs.Decode.{IsDecoding};
ghost use Rattle.cf_classes.specs.Entity.{AreApart};

/// Well-formed entities that differ have link names that differ.
pub fn names_tell_entities_apart()
    ensures { AreApart }
{}

/// What a link name is decoded to is the well-formed entity that has it, and none where none has it.
pub fn names_are_decoded()
    ensures { IsDecoding }
{}
