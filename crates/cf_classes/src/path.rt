use cf_base::Items;
use cf_types::ClassId;
use std::marker::Model;

/// A step to a base class (10).
#[derive(Clone, Copy, Debug, PartialEq, Eq)]
pub enum Step {
    /// To the direct base of this number, from 0.
    Base(u32),
    /// To the one subobject of this virtual base.
    VBase(ClassId),
}

/// The way to a subobject, from the complete object on. A step to a virtual base comes first.
#[derive(Debug, Drop)]
pub struct Path {
    pub steps: Items<Step>,
}

impl Model for Path {
    ghost use Rattle.std.specs.Prelude.{List};
    ghost use Rattle.cf_classes.specs.declared.path.Step.{Step};

    ghost Value = { List Step };

    ghost view = { λ path. path.steps };
}
