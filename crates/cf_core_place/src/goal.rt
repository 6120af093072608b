ghost use Rattle.std.specs.Prelude.{◌≡◌};
ghost use Rattle.cf_core.specs.Calls.{root};
ghost use Rattle.cf_core.specs.Core as core;
ghost use Rattle.cf_core.specs.Places as places;
ghost use Rattle.cf_core_place.specs.Routes.{place_of, placed, goal_place, row_place, IsRow};

use crate::part::{Part, Place};

/// A part of an object that is no end of an array.
#[derive(Clone, Copy, Debug, PartialEq, Eq)]
pub enum Inside {
    Whole,
    /// The element of this index.
    Item(u32),
    /// The element of the second index of the element of the first, which is an array.
    Inner(u32, u32),
}

/// What an initialiser builds: such a part of the object of this number.
#[derive(Clone, Copy, Debug, PartialEq, Eq)]
pub struct Goal {
    pub object: usize,
    pub part: Inside,
}

/// An array whose elements are built: the object of this number, or its element of this index.
#[derive(Clone, Copy, Debug, PartialEq, Eq)]
pub struct Row {
    pub object: usize,
    pub item: Option<u32>,
}

impl Goal {
    /// An object as a whole.
    pub fn whole(object: usize) -> Goal
        ensures { goal_place result ≡ root object }
    {
        Goal {
            object,
            part: Inside::Whole,
        }
    }

    pub fn place(self) -> Place
        ensures { result ≡ placed self }
    {
        let part = match self.part {
            Inside::Whole => Part::Whole,
            Inside::Item(index) => Part::Item(index),
            Inside::Inner(row, index) => Part::Inner(row, index),
        };
        Place {
            object: self.object,
            part,
        }
    }

    /// The same as an array. An element of an element is none: arrays of arrays of arrays have no form.
    pub fn row(self) -> Option<Row>
        ensures { IsRow self result }
    {
        match self.part {
            Inside::Whole => Some(Row {
                object: self.object,
                item: None,
            }),
            Inside::Item(index) => Some(Row {
                object: self.object,
                item: Some(index),
            }),
            Inside::Inner(_, _) => None,
        }
    }
}

impl Row {
    pub fn place(self) -> Place
        ensures { place_of result ≡ row_place self }
    {
        let part = match self.item {
            None => Part::Whole,
            Some(index) => Part::Item(index),
        };
        Place {
            object: self.object,
            part,
        }
    }

    /// The element of this index.
    pub fn element(self, index: u32) -> Goal
        ensures { goal_place result ≡ places.inner (core.item index) (row_place self) }
    {
        let part = match self.item {
            None => Inside::Item(index),
            Some(row) => Inside::Inner(row, index),
        };
        Goal {
            object: self.object,
            part,
        }
    }
}
