ghost use Rattle.std.specs.Prelude.{◌≡◌, IfOk};

use crate::memory::Memory;
use std::alloc::Global;
use std::marker::Model;

/// One value on the heap, which contracts see as that value. A tree of such boxes is plain data.
#[derive(Debug, Drop)]
pub struct Boxed<T> {
    place: Box<T>,
}

impl<T> Model for Boxed<T> {
    ghost Value = { T };

    ghost coded = { T.code };

    ghost view = { λ b. b.place.value };
}

impl<T> Boxed<T> {
    /// The value inside.
    pub fn get(&self) -> &T
        ensures { result.now ≡ self.now }
    {
        &self.place
    }

    /// The value, taken out of its box.
    pub fn into_inner(self) -> T
        ensures { result ≡ self }
    {
        let Boxed { place } = self;
        Box::into_inner(place)
    }
}

impl<T: Drop> Boxed<T> {
    /// A box with this value in it.
    pub fn new(alloc: Global, value: T) -> Result<Boxed<T>, Memory>
        ensures { IfOk result (λ made. made ≡ value) }
    {
        Ok(Boxed {
            place: Box::new(alloc, value)?,
        })
    }
}
