ghost use Rattle.std.specs.Prelude.{◌≡◌, IfOk};

use cf_base::Memory;
use std::alloc::Global;
use std::marker::Model;
use std::rc::Rc;

/// A value on the heap that several owners share, which contracts see as that value.
#[derive(Drop)]
pub struct Shared<T> {
    place: Rc<T>,
}

impl<T> Model for Shared<T> {
    ghost Value = { T };

    ghost coded = { T.code };

    ghost view = { λ s. s.place.value };
}

impl<T> Shared<T> {
    /// The value.
    pub fn get(&self) -> &T
        ensures { result.now ≡ self.now }
    {
        self.place.as_ref()
    }
}

impl<T: Drop> Shared<T> {
    /// A value with one owner so far.
    pub fn new(alloc: Global, value: T) -> Result<Shared<T>, Memory>
        ensures { IfOk result (λ made. made ≡ value) }
    {
        Ok(Shared {
            place: Rc::new(alloc, value)?,
        })
    }

    /// One more owner of the same value, in constant time.
    pub fn another(&self) -> Result<Shared<T>, Memory>
        ensures { IfOk result (λ made. made ≡ self.now) }
    {
        Ok(Shared {
            place: self.place.clone()?,
        })
    }
}
