ghost use Rattle.std.specs.Prelude.{◌≡◌, IfOk};
ghost use Rattle.cf_base.specs.Space.{empty_space, fits, with_piece};

use crate::memory::Memory;
use std::alloc::Global;
use std::marker::Model;

/// Bytes in memory with their room from the start.
#[derive(Debug, Drop)]
pub struct Room {
    places: Vec<u8>,
    used: usize,
}

impl Model for Room {
    ghost use Rattle.std.specs.Prelude.{take, length};
    ghost use Rattle.cf_base.specs.Space.{Space};

    ghost Value = { Space };

    ghost view = { λ r. record { cap = length r.places.items; bytes = take r.used r.places.items } };
}

impl Room {
    /// Room for `cap` bytes, with none in it.
    pub fn new(alloc: Global, cap: u32) -> Result<Room, Memory>
        ensures { IfOk result (λ room. room ≡ empty_space cap) }
    {
        let mut places = Vec::new(alloc);
        places.resize(cap as usize, 0)?;
        Ok(Room { places, used: 0 })
    }

    pub fn bytes(&self) -> &[u8]
        ensures { result.now ≡ self.now.bytes }
    {
        if self.used <= self.places.len() {
            &self.places[..self.used]
        } else {
            &self.places
        }
    }

    /// Adds a piece where there is room for it, and tells whether there was. Takes no memory.
    pub fn add(&mut self, piece: &[u8]) -> bool
        ensures answer { result ≡ fits piece.now self.old }
        ensures added { self.new ≡ with_piece piece.now self.old }
    {
        let used = self.bytes().len();
        if piece.len() > self.places.len() - used {
            return false;
        }
        self.places[used..used + piece.len()].copy_from_slice(piece);
        self.used = used + piece.len();
        true
    }
}
