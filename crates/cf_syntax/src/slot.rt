//! The slot of a name in a table.

ghost use Rattle.std.specs.Prelude.{◌≡◌};
ghost use Rattle.cf_syntax.specs.Slots.{slot_of};

/// How many slots a table has, a prime.
const SLOTS: usize = 65_521;

/// The slot of this name.
pub fn slot_of(name: &[u8]) -> usize
    ensures { result ≡ slot_of name.now }
{
    let mut slot = 0;
    for byte in name {
        slot = (slot * 31 + *byte as usize) % SLOTS;
    }
    slot
}
