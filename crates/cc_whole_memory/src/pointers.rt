ghost use Rattle.std.specs.Prelude.{◌≡◌, ◌+ℤ◌, ◌-ℤ◌, pos};
ghost use Rattle.cc_whole_memory.specs.Pointers as pointers;
ghost use Rattle.cc_whole_memory.specs.Store.{memory_of, answer};

use crate::act::Act;
use crate::store::Store;
use crate::value::Pointer;
use cf_base::Arith;

/// The byte at this offset of a block of a size, or the block's end.
fn in_range(block: usize, size: usize, offset: i128) -> Result<Pointer, Act>
    ensures { answer result ≡ pointers.in_range block size offset }
{
    if 0 <= offset && offset <= size as i128 {
        Ok(Pointer::At {
            block,
            offset: offset as usize,
        })
    } else {
        Err(Act::A6)
    }
}

/// Whether two pointers are equal, which is never an act (5.10).
pub fn same_pointer(p: Pointer, q: Pointer) -> bool
    ensures { result ≡ pointers.same_pointer p q }
{
    match p {
        Pointer::Null => matches!(q, Pointer::Null),
        Pointer::At { block, offset } => match q {
            Pointer::Null => false,
            Pointer::At {
                block: other,
                offset: place,
            } => block == other && offset == place,
        },
    }
}

/// The difference of two offsets, as an int.
fn difference(i: usize, j: usize) -> Result<i64, Act>
    ensures { answer result ≡ pointers.of_offsets Arith.Subtract i j }
{
    let exact = i as i128 - j as i128;
    if -2147483648 <= exact && exact < 2147483648 {
        Ok(exact as i64)
    } else {
        Err(Act::A1)
    }
}

/// The difference or the order of two offsets.
fn of_offsets(op: Arith, i: usize, j: usize) -> Result<i64, Act>
    ensures { answer result ≡ pointers.of_offsets op i j }
{
    match op {
        Arith::Subtract => difference(i, j),
        Arith::Less => Ok(i64::from(i < j)),
        Arith::Greater => Ok(i64::from(j < i)),
        Arith::LessEqual => Ok(i64::from(i <= j)),
        Arith::GreaterEqual => Ok(i64::from(j <= i)),
        _ => Err(Act::A7),
    }
}

impl Store {
    /// A pointer moved by so many bytes, within its block or to its end (5.7).
    pub fn moved(&self, pointer: Pointer, by: i64) -> Result<Pointer, Act>
        ensures { answer result ≡ pointers.moved pointer by (memory_of self.now) }
    {
        match pointer {
            Pointer::Null => Err(Act::A4),
            Pointer::At { block, offset } => match self.size(block) {
                None => Err(Act::A5),
                Some(size) => in_range(block, size, offset as i128 + i128::from(by)),
            },
        }
    }

    /// A pointer moved back by so many bytes (5.7).
    pub fn moved_back(&self, pointer: Pointer, by: i64) -> Result<Pointer, Act>
        ensures { answer result ≡ pointers.moved_back pointer by (memory_of self.now) }
    {
        match pointer {
            Pointer::Null => Err(Act::A4),
            Pointer::At { block, offset } => match self.size(block) {
                None => Err(Act::A5),
                Some(size) => in_range(block, size, offset as i128 - i128::from(by)),
            },
        }
    }

    /// The difference or the order of two pointers into one block (5.7, 5.9).
    pub fn of_pointers(&self, op: Arith, p: Pointer, q: Pointer) -> Result<i64, Act>
        ensures { answer result ≡ pointers.of_pointers op p q (memory_of self.now) }
    {
        match p {
            Pointer::Null => Err(Act::A4),
            Pointer::At { block, offset } => match q {
                Pointer::Null => Err(Act::A4),
                Pointer::At {
                    block: other,
                    offset: place,
                } => {
                    if block != other {
                        return Err(Act::A8);
                    }
                    match self.size(block) {
                        None => Err(Act::A5),
                        Some(_) => of_offsets(op, offset, place),
                    }
                }
            },
        }
    }
}
