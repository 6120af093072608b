ghost use Rattle.std.specs.Prelude.{◌≡◌, ◌+◌, ◌≤◌, ◌<◌, ◌^◌, nat_le, length, Ok, Err, OnOk, IfOk, IfErr, IfSome, option_map};
ghost use Rattle.cc_whole_memory.specs.Values as values;
ghost use Rattle.cc_whole_memory.specs.Blocks as memory;
ghost use Rattle.cc_whole_memory.specs.Blocks.{no_memory, born, size_of_block, storage_of_block};
ghost use Rattle.cc_whole_memory.specs.Lists.{cell_at};
ghost use Rattle.cc_whole_memory.specs.Store.{memory_of, answer, act_number, Reaches, Takes};

use crate::act::Act;
use crate::cells::{Cell, load, pieces, place, put};
use crate::value::{Pointer, Scalar, Value, bytes_of, size_of};
use std::alloc::{AllocError, Global};

/// What a block is for.
#[derive(Clone, Copy, Debug, PartialEq, Eq)]
pub enum Storage {
    /// A variable of a unit: it reads as 0 or null until it is written.
    Static,
    /// A local or a parameter.
    Local,
    /// What `malloc` gave.
    Heap,
}

/// A block of bytes.
#[derive(Drop)]
pub struct Block {
    pub is_live: bool,
    pub storage: Storage,
    pub cells: Vec<Cell>,
}

/// The memory of a run: a list of blocks, in which those that have ended stay, empty.
#[derive(Drop)]
pub struct Store {
    alloc: Global,
    blocks: Vec<Block>,
}

/// What stands in a new block.
fn first_cell(storage: Storage) -> Cell
    ensures { result ≡ memory.first_cell storage }
{
    match storage {
        Storage::Static => Cell::Zero,
        Storage::Local => Cell::Gone,
        Storage::Heap => Cell::Gone,
    }
}

/// Whether so many bytes are inside a block of a size.
fn fits(offset: usize, count: u32, size: usize) -> bool
    requires { size < 2 ^ 63 }
    ensures { result ≡ nat_le (offset + count) size }
{
    offset <= size && offset + count as usize <= size
}

impl Store {
    /// A memory without blocks.
    pub fn new(alloc: Global) -> Store
        ensures { memory_of result ≡ no_memory }
    {
        Store {
            alloc,
            blocks: Vec::new(alloc),
        }
    }

    /// A new block of so many bytes, and its number.
    pub fn give(&mut self, storage: Storage, size: u32) -> Result<usize, AllocError>
        ensures number { IfOk result (λ b. b ≡ (memory_of self.old).next) }
        ensures born { OnOk result (memory_of self.new ≡ born storage size (memory_of self.old)) }
    {
        let number = self.blocks.len();
        let cells = vec![in self.alloc; first_cell(storage); size as usize]?;
        self.blocks.push(Block {
            is_live: true,
            storage,
            cells,
        })?;
        Ok(number)
    }

    /// A block ends.
    pub fn end(&mut self, block: usize)
        ensures { memory_of self.new ≡ memory.ended block (memory_of self.old) }
    {
        if block < self.blocks.len() {
            self.blocks[block] = Block {
                is_live: false,
                storage: Storage::Local,
                cells: Vec::new(self.alloc),
            };
        }
    }

    /// The block and the offset of so many bytes that a pointer points to.
    fn reach(&self, at: Pointer, count: u32) -> Result<(usize, usize), Act>
        ensures ok { IfOk result (λ r. Reaches at count self.now.blocks.items r.0 r.1) }
        ensures err { IfErr result (λ act. memory.reached at count (memory_of self.now) ≡ Err (act_number act)) }
    {
        match at {
            Pointer::Null => Err(Act::A4),
            Pointer::At { block, offset } => match self.blocks.get(block) {
                None => Err(Act::A5),
                Some(held) => {
                    if !held.is_live {
                        Err(Act::A5)
                    } else {
                        let is_inside = fits(offset, count, held.cells.len());
                        if is_inside {
                            Ok((block, offset))
                        } else {
                            Err(Act::A6)
                        }
                    }
                }
            },
        }
    }

    /// The value of this type that a pointer points to.
    pub fn read(&self, at: Pointer, scalar: Scalar) -> Result<Value, Act>
        ensures { answer result ≡ memory.read scalar at (memory_of self.now) }
    {
        let (block, offset) = self.reach(at, bytes_of(scalar))?;
        load(&self.blocks[block].cells, offset, scalar).ok_or(Act::A7)
    }

    /// A value is stored where a pointer points to.
    pub fn write(&mut self, at: Pointer, value: Value) -> Result<(), Act>
        ensures ok { OnOk result (memory.write at value (memory_of self.old) ≡ Ok (memory_of self.new)) }
        ensures err { IfErr result (λ act. memory.write at value (memory_of self.old) ≡ Err (act_number act)) }
        ensures same { IfErr result (λ _. memory_of self.new ≡ memory_of self.old) }
    {
        let (block, offset) = self.reach(at, size_of(value))?;
        put(&mut self.blocks[block].cells, offset, value);
        Ok(())
    }

    /// What a move of so many bytes, at most four, takes from where a pointer points to.
    fn take(&self, from: Pointer, count: u32) -> Result<[Cell; 4], Act>
        requires { count ≤ 4 }
        ensures ok { IfOk result (λ found. Takes from count self.now.blocks.items found) }
        ensures err { IfErr result (λ act. memory.reached from count (memory_of self.now) ≡ Err (act_number act)) }
    {
        let (block, offset) = self.reach(from, count)?;
        Ok(pieces(&self.blocks[block].cells, offset, count))
    }

    /// Cells are placed where a pointer points to.
    fn lay(&mut self, found: &[Cell], to: Pointer, count: u32) -> Result<(), Act>
        requires { count ≤ length found.now }
        ensures ok { OnOk result (memory.laid count (cell_at found.now) to (memory_of self.old) ≡ Ok (memory_of self.new)) }
        ensures err { IfErr result (λ act. memory.laid count (cell_at found.now) to (memory_of self.old) ≡ Err (act_number act)) }
        ensures same { IfErr result (λ _. memory_of self.new ≡ memory_of self.old) }
    {
        let (block, offset) = self.reach(to, count)?;
        place(&mut self.blocks[block].cells, offset, found, count);
        Ok(())
    }

    /// What stands in so many bytes, at most four, is moved, no value included.
    pub fn carry(&mut self, from: Pointer, to: Pointer, count: u32) -> Result<(), Act>
        requires { count ≤ 4 }
        ensures ok { OnOk result (memory.carry count from to (memory_of self.old) ≡ Ok (memory_of self.new)) }
        ensures err { IfErr result (λ act. memory.carry count from to (memory_of self.old) ≡ Err (act_number act)) }
        ensures same { IfErr result (λ _. memory_of self.new ≡ memory_of self.old) }
    {
        let found = self.take(from, count)?;
        self.lay(&found, to, count)?;
        Ok(())
    }

    /// The size of the block of this number, if it lives.
    pub fn size(&self, block: usize) -> Option<usize>
        ensures size { result ≡ option_map size_of_block ((memory_of self.now).block block) }
        ensures small { IfSome result (λ size. size < 2 ^ 63) }
    {
        let held = self.blocks.get(block)?;
        if held.is_live {
            Some(held.cells.len())
        } else {
            None
        }
    }

    /// What the block of this number is for, if it lives.
    pub fn storage(&self, block: usize) -> Option<Storage>
        ensures { result ≡ option_map storage_of_block ((memory_of self.now).block block) }
    {
        let held = self.blocks.get(block)?;
        if held.is_live {
            Some(held.storage)
        } else {
            None
        }
    }
}
