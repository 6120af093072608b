ghost use Rattle.std.specs.Prelude.{◌≡◌, ◌<◌, ◌^◌, Ok, Err, IfOk, IfErr, IfSome};
ghost use Rattle.cc_whole_memory.specs.Blocks as memory;
ghost use Rattle.cc_whole_memory.specs.Store.{memory_of, act_number};

use crate::act::Act;
use crate::store::{Storage, Store};
use crate::value::Pointer;
use std::alloc::AllocError;

/// What a block of this size is charged of the heap's limit.
fn charge(size: u64) -> u64
    ensures { result ≡ memory.charge size }
{
    if size < 8 { 8 } else { size }
}

/// Whether `malloc` gave a block for this.
fn is_heap(storage: Storage) -> bool
    ensures { result ≡ memory.is_heap storage }
{
    match storage {
        Storage::Static => false,
        Storage::Local => false,
        Storage::Heap => true,
    }
}

impl Store {
    /// `malloc`: a pointer to a new block, or null where its charge passes what is left of the heap's limit; and what is then left.
    pub fn allot(&mut self, size: u32, heap: u64) -> Result<(Pointer, u64), AllocError>
        ensures { IfOk result (λ r. memory.allotted size heap (memory_of self.old) ≡ record { pointer = r.0; heap = r.1; memory = memory_of self.new }) }
    {
        let cost = charge(u64::from(size));
        if heap < cost {
            return Ok((Pointer::Null, heap));
        }
        let block = self.give(Storage::Heap, size)?;
        Ok((Pointer::At { block, offset: 0 }, heap - cost))
    }

    /// The size of the block of this number, if it lives and `malloc` gave it.
    fn heap_size(&self, block: usize) -> Option<usize>
        ensures size { result ≡ memory.heap_size ((memory_of self.now).block block) }
        ensures small { IfSome result (λ size. size < 2 ^ 63) }
    {
        let storage = self.storage(block)?;
        if is_heap(storage) {
            self.size(block)
        } else {
            None
        }
    }

    /// `free`: the block that a pointer points to ends, and its charge is left again. Null is ignored.
    pub fn free(&mut self, at: Pointer, heap: u64) -> Result<u64, Act>
        requires { heap < 2 ^ 63 }
        ensures ok { IfOk result (λ left. memory.freed at heap (memory_of self.old) ≡ Ok (record { heap = left; memory = memory_of self.new })) }
        ensures err { IfErr result (λ act. memory.freed at heap (memory_of self.old) ≡ Err (act_number act)) }
    {
        match at {
            Pointer::Null => Ok(heap),
            Pointer::At { block, offset } => match self.heap_size(block) {
                None => Err(Act::A10),
                Some(size) => {
                    if offset != 0 {
                        return Err(Act::A10);
                    }
                    self.end(block);
                    Ok(heap + charge(size as u64))
                }
            },
        }
    }
}
