ghost use Rattle.std.specs.Prelude.{◌≡◌, ◌+◌, length, IfOk, OnOk};
ghost use Rattle.cc_whole_memory.specs.Blocks as blocks;
ghost use Rattle.cc_whole_memory.specs.Store.{memory_of};
ghost use Rattle.cc_whole_memory.specs.declared.store.Storage.TheVariants as storage;
ghost use Rattle.cc_whole_mean.specs.Types as types;
ghost use Rattle.cc_whole_mean.specs.Flow as flow;
ghost use Rattle.cc_whole_start.specs.First.{first_of};

use crate::sizes::local_size;
use cc_whole::CLocal;
use cc_whole_memory::{Pointer, Storage, Store, Value, size_of};
use std::alloc::AllocError;

/// A new block for a local, without a value, and its number.
fn born_local(store: &mut Store, local: &CLocal) -> Result<usize, AllocError>
    ensures born { OnOk result (memory_of store.new ≡ blocks.born storage.Local (types.local_size local.now.ty) (memory_of store.old)) }
    ensures number { IfOk result (λ block. block ≡ (memory_of store.old).next) }
{
    let size = local_size(local.ty)?;
    store.give(Storage::Local, size)
}

fn born_more_locals(store: &mut Store, locals: &[CLocal]) -> Result<(), AllocError>
    ensures { OnOk result (memory_of store.new ≡ flow.born_locals locals.now (memory_of store.old)) }
{
    for local in locals {
        born_local(store, local)?;
    }
    Ok(())
}

/// New blocks for the locals of a body, without values, and the number of the first one, or 0 where there is none.
pub fn born_locals(store: &mut Store, locals: &[CLocal]) -> Result<usize, AllocError>
    ensures born { OnOk result (memory_of store.new ≡ flow.born_locals locals.now (memory_of store.old)) }
    ensures first { IfOk result (λ block. block ≡ first_of (length locals.now) (memory_of store.old)) }
{
    match locals.split_first() {
        None => Ok(0),
        Some((local, rest)) => {
            let first = born_local(store, local)?;
            born_more_locals(store, rest)?;
            Ok(first)
        }
    }
}

/// A new block that holds this value, and its number.
fn born_holding(store: &mut Store, value: Value) -> Result<usize, AllocError>
    ensures born { OnOk result (memory_of store.new ≡ flow.born_holding value (memory_of store.old)) }
    ensures number { IfOk result (λ block. block ≡ (memory_of store.old).next) }
{
    let block = store.give(Storage::Local, size_of(value))?;
    store
        .write(Pointer::At { block, offset: 0 }, value)
        .unwrap();
    Ok(block)
}

fn born_more_arguments(store: &mut Store, values: &[Value]) -> Result<(), AllocError>
    ensures { OnOk result (memory_of store.new ≡ flow.born_arguments values.now (memory_of store.old)) }
{
    for value in values {
        born_holding(store, *value)?;
    }
    Ok(())
}

/// New blocks for the parameters of a function, which hold these arguments, and the number of the first one, or 0 where there is none.
pub fn born_arguments(store: &mut Store, values: &[Value]) -> Result<usize, AllocError>
    ensures born { OnOk result (memory_of store.new ≡ flow.born_arguments values.now (memory_of store.old)) }
    ensures first { IfOk result (λ block. block ≡ first_of (length values.now) (memory_of store.old)) }
{
    match values.split_first() {
        None => Ok(0),
        Some((value, rest)) => {
            let first = born_holding(store, *value)?;
            born_more_arguments(store, rest)?;
            Ok(first)
        }
    }
}

/// The block at a place among those from this number on ends.
fn end_block(store: &mut Store, first: usize, index: usize)
    ensures { memory_of store.new ≡ blocks.ended (first + index) (memory_of store.old) }
{
    if let Some(block) = first.checked_add(index) {
        store.end(block);
    }
}

/// As many blocks end, from this number on.
pub fn end_blocks(store: &mut Store, first: usize, count: usize)
    ensures { memory_of store.new ≡ flow.ended_from count first (memory_of store.old) }
{
    for index in 0..count {
        end_block(store, first, index);
    }
}
