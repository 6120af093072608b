ghost use Rattle.std.specs.Prelude.{◌≡◌, ◌*◌, IfOk, OnOk};
ghost use Rattle.cc_whole.specs.Plain.{item_of, items_of, variables_of};
ghost use Rattle.cc_whole_memory.specs.Store.{memory_of};
ghost use Rattle.cc_whole_mean.specs.Start as start;
ghost use Rattle.cc_whole_start.specs.Table.{scope_of};
ghost use Rattle.cc_whole_start.specs.Walk as walk;

use crate::names::FileNames;
use crate::sizes::variable_size;
use cc_whole::{CInitialiser, CItem, CPair, CVariable};
use cc_whole_eval::{Names, constant_value};
use cc_whole_mean::Named;
use cc_whole_memory::{Pointer, Storage, Store, Value};
use cf_base::{Kind, Name};
use cf_types::convert_int;
use std::alloc::AllocError;

/// A value is put at an offset of a block. One that does not fit there is left out.
fn put_static(store: &mut Store, block: usize, offset: usize, value: Value)
    ensures { memory_of store.new ≡ start.put_static block offset value (memory_of store.old) }
{
    match store.write(Pointer::At { block, offset }, value) {
        Ok(()) => {}
        Err(_) => {}
    }
}

/// A byte as a char.
fn char_of(byte: u8) -> Value
    ensures { result ≡ walk.char_of byte }
{
    Value::Number(Kind::Char, convert_int(i64::from(byte), Kind::Char))
}

/// The bytes of a string are put at the front of a block.
fn put_text(store: &mut Store, block: usize, bytes: &[u8])
    ensures { memory_of store.new ≡ start.put_text bytes.now block 0 (memory_of store.old) }
{
    for (offset, byte) in bytes.iter().enumerate() {
        put_static(store, block, offset, char_of(*byte));
    }
}

fn function_in(named: Option<Named>) -> usize
    ensures { result ≡ start.function_in named }
{
    match named {
        None => 0,
        Some(Named::Variable(_, _)) => 0,
        Some(Named::Function(number)) => number,
    }
}

/// The number of a pair's function, or 0 for null.
fn pair_function(names: &FileNames<'_>, function: &Option<Name>) -> usize
    ensures { result ≡ start.pair_function (scope_of names.now) function.now }
{
    match function {
        None => 0,
        Some(name) => function_in(names.named(name.as_slice())),
    }
}

/// The offset of a pair in its block. No block is as long as 64 bits tell.
fn offset_of(index: usize) -> Result<usize, AllocError>
    ensures { IfOk result (λ offset. offset ≡ 8 * index) }
{
    8_usize.checked_mul(index).ok_or(AllocError)
}

/// A pair is put at its place in a block.
fn put_pair(
    store: &mut Store,
    names: &FileNames<'_>,
    block: usize,
    index: usize,
    pair: &CPair,
) -> Result<(), AllocError>
    ensures { OnOk result (memory_of store.new ≡ walk.put_pair (scope_of names.now) pair.now block (8 * index) (memory_of store.old)) }
{
    let offset = offset_of(index)?;
    put_static(store, block, offset, constant_value(pair.number));
    let function = pair_function(names, &pair.function);
    put_static(store, block, offset + 4, Value::Function(function));
    Ok(())
}

/// Pairs are put at the front of a block.
fn put_pairs(
    store: &mut Store,
    names: &FileNames<'_>,
    block: usize,
    pairs: &[CPair],
) -> Result<(), AllocError>
    ensures { OnOk result (memory_of store.new ≡ start.put_pairs (scope_of names.now) pairs.now block 0 (memory_of store.old)) }
{
    for (index, pair) in pairs.iter().enumerate() {
        put_pair(store, names, block, index, pair)?;
    }
    Ok(())
}

/// An initialiser takes effect at the front of a block.
fn initialise(
    store: &mut Store,
    names: &FileNames<'_>,
    block: usize,
    initialiser: &Option<CInitialiser>,
) -> Result<(), AllocError>
    ensures { OnOk result (memory_of store.new ≡ start.initialised (scope_of names.now) initialiser.now block (memory_of store.old)) }
{
    match initialiser {
        None => Ok(()),
        Some(CInitialiser::Text(bytes)) => {
            put_text(store, block, bytes.as_slice());
            Ok(())
        }
        Some(CInitialiser::Pairs(pairs)) => put_pairs(store, names, block, pairs.as_slice()),
    }
}

/// A new block for a variable, with what it begins with.
fn lay_variable(store: &mut Store, names: &FileNames<'_>, v: &CVariable) -> Result<(), AllocError>
    ensures { OnOk result (memory_of store.new ≡ walk.laid_variable (scope_of names.now) v.now (memory_of store.old)) }
{
    let size = variable_size(v.ty)?;
    let block = store.give(Storage::Static, size)?;
    initialise(store, names, block, &v.initialiser)
}

fn lay_item(store: &mut Store, names: &FileNames<'_>, item: &CItem) -> Result<(), AllocError>
    ensures { OnOk result (memory_of store.new ≡ walk.laid_item (scope_of names.now) (item_of item.now) (memory_of store.old)) }
{
    match item {
        CItem::Prototype(_) => Ok(()),
        CItem::Extern(_, _) => Ok(()),
        CItem::Function(_) => Ok(()),
        CItem::Variable(v) => lay_variable(store, names, v),
    }
}

/// New blocks for the variables among items, in order, with what they begin with.
pub fn lay_out(store: &mut Store, names: &FileNames<'_>, items: &[CItem]) -> Result<(), AllocError>
    ensures { OnOk result (memory_of store.new ≡ start.laid_out (scope_of names.now) (variables_of (items_of items.now)) (memory_of store.old)) }
{
    for item in items {
        lay_item(store, names, item)?;
    }
    Ok(())
}
