ghost use Rattle.std.specs.Prelude.{◌≡◌, ℕ, ◌+◌, ◌≤◌, ◌<◌, ◌^◌, length};
ghost use Rattle.cc_whole_memory.specs.Values as values;
ghost use Rattle.cc_whole_memory.specs.Cells as standing;
ghost use Rattle.cc_whole_memory.specs.Lists.{cell_at};

use crate::value::{Scalar, Value, as_scalar, bytes_of, size_of, zero_of};

/// What stands at an offset of a block.
#[derive(Clone, Copy, Debug, PartialEq, Eq)]
pub enum Cell {
    /// Nothing has written this byte of a static block: it is part of a 0 or a null.
    Zero,
    /// No value begins here.
    Gone,
    /// This value begins here.
    Stored(Value),
}

/// How many bytes a cell takes.
fn span(cell: Cell) -> u32
    ensures { result ≡ standing.span cell }
{
    match cell {
        Cell::Zero => 1,
        Cell::Gone => 1,
        Cell::Stored(value) => size_of(value),
    }
}

/// Whether nothing has written so many bytes from here on.
fn zeros(cells: &[Cell], at: usize, count: u32) -> bool
    ensures { result ≡ standing.zeros (cell_at cells.now) at count }
{
    if count == 0 {
        return true;
    }
    match cells.get(at) {
        Some(Cell::Zero) => zeros(cells, at + 1, count - 1),
        _ => false,
    }
}

/// The value of this type that stands at an offset, if there is one.
pub fn load(cells: &[Cell], at: usize, scalar: Scalar) -> Option<Value>
    ensures { result ≡ standing.load scalar (cell_at cells.now) at }
{
    match cells.get(at) {
        None => None,
        Some(Cell::Gone) => None,
        Some(Cell::Zero) => {
            if zeros(cells, at, bytes_of(scalar)) {
                Some(zero_of(scalar))
            } else {
                None
            }
        }
        Some(Cell::Stored(value)) => {
            if size_of(*value) == bytes_of(scalar) {
                as_scalar(*value, scalar)
            } else {
                None
            }
        }
    }
}

/// What is left of a cell at an offset once so many bytes from another on are written.
fn left(at: usize, count: u32, offset: usize, cell: Cell) -> Cell
    requires written { at + count ≤ 2 ^ 63 }
    requires offset { offset ≤ 2 ^ 63 }
    ensures { result ≡ standing.left at count offset cell }
{
    if offset < at + count as usize && at < offset + span(cell) as usize {
        Cell::Gone
    } else {
        cell
    }
}

/// So many bytes hold no value from now on.
fn clear(cells: &mut Vec<Cell>, at: usize, count: u32)
    requires { at + count ≤ length cells.old.items }
    ensures cells { cell_at cells.new.items ≡ standing.cleared at count (cell_at cells.old.items) }
    ensures length { length cells.new.items ≡ length cells.old.items }
{
    for offset in at.saturating_sub(3)..at + count as usize {
        cells[offset] = left(at, count, offset, cells[offset]);
    }
}

/// A value is stored: every value that it overlaps ends.
pub fn put(cells: &mut Vec<Cell>, at: usize, value: Value)
    requires { at + values.size_of value ≤ length cells.old.items }
    ensures cells { cell_at cells.new.items ≡ standing.put value at (cell_at cells.old.items) }
    ensures length { length cells.new.items ≡ length cells.old.items }
{
    clear(cells, at, size_of(value));
    cells[at] = Cell::Stored(value);
}

/// What a move of so many bytes takes from the cell at one of them.
fn whole(cells: &[Cell], at: usize, count: u32, index: u32) -> Cell
    requires inside { at + count ≤ length cells.now }
    requires index { index < count }
    requires few { count ≤ 4 }
    ensures { result ≡ standing.whole count index (cell_at cells.now (at + index)) }
{
    match cells.get(at + index as usize) {
        None => Cell::Gone,
        Some(Cell::Stored(value)) => {
            if index + size_of(*value) <= count {
                Cell::Stored(*value)
            } else {
                Cell::Gone
            }
        }
        Some(cell) => *cell,
    }
}

/// What a move of so many bytes, at most four, takes from an offset on.
pub fn pieces(cells: &[Cell], at: usize, count: u32) -> [Cell; 4]
    requires inside { at + count ≤ length cells.now }
    requires few { count ≤ 4 }
    ensures length { length result ≡ 4 }
    ensures pieces { (index : ℕ) → index < count → cell_at result index ≡ standing.whole count index (cell_at cells.now (at + index)) }
{
    let mut found = [Cell::Gone; 4];
    for index in 0..count {
        found[index as usize] = whole(cells, at, count, index);
    }
    found
}

/// These cells are placed at an offset: every value that they overlap ends.
pub fn place(cells: &mut Vec<Cell>, at: usize, pieces: &[Cell], count: u32)
    requires inside { at + count ≤ length cells.old.items }
    requires enough { count ≤ length pieces.now }
    ensures cells { cell_at cells.new.items ≡ standing.placed count (cell_at pieces.now) at (cell_at cells.old.items) }
    ensures length { length cells.new.items ≡ length cells.old.items }
{
    clear(cells, at, count);
    for index in 0..count as usize {
        cells[at + index] = pieces[index];
    }
}
