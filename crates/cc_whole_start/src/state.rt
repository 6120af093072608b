ghost use Rattle.std.specs.Prelude.{◌≡◌, length, IfOk};
ghost use Rattle.cc_whole.specs.Plain.{item_of, items_of, variables_of};
ghost use Rattle.cc_whole_memory.specs.Store.{memory_of};
ghost use Rattle.cc_whole_mean.specs.Start.{file_names, first_state};
ghost use Rattle.cc_whole_start.specs.Table.{scope_of};
ghost use Rattle.cc_whole_start.specs.Walk.{blocks_of};

use crate::names::FileNames;
use crate::statics::lay_out;
use cc_whole::{CItem, CProgram};
use cc_whole_memory::Store;
use std::alloc::{AllocError, Global};

/// What stands before `main` begins.
#[derive(Drop)]
pub struct Start<'a> {
    /// The names of the file.
    pub names: FileNames<'a>,
    /// The variables, with what they begin with.
    pub store: Store,
    /// The number of the next block.
    pub next: usize,
}

fn blocks_of(item: &CItem) -> usize
    ensures { result ≡ blocks_of (item_of item.now) }
{
    match item {
        CItem::Prototype(_) => 0,
        CItem::Extern(_, _) => 0,
        CItem::Function(_) => 0,
        CItem::Variable(_) => 1,
    }
}

/// How many variables are defined.
fn count_variables(items: &[CItem]) -> usize
    ensures { result ≡ length (variables_of (items_of items.now)) }
{
    let mut count = 0;
    for item in items {
        count += blocks_of(item);
    }
    count
}

impl<'a> Start<'a> {
    /// The names of a program's file, and its variables in memory. Nothing is registered for `exit`.
    pub fn new(alloc: Global, program: &'a CProgram) -> Result<Start<'a>, AllocError>
        ensures names { IfOk result (λ s. scope_of s.names ≡ file_names (items_of program.now.items)) }
        ensures memory { IfOk result (λ s. memory_of s.store ≡ (first_state (items_of program.now.items)).memory) }
        ensures next { IfOk result (λ s. s.next ≡ (first_state (items_of program.now.items)).memory.next) }
    {
        let items = program.items.as_slice();
        let names = FileNames::new(alloc, program)?;
        let mut store = Store::new(alloc);
        lay_out(&mut store, &names, items)?;
        let next = count_variables(items);
        Ok(Start { names, store, next })
    }
}
