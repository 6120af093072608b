ghost use Rattle.std.specs.Prelude.{◌≡◌, ◌+◌, ◌<◌, ◌^◌, OnOk, IfOk};
ghost use Rattle.cc_whole.specs.Plain.{item_of, items_of, functions_of, variables_of};
ghost use Rattle.cc_whole.specs.Known.{library};
ghost use Rattle.cc_whole_mean.specs.Scope.{bind, bind_functions, bind_variables, function_names};
ghost use Rattle.cc_whole_mean.specs.Start.{file_names};
ghost use Rattle.cc_whole_start.specs.Table.{scope_of};
ghost use Rattle.cc_whole_start.specs.Walk.{variable_bound, block_behind, function_bound, number_behind, numbers_behind};

use crate::sizes::variable_shape;
use cc_whole::{CItem, CProgram};
use cc_whole_eval::Names;
use cc_whole_mean::Named;
use std::alloc::{AllocError, Global};
use std::collections::HashMap;

/// The names of a program's file: its variables, its functions, and the library functions.
#[derive(Drop)]
pub struct FileNames<'a> {
    table: HashMap<&'a [u8], Named>,
}

impl<'a> FileNames<'a> {
    /// The names of this program's file. Its variables stand in blocks from 0 on; its functions have numbers from 1 on, and the
    /// library functions those behind them.
    pub fn new(alloc: Global, program: &'a CProgram) -> Result<FileNames<'a>, AllocError>
        ensures { IfOk result (λ names. scope_of names ≡ file_names (items_of program.now.items)) }
    {
        let items = program.items.as_slice();
        let mut names = FileNames {
            table: HashMap::new(alloc),
        };
        names.add_variables(items)?;
        let number = names.add_functions(items)?;
        names.add_library(number)?;
        Ok(names)
    }

    /// Gives a name a meaning, which hides the one that it had.
    fn add(&mut self, name: &'a [u8], named: Named) -> Result<(), AllocError>
        ensures { OnOk result (scope_of self.new ≡ bind name.now named (scope_of self.old)) }
    {
        self.table.insert(name, named)?;
        Ok(())
    }

    /// Gives a variable's name its block, and tells the number of the next one.
    fn add_variable(&mut self, item: &'a CItem, block: usize) -> Result<usize, AllocError>
        requires { block < 2 ^ 63 }
        ensures names { OnOk result (scope_of self.new ≡ variable_bound (item_of item.now) block (scope_of self.old)) }
        ensures next { IfOk result (λ next. next ≡ block_behind (item_of item.now) block) }
    {
        match item {
            CItem::Prototype(_) => Ok(block),
            CItem::Extern(_, _) => Ok(block),
            CItem::Function(_) => Ok(block),
            CItem::Variable(v) => {
                self.add(
                    v.name.as_slice(),
                    Named::Variable(block, variable_shape(v.ty)),
                )?;
                Ok(block + 1)
            }
        }
    }

    fn add_variables(&mut self, items: &'a [CItem]) -> Result<(), AllocError>
        ensures { OnOk result (scope_of self.new ≡ bind_variables (variables_of (items_of items.now)) 0 (scope_of self.old)) }
    {
        let mut block = 0;
        for item in items {
            block = self.add_variable(item, block)?;
        }
        Ok(())
    }

    /// Gives a function's name its number, and tells the next one.
    fn add_function(&mut self, item: &'a CItem, number: usize) -> Result<usize, AllocError>
        requires { number < 2 ^ 63 + 1 }
        ensures names { OnOk result (scope_of self.new ≡ function_bound (item_of item.now) number (scope_of self.old)) }
        ensures next { IfOk result (λ next. next ≡ number_behind (item_of item.now) number) }
    {
        match item {
            CItem::Prototype(_) => Ok(number),
            CItem::Extern(_, _) => Ok(number),
            CItem::Function(f) => {
                self.add(f.prototype.name.as_slice(), Named::Function(number))?;
                Ok(number + 1)
            }
            CItem::Variable(_) => Ok(number),
        }
    }

    /// Gives the names of functions the numbers from 1 on, and tells the next one.
    fn add_functions(&mut self, items: &'a [CItem]) -> Result<usize, AllocError>
        ensures names { OnOk result (scope_of self.new ≡ bind_functions (function_names (functions_of (items_of items.now))) 1 (scope_of self.old)) }
        ensures next { IfOk result (λ next. next ≡ numbers_behind (items_of items.now) 1) }
        ensures few { IfOk result (λ next. next < 2 ^ 63 + 1) }
    {
        let mut number = 1;
        for item in items {
            number = self.add_function(item, number)?;
        }
        Ok(number)
    }

    /// Gives the library functions the numbers from this one on.
    fn add_library(&mut self, number: usize) -> Result<(), AllocError>
        requires { number < 2 ^ 63 + 1 }
        ensures { OnOk result (scope_of self.new ≡ bind_functions library number (scope_of self.old)) }
    {
        self.add(b"putchar".as_slice(), Named::Function(number))?;
        self.add(b"getchar".as_slice(), Named::Function(number + 1))?;
        self.add(b"exit".as_slice(), Named::Function(number + 2))?;
        self.add(b"malloc".as_slice(), Named::Function(number + 3))?;
        self.add(b"free".as_slice(), Named::Function(number + 4))?;
        self.add(b"atexit".as_slice(), Named::Function(number + 5))
    }
}

impl<'a> Names for FileNames<'a> {
    ghost use Rattle.std.specs.Prelude.{◌≡◌};
    ghost use Rattle.cc_whole_start.specs.Table.{scope_of};

    ghost scope = { λ names. scope_of names };

    fn named(&self, name: &[u8]) -> Option<Named> {
        self.table.get(name).copied()
    }
}
