//! Files by their parts.

use crate::build::{Build, List, Tree};
use crate::shapes::signature;
use cf_base::{Items, Memory, Name};
use cf_run_tree::{Node, ObjectType, Program, RunFn, RunStatic, Shape};
use std::alloc::Global;

/// A file, or want of memory.
#[derive(Drop)]
pub struct File {
    alloc: Global,
    program: Result<Program, Memory>,
}

impl File {
    /// The file that defines nothing.
    pub fn new(b: Build) -> File {
        let alloc = b.alloc;
        File {
            alloc,
            program: Ok(Program {
                functions: Items::new(alloc),
                statics: Items::new(alloc),
            }),
        }
    }

    /// And a function of this name, with its parameters, its locals behind them and its statements. It gives an int.
    pub fn function(
        self,
        name: &[u8],
        params: &[Shape],
        locals: &[ObjectType],
        statements: List,
    ) -> File {
        let File { alloc, program } = self;
        let head = Head {
            name,
            params,
            locals,
        };
        File {
            alloc,
            program: with_function(alloc, program, head, statements),
        }
    }

    pub fn alloc(&self) -> Global {
        self.alloc
    }

    /// The program of the file.
    pub fn whole(self) -> Result<Program, Memory> {
        let File { alloc: _, program } = self;
        program
    }

    /// And `main`, with its locals and its statements.
    pub fn main(self, locals: &[ObjectType], statements: List) -> File {
        self.function(b"__main".as_slice(), &[], locals, statements)
    }

    /// And a static object of this name and type, with its constant initialiser.
    pub fn object(self, name: &[u8], ty: ObjectType, start: Tree) -> File {
        let File { alloc, program } = self;
        File {
            alloc,
            program: with_object(alloc, program, name, ty, start),
        }
    }
}

/// A function but for its statements.
#[derive(Clone, Copy)]
struct Head<'a> {
    name: &'a [u8],
    params: &'a [Shape],
    locals: &'a [ObjectType],
}

fn function_of(alloc: Global, head: Head<'_>, statements: Items<Node>) -> Result<RunFn, Memory> {
    let name = Name::from_slice(alloc, head.name)?;
    let signature = signature(alloc, head.params)?;
    let locals = Items::from_slice(alloc, head.locals)?;
    Ok(RunFn {
        name,
        signature,
        locals,
        body: Node::Block(statements),
        is_shared: false,
        is_local: false,
    })
}

fn with_function(
    alloc: Global,
    program: Result<Program, Memory>,
    head: Head<'_>,
    statements: List,
) -> Result<Program, Memory> {
    let mut program = program?;
    let statements = statements.trees?;
    program
        .functions
        .push(function_of(alloc, head, statements)?)?;
    Ok(program)
}

fn object_of(alloc: Global, name: &[u8], ty: ObjectType, start: Tree) -> Result<RunStatic, Memory> {
    let name = Name::from_slice(alloc, name)?;
    let start = start?;
    Ok(RunStatic {
        name,
        ty,
        start: start.into_inner(),
        owner: None,
        is_constant: true,
        is_shared: false,
        is_local: false,
    })
}

fn with_object(
    alloc: Global,
    program: Result<Program, Memory>,
    name: &[u8],
    ty: ObjectType,
    start: Tree,
) -> Result<Program, Memory> {
    let mut program = program?;
    program.statics.push(object_of(alloc, name, ty, start)?)?;
    Ok(program)
}
