//! Calls through pointers (5.2.2): what is called comes first, then the arguments from left to right, and the function is entered last.

use crate::build::{Build, List, Tree};
use crate::file::File;
use crate::shapes::{INT, function_pointer, scalar};
use crate::trial::{comes_to, ended, has_none};
use cf_base::{Arith, Kind};
use cf_core_run::End;
use cf_run_tree::Unary;
use std::test::Fail;

/// The link names of `g(int)` and `f(int,int)`.
const SHOWER: &[u8] = b"g__Fi";

const TAKER: &[u8] = b"f__Fii";

/// `putchar('0'+a);return a;`
fn showing(b: Build) -> List {
    let digit = b.operate(Arith::Add, Kind::Int, b.number(48), b.held(0));
    b.list().then(b.full(b.put(digit))).then(b.give(b.held(0)))
}

/// `return a-b;`
fn taking(b: Build) -> List {
    let difference = b.operate(Arith::Subtract, Kind::Int, b.held(0), b.held(1));
    b.list().then(b.give(difference))
}

/// `g(number)`
fn shown(b: Build, number: i64) -> Tree {
    b.call(SHOWER, &[INT], b.list().then(b.number(number)))
}

/// `p(g(3),g(1))`
fn through(b: Build) -> Tree {
    let arguments = b.list().then(shown(b, 3)).then(shown(b, 1));
    b.call_through(b.held(0), &[INT, INT], arguments)
}

/// `int(*p)(int,int)=` this pointer; `return p(g(3),g(1));`
fn calling(b: Build, start: Tree) -> List {
    b.list()
        .then(b.declare(0, scalar(function_pointer()), start))
        .then(b.give(through(b)))
}

/// The file with both functions, and with `main` so.
fn file_of(b: Build, statements: List) -> File {
    File::new(b)
        .function(SHOWER, &[INT], &[], showing(b))
        .function(TAKER, &[INT, INT], &[], taking(b))
        .main(&[scalar(function_pointer())], statements)
}

#[test]
fn function_behind_pointer(rt: HostRuntime) -> Result<(), Fail> {
    let b = Build { alloc: rt.alloc() };
    let file = file_of(b, calling(b, b.function(TAKER, &[INT, INT])));
    let trace = b"(__main)(g__Fi)>3(g__Fi)>1(f__Fii)";
    comes_to(&rt, file, trace.as_slice(), ended(2))
}

/// A null pointer is used by the call itself, behind its arguments.
#[test]
fn null_is_called(rt: HostRuntime) -> Result<(), Fail> {
    let b = Build { alloc: rt.alloc() };
    let null = b.apply(Unary::Convert(function_pointer()), b.number(0));
    let file = file_of(b, calling(b, null));
    let trace = b"(__main)(g__Fi)>3(g__Fi)>1";
    comes_to(&rt, file, trace.as_slice(), End::Undefined(4))
}

/// No core of elaboration calls a function of one parameter with two arguments, through a pointer neither.
#[test]
fn other_number_of_parameters(rt: HostRuntime) -> Result<(), Fail> {
    let b = Build { alloc: rt.alloc() };
    let file = file_of(b, calling(b, b.function(SHOWER, &[INT])));
    has_none(&rt, file)
}
