//! Arithmetic on integers (3.6.1, 4.1, 5.7).

use crate::build::{Build, List, Tree};
use crate::file::File;
use crate::shapes::{INT, open, scalar};
use crate::trial::{comes_to, ended};
use cf_base::{Arith, Kind};
use cf_core_run::End;
use cf_run_tree::Form;
use std::test::Fail;

/// `a=a+b;`
fn raise(b: Build) -> Tree {
    let sum = b.operate(Arith::Add, Kind::Int, b.held(0), b.held(1));
    b.full(b.store(b.local(0), sum))
}

/// `int a=2147483647;int b=1;putchar('a');a=a+b;putchar('b');return 0;`
fn raising(b: Build) -> List {
    b.list()
        .then(b.declare(0, scalar(INT), b.number(2147483647)))
        .then(b.declare(1, scalar(INT), b.number(1)))
        .then(b.show(97))
        .then(raise(b))
        .then(b.show(98))
        .then(b.give(b.number(0)))
}

/// A signed sum out of range is an act, and what was put before it stays put.
#[test]
fn overflow(rt: HostRuntime) -> Result<(), Fail> {
    let b = Build { alloc: rt.alloc() };
    let file = File::new(b).main(&[scalar(INT), scalar(INT)], raising(b));
    comes_to(&rt, file, b"(__main)>a", End::Undefined(1))
}

/// `(a-1)==b`, both as unsigned long
fn compared(b: Build) -> Tree {
    let less = b.operate(Arith::Subtract, Kind::UInt, b.held(0), b.number(1));
    let left = b.convert(Kind::ULong, less);
    let right = b.convert(Kind::ULong, b.held(1));
    b.operate(Arith::Equal, Kind::ULong, left, right)
}

/// `unsigned a=0;long b=-1;return (a-1)==b;`
fn wrapping(b: Build) -> List {
    let unsigned = scalar(open(Form::Integer(Kind::UInt)));
    let long = scalar(open(Form::Integer(Kind::Long)));
    b.list()
        .then(b.declare(0, unsigned, b.number(0)))
        .then(b.declare(1, long, b.number(-1)))
        .then(b.give(compared(b)))
}

/// Unsigned arithmetic is modulo 2 to its width, and `long` with `unsigned` compares as unsigned long.
#[test]
fn unsigned_arithmetic(rt: HostRuntime) -> Result<(), Fail> {
    let b = Build { alloc: rt.alloc() };
    let unsigned = scalar(open(Form::Integer(Kind::UInt)));
    let long = scalar(open(Form::Integer(Kind::Long)));
    let file = File::new(b).main(&[unsigned, long], wrapping(b));
    comes_to(&rt, file, b"(__main)", ended(1))
}
