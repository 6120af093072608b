//! The order in which parts of an expression are evaluated: from left to right, what is stored to before the value.

use crate::build::{Build, List, Tree};
use crate::file::File;
use crate::shapes::{INT, ints};
use crate::trial::{comes_to, ended, runs};
use cf_base::{Arith, Kind};
use cf_core_run::Limits;
use std::test::Fail;

/// The link names of `g(int)` and `f(int,int)`.
const SHOWER: &[u8] = b"g__Fi";

const ADDER: &[u8] = b"f__Fii";

/// `putchar('0'+a);return a;`
fn showing(b: Build) -> List {
    let digit = b.operate(Arith::Add, Kind::Int, b.number(48), b.held(0));
    b.list().then(b.full(b.put(digit))).then(b.give(b.held(0)))
}

/// `return a+b;`
fn adding(b: Build) -> List {
    let sum = b.operate(Arith::Add, Kind::Int, b.held(0), b.held(1));
    b.list().then(b.give(sum))
}

/// `g(number)`
fn shown(b: Build, number: i64) -> Tree {
    b.call(SHOWER, &[INT], b.list().then(b.number(number)))
}

/// `return f(g(1),g(2));`
fn calling(b: Build) -> List {
    let arguments = b.list().then(shown(b, 1)).then(shown(b, 2));
    b.list().then(b.give(b.call(ADDER, &[INT, INT], arguments)))
}

#[test]
fn arguments(rt: HostRuntime) -> Result<(), Fail> {
    let b = Build { alloc: rt.alloc() };
    let file = File::new(b)
        .function(SHOWER, &[INT], &[], showing(b))
        .function(ADDER, &[INT, INT], &[], adding(b))
        .main(&[], calling(b));
    let trace = b"(__main)(g__Fi)>1(g__Fi)>2(f__Fii)";
    comes_to(&rt, file, trace.as_slice(), ended(3))
}

/// `return putchar('a')-putchar('b');`
fn subtracting(b: Build) -> List {
    let left = b.put(b.number(97));
    let right = b.put(b.number(98));
    b.list()
        .then(b.give(b.operate(Arith::Subtract, Kind::Int, left, right)))
}

/// The functions of the library spend no tick, and are not entered.
#[test]
fn operands(rt: HostRuntime) -> Result<(), Fail> {
    let b = Build { alloc: rt.alloc() };
    let file = File::new(b).main(&[], subtracting(b));
    let limits = Limits { ticks: 1, depth: 1 };
    let trace = b"(__main)>a>b".as_slice();
    runs(&rt, file, limits, trace, ended(-1))
}

/// `a[index]`
fn element(b: Build, index: Tree) -> Tree {
    b.element(b.named(b"a".as_slice(), ints(3)), index)
}

/// `a[g(1)]=g(2);return a[1];`
fn storing(b: Build) -> List {
    let store = b.store(element(b, shown(b, 1)), shown(b, 2));
    b.list()
        .then(b.full(store))
        .then(b.give(b.read(element(b, b.number(1)))))
}

#[test]
fn place_before_value(rt: HostRuntime) -> Result<(), Fail> {
    let b = Build { alloc: rt.alloc() };
    let file = File::new(b)
        .object(b"a".as_slice(), ints(3), b.blank())
        .function(SHOWER, &[INT], &[], showing(b))
        .main(&[], storing(b));
    let trace = b"(__main)(g__Fi)>1(g__Fi)>2";
    comes_to(&rt, file, trace.as_slice(), ended(2))
}
