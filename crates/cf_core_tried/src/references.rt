//! References and what they are bound to (8.4.3, 12.2).

use crate::build::{Build, List, Tree};
use crate::file::File;
use crate::shapes::{INT, const_reference, pointer, reference, scalar};
use crate::trial::{comes_to, ended};
use cf_base::{Arith, Kind};
use cf_core::PointerOperator;
use cf_core_run::End;
use cf_run_tree::Unary;
use std::test::Fail;

/// The link name of `f(const int&)`.
const READER: &[u8] = b"f__FRCi";

/// `return r;`
fn reading(b: Build) -> List {
    b.list().then(b.give(b.held(0)))
}

/// `f(place)`
fn called(b: Build, place: Tree) -> Tree {
    b.call(READER, &[const_reference()], b.list().then(b.bind(place)))
}

/// `j=j+1;`
fn raise(b: Build) -> Tree {
    let more = b.operate(Arith::Add, Kind::Int, b.held(1), b.number(1));
    b.full(b.store(b.local(1), more))
}

/// `f(i)+f(2)`: the second argument is a temporary.
fn both(b: Build) -> Tree {
    let first = called(b, b.local(0));
    let second = called(b, b.temporary(b.number(2)));
    b.operate(Arith::Add, Kind::Int, first, second)
}

/// `int i=4;int&j=i;j=j+1;return f(i)+f(2);`
fn raising(b: Build) -> List {
    b.list()
        .then(b.declare(0, scalar(INT), b.number(4)))
        .then(b.declare(1, scalar(reference()), b.bind(b.local(0))))
        .then(raise(b))
        .then(b.give(both(b)))
}

/// A reference names its object, also behind a call, and a temporary where there is none.
#[test]
fn objects_and_temporaries(rt: HostRuntime) -> Result<(), Fail> {
    let b = Build { alloc: rt.alloc() };
    let file = File::new(b)
        .function(READER, &[const_reference()], &[], reading(b))
        .main(&[scalar(INT), scalar(reference())], raising(b));
    comes_to(&rt, file, b"(__main)(f__FRCi)(f__FRCi)", ended(7))
}

/// `int*p=` the address of a temporary of 2; and then this
fn outlived(b: Build, then: Tree) -> List {
    let address = b.apply(Unary::Address, b.temporary(b.number(2)));
    b.list()
        .then(b.declare(0, scalar(pointer()), address))
        .then(then)
}

/// `return *p;`
fn read_behind(b: Build) -> Tree {
    b.give(b.read(b.behind(b.held(0))))
}

/// A temporary ends with its full expression, and is not read behind it.
#[test]
fn temporary_has_ended(rt: HostRuntime) -> Result<(), Fail> {
    let b = Build { alloc: rt.alloc() };
    let file = File::new(b).main(&[scalar(pointer())], outlived(b, read_behind(b)));
    comes_to(&rt, file, b"(__main)", End::Undefined(5))
}

/// `return p+0==0;`
fn move_behind(b: Build) -> Tree {
    let moved = b.point(PointerOperator::Add, b.held(0), b.number(0));
    let null = b.apply(Unary::Convert(pointer()), b.number(0));
    b.give(b.point(PointerOperator::Equal, moved, null))
}

/// Nor is a pointer to it moved, even by no element.
#[test]
fn pointer_to_ended_is_moved(rt: HostRuntime) -> Result<(), Fail> {
    let b = Build { alloc: rt.alloc() };
    let file = File::new(b).main(&[scalar(pointer())], outlived(b, move_behind(b)));
    comes_to(&rt, file, b"(__main)", End::Undefined(5))
}
