//! Arrays, their elements and their ends (5.7, 8.2.4).

use crate::build::{Build, List, Tree};
use crate::file::File;
use crate::shapes::{ints, pointer, scalar};
use crate::trial::{comes_to, ended};
use cf_core::PointerOperator;
use cf_core_run::End;
use cf_run_tree::Unary;
use std::process::Abort;
use std::test::Fail;

/// `a`, as a pointer to its first element
fn start(b: Build) -> Tree {
    b.first(b.named(b"a".as_slice(), ints(3)))
}

/// `p=p+count;`
fn move_on(b: Build, count: i64) -> Tree {
    let further = b.point(PointerOperator::Add, b.held(0), b.number(count));
    b.full(b.store(b.local(0), further))
}

/// `int*p=a;p=p+count;`
fn moved(b: Build, count: i64) -> List {
    b.list()
        .then(b.declare(0, scalar(pointer()), start(b)))
        .then(move_on(b, count))
}

/// `int a[3];int main(){statements}` comes to this end.
fn ends(rt: &impl Abort, b: Build, statements: List, end: End) -> Result<(), Fail> {
    let file = File::new(b)
        .object(b"a".as_slice(), ints(3), b.blank())
        .main(&[scalar(pointer())], statements);
    comes_to(rt, file, b"(__main)", end)
}

/// `*p=1;`
fn write(b: Build) -> Tree {
    b.full(b.store(b.behind(b.held(0)), b.number(1)))
}

/// The end behind the last element is no element.
#[test]
fn end_is_no_element(rt: HostRuntime) -> Result<(), Fail> {
    let b = Build { alloc: rt.alloc() };
    let statements = moved(b, 3).then(write(b)).then(b.give(b.number(0)));
    ends(&rt, b, statements, End::Undefined(6))
}

/// `return p-a;`
fn distance(b: Build) -> Tree {
    b.give(b.point(PointerOperator::Difference, b.held(0), start(b)))
}

/// A pointer may go to the end behind the last element, and be counted with.
#[test]
fn end_is_reached(rt: HostRuntime) -> Result<(), Fail> {
    let b = Build { alloc: rt.alloc() };
    ends(&rt, b, moved(b, 3).then(distance(b)), ended(3))
}

/// And not past it.
#[test]
fn end_is_passed(rt: HostRuntime) -> Result<(), Fail> {
    let b = Build { alloc: rt.alloc() };
    ends(&rt, b, moved(b, 4).then(distance(b)), End::Undefined(6))
}

/// `(void*)(&a+1)==(void*)(a+3)`
fn ends_compared(b: Build) -> Tree {
    let array = b.apply(Unary::Address, b.named(b"a".as_slice(), ints(3)));
    let behind = b.point(PointerOperator::Add, array, b.number(1));
    let last = b.point(PointerOperator::Add, start(b), b.number(3));
    b.point(PointerOperator::Equal, behind, last)
}

/// The end of an array and the end behind its last element are two ends, and are not compared.
#[test]
fn two_ends(rt: HostRuntime) -> Result<(), Fail> {
    let b = Build { alloc: rt.alloc() };
    let statements = moved(b, 0).then(b.give(ends_compared(b)));
    ends(&rt, b, statements, End::Undefined(10))
}
