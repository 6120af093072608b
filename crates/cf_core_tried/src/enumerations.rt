//! Enumerations (7.2) and the labels of a `switch` (6.4.2).

use crate::build::{Build, List};
use crate::file::File;
use crate::shapes::{open, scalar};
use crate::trial::{comes_to, ended};
use cf_base::Kind;
use cf_run_tree::{Form, Shape};
use std::test::Fail;

/// `enum E{P,Q=5,R};`
fn enumeration() -> Shape {
    open(Form::Enumeration(0))
}

/// `case Q:return 1;case R:return 2;`
fn labelled(b: Build) -> List {
    b.list()
        .then(b.label(5))
        .then(b.give(b.number(1)))
        .then(b.label(6))
        .then(b.give(b.number(2)))
}

/// `E e=R;switch(e){case Q:return 1;case R:return 2;}return 3;`
fn choosing(b: Build) -> List {
    let operand = b.convert(Kind::Int, b.held(0));
    b.list()
        .then(b.declare(0, scalar(enumeration()), b.number(6)))
        .then(b.switch(operand, labelled(b)))
        .then(b.give(b.number(3)))
}

/// An enumerator without a value is one more than the last, and its label is where the body begins.
#[test]
fn labels(rt: HostRuntime) -> Result<(), Fail> {
    let b = Build { alloc: rt.alloc() };
    let file = File::new(b).main(&[scalar(enumeration())], choosing(b));
    comes_to(&rt, file, b"(__main)", ended(2))
}
