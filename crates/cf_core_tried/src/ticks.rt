//! Ticks, which functions that are entered and turns that begin spend, and depth.

use crate::build::{Build, List, Tree};
use crate::file::File;
use crate::shapes::{INT, scalar};
use crate::trial::{does, ended, runs};
use cf_base::{Arith, Kind};
use cf_core_run::{End, Limits};
use std::test::Fail;

/// `int main(){return 7;}`
fn seven(b: Build) -> File {
    File::new(b).main(&[], b.list().then(b.give(b.number(7))))
}

/// Entering `main` spends a tick.
#[test]
fn main_spends_one(rt: HostRuntime) -> Result<(), Fail> {
    let b = Build { alloc: rt.alloc() };
    let one = Limits { ticks: 1, depth: 1 };
    runs(&rt, seven(b), one, b"(__main)", ended(7))?;
    let none = Limits { ticks: 0, depth: 1 };
    runs(&rt, seven(b), none, b"", End::Ticks)
}

/// `(c=getchar())!=-1`
fn another(b: Build) -> Tree {
    let byte = b.call(b"getchar".as_slice(), &[], b.list());
    let value = b.read(b.store(b.local(0), byte));
    b.operate(Arith::NotEqual, Kind::Int, value, b.number(-1))
}

/// `int c;while((c=getchar())!=-1)putchar(c);return 0;`
fn echoing(b: Build) -> List {
    b.list()
        .then(b.declare(0, scalar(INT), b.blank()))
        .then(b.repeat(another(b), b.full(b.put(b.held(0)))))
        .then(b.give(b.number(0)))
}

/// `int main(){int c;while((c=getchar())!=-1)putchar(c);return 0;}`
pub fn echo(b: Build) -> File {
    File::new(b).main(&[scalar(INT)], echoing(b))
}

/// The turn in which the condition ends the loop spends a tick as well.
#[test]
fn last_turn(rt: HostRuntime) -> Result<(), Fail> {
    let b = Build { alloc: rt.alloc() };
    let limits = Limits { ticks: 3, depth: 1 };
    let trace = b"(__main)<h>h<i>i".as_slice();
    does(&rt, echo(b), limits, b"hi".as_slice(), trace, End::Ticks)
}

/// And with one more the run comes to its end.
#[test]
fn whole_loop(rt: HostRuntime) -> Result<(), Fail> {
    let b = Build { alloc: rt.alloc() };
    let limits = Limits { ticks: 4, depth: 1 };
    let trace = b"(__main)<h>h<i>i<".as_slice();
    does(&rt, echo(b), limits, b"hi".as_slice(), trace, ended(0))
}

/// `int main(){for(;;);}`
#[test]
fn endless(rt: HostRuntime) -> Result<(), Fail> {
    let b = Build { alloc: rt.alloc() };
    let file = File::new(b).main(&[], b.list().then(b.forever()));
    let limits = Limits { ticks: 5, depth: 1 };
    runs(&rt, file, limits, b"(__main)", End::Ticks)
}

/// The link name of `f()`.
const AGAIN: &[u8] = b"f__Fv";

/// `return f();`
fn calling(b: Build) -> List {
    b.list().then(b.give(b.call(AGAIN, &[], b.list())))
}

/// `int f(){return f();}int main(){return f();}`: as deep as is allowed, and no deeper.
#[test]
fn depth(rt: HostRuntime) -> Result<(), Fail> {
    let b = Build { alloc: rt.alloc() };
    let file = File::new(b)
        .function(AGAIN, &[], &[], calling(b))
        .main(&[], calling(b));
    let limits = Limits {
        ticks: 99,
        depth: 3,
    };
    let trace = b"(__main)(f__Fv)(f__Fv)".as_slice();
    runs(&rt, file, limits, trace, End::Depth)
}
