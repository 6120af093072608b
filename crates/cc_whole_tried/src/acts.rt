//! Acts without a meaning: each by several programs, and the order in which parts of a statement come to them.

use crate::trial::ends;
use cc_whole_memory::Act;
use cc_whole_run::End;
use std::alloc::Global;
use std::process::Abort;
use std::test::Fail;

/// An act, and the statements of a `main` that come to it.
type Row = (Act, &'static str);

const INTEGERS: [Row; 9] = [
    (Act::A1, "return 2147483647 + 1;"),
    (Act::A1, "return -(-2147483648);"),
    (Act::A1, "return -2147483648 / -1;"),
    (Act::A2, "return 1 / 0;"),
    (Act::A2, "return 1 % 0;"),
    (Act::A2, "return (int)(1u / 0u);"),
    (Act::A3, "return 1 << 32;"),
    (Act::A3, "return 1 >> -1;"),
    (Act::A3, "return (int)(1u << 32u);"),
];

const NULL: [Row; 7] = [
    (Act::A4, "return *(int *)((char *)0);"),
    (Act::A4, "*(int *)((char *)0) = 1;"),
    (Act::A4, "p = (char *)0 + 0;"),
    (Act::A4, "return (char *)0 < a;"),
    (Act::A4, "return a - (char *)0;"),
    (Act::A4, "f = 0; x = ((int (*)(void))(f))();"),
    (Act::A4, "atexit((__f)0); return 1;"),
];

const DEAD: [Row; 7] = [
    (
        Act::A5,
        "{ int z; z = 5; p = (char *)&z; } return *(int *)(p);",
    ),
    (Act::A5, "{ int z; p = (char *)&z; } *(int *)(p) = 1;"),
    (Act::A5, "{ int z; p = (char *)&z; } q = p + 0;"),
    (Act::A5, "{ int z; p = (char *)&z; } return p < p;"),
    (Act::A5, "{ int z; p = (char *)&z; } return p - p;"),
    (Act::A5, "p = malloc(8u); free(p); return *(int *)(p);"),
    (Act::A5, "p = malloc(8u); free(p); *(int *)(p) = 1;"),
];

const OUTSIDE: [Row; 6] = [
    (Act::A6, "return *(int *)(a + 8);"),
    (Act::A6, "*(char *)(a + 8) = (char)1;"),
    (Act::A6, "*(int *)(a + 5) = 1;"),
    (Act::A6, "p = a + 9;"),
    (Act::A6, "p = a - 1;"),
    (Act::A6, "p = malloc(4u); *(int *)(p + 1) = 1;"),
];

const NO_VALUE: [Row; 10] = [
    (Act::A7, "return x;"),
    (Act::A7, "x = 1; return (int)*(char *)((char *)&x);"),
    (Act::A7, "x = 0; p = (char *)&x; return *(char **)(p) == 0;"),
    (
        Act::A7,
        "*(int *)(a) = 1; *(char *)(a + 3) = (char)2; return *(int *)(a);",
    ),
    (
        Act::A7,
        "*(char *)(a + 3) = (char)2; *(int *)(a) = 1; return (int)*(char *)(a + 3);",
    ),
    (Act::A7, "y = 1; y = x; return y;"),
    (
        Act::A7,
        "x = 1; c = *(char *)((char *)&x + 1); return (int)c;",
    ),
    (Act::A7, "y = x + 0; return 0;"),
    (Act::A7, "if (x) { } return 0;"),
    (Act::A7, "p = malloc(8u); return *(int *)(p);"),
];

const BLOCKS: [Row; 4] = [
    (Act::A8, "return a - (char *)&x;"),
    (Act::A8, "return a >= (char *)&x;"),
    (Act::A8, "{ int z; p = (char *)&z; } return p < a;"),
    (Act::A8, "p = malloc(8u); q = malloc(8u); return p < q;"),
];

const FREED: [Row; 5] = [
    (Act::A10, "p = malloc(8u); free(p); free(p);"),
    (Act::A10, "p = malloc(8u); free(p + 4);"),
    (Act::A10, "p = malloc(8u); free(p + 8);"),
    (Act::A10, "free(a);"),
    (Act::A10, "free((char *)&x);"),
];

/// Operands and arguments go left to right, the place before the value, a value before it is stored.
const ORDER: [Row; 9] = [
    (Act::A2, "return (1 / 0) + (1 << 32);"),
    (Act::A3, "return (1 << 32) + (1 / 0);"),
    (Act::A6, "*(int *)(a + 99) = 1 / 0;"),
    (Act::A2, "*(int *)(a + (1 / 0)) = 1 << 32;"),
    (Act::A2, "*(int *)((char *)0) = 1 / 0;"),
    (Act::A7, "*(int *)((char *)0) = x + 0;"),
    (Act::A4, "*(int *)((char *)0) = 1 + 2;"),
    (Act::A2, "free(a + (1 / 0));"),
    (Act::A6, "*(int *)(a + 99) = getchar();"),
];

fn all_come(rt: &impl Abort, alloc: Global, rows: &[Row]) -> Result<(), Fail> {
    for (act, main) in rows {
        ends(rt, alloc, "", main, End::Undefined { act: *act })?;
    }
    Ok(())
}

#[test]
fn integers(rt: HostRuntime) -> Result<(), Fail> {
    all_come(&rt, rt.alloc(), INTEGERS.as_slice())
}

#[test]
fn null(rt: HostRuntime) -> Result<(), Fail> {
    all_come(&rt, rt.alloc(), NULL.as_slice())
}

#[test]
fn ended_blocks(rt: HostRuntime) -> Result<(), Fail> {
    all_come(&rt, rt.alloc(), DEAD.as_slice())
}

#[test]
fn places_outside_their_blocks(rt: HostRuntime) -> Result<(), Fail> {
    all_come(&rt, rt.alloc(), OUTSIDE.as_slice())
}

#[test]
fn no_value_of_that_kind(rt: HostRuntime) -> Result<(), Fail> {
    all_come(&rt, rt.alloc(), NO_VALUE.as_slice())
}

#[test]
fn pointers_into_different_blocks(rt: HostRuntime) -> Result<(), Fail> {
    all_come(&rt, rt.alloc(), BLOCKS.as_slice())
}

#[test]
fn what_is_freed(rt: HostRuntime) -> Result<(), Fail> {
    all_come(&rt, rt.alloc(), FREED.as_slice())
}

#[test]
fn order_inside_a_statement(rt: HostRuntime) -> Result<(), Fail> {
    all_come(&rt, rt.alloc(), ORDER.as_slice())
}
