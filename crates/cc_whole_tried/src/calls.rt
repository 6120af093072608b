//! Calls by name and through pointers, their ticks and their depth.

use crate::trial::{SHORT, Want, runs};
use cc_whole_memory::Act;
use cc_whole_run::{End, Limits};
use std::alloc::Global;
use std::process::Abort;
use std::test::Fail;

const HELPERS: &str =
    "int g(int n) { putchar(n); return n + 1; } int h(char *p) { return 4; } int __ha(void) { return 6; } int e(void) { } void v(int n, int m) { putchar(n + m); }";

/// The statements of a `main`, what they put, how many functions they enter, and how they end.
type Row = (&'static str, &'static str, u64, End);

const CALLS: [Row; 8] = [
    ("x = g(65); return x;", "A", 1, End::Ended { status: 66 }),
    ("g(65); g(66); return 0;", "AB", 2, End::Ended { status: 0 }),
    ("v(60, 5); return 0;", "A", 1, End::Ended { status: 0 }),
    (
        "f = g; x = ((int (*)(int))(f))(65); return x;",
        "A",
        1,
        End::Ended { status: 66 },
    ),
    (
        "x = ((int (*)(int))(putchar))(66); return x;",
        "B",
        0,
        End::Ended { status: 66 },
    ),
    (
        "((void (*)(int, int))(v))(33, 33); return 1;",
        "B",
        1,
        End::Ended { status: 1 },
    ),
    ("x = __ha(); return x;", "", 0, End::Ended { status: 6 }),
    ("e(); return 1;", "", 1, End::Ended { status: 1 }),
];

const OF_ANOTHER_TYPE: [Row; 4] = [
    (
        "f = h; x = ((int (*)(int))(f))(1);",
        "",
        0,
        End::Undefined { act: Act::A9 },
    ),
    (
        "f = e; ((void (*)(void))(f))();",
        "",
        0,
        End::Undefined { act: Act::A9 },
    ),
    (
        "f = g; g(65); x = ((int (*)(void))(f))();",
        "A",
        1,
        End::Undefined { act: Act::A9 },
    ),
    (
        "atexit(g); return 1;",
        "",
        0,
        End::Undefined { act: Act::A9 },
    ),
];

const NOT_RETURNED: [Row; 4] = [
    ("x = e();", "", 1, End::Undefined { act: Act::A11 }),
    (
        "f = e; x = ((int (*)(void))(f))();",
        "",
        1,
        End::Undefined { act: Act::A11 },
    ),
    ("g(65);", "A", 1, End::Undefined { act: Act::A11 }),
    ("", "", 0, End::Undefined { act: Act::A11 }),
];

/// The place is evaluated first, then what is called, then the arguments in order; then null or another type is an act.
const ORDER: [Row; 7] = [
    (
        "*(int *)(a + 99) = ((int (*)(void))(f))();",
        "",
        0,
        End::Undefined { act: Act::A6 },
    ),
    (
        "x = ((int (*)(int))(f))(1 / 0);",
        "",
        0,
        End::Undefined { act: Act::A7 },
    ),
    (
        "f = 0; x = ((int (*)(int))(f))(x);",
        "",
        0,
        End::Undefined { act: Act::A7 },
    ),
    (
        "f = h; x = ((int (*)(int))(f))(1 / 0);",
        "",
        0,
        End::Undefined { act: Act::A2 },
    ),
    ("v(1 / 0, 1 << 32);", "", 0, End::Undefined { act: Act::A2 }),
    ("v(1 << 32, 1 / 0);", "", 0, End::Undefined { act: Act::A3 }),
    (
        "*(int *)((char *)0) = g(65);",
        "A",
        1,
        End::Undefined { act: Act::A4 },
    ),
];

/// Ticks, levels of depth, and a row.
const SPENT: [(u64, u32, Row); 7] = [
    (
        0,
        0,
        ("x = __ha(); return x;", "", 0, End::Ended { status: 6 }),
    ),
    (0, 0, ("e();", "", 0, End::Ticks)),
    (1, 0, ("e();", "", 0, End::Depth)),
    (
        2,
        1,
        ("e(); e(); return 1;", "", 2, End::Ended { status: 1 }),
    ),
    (1, 1, ("g(65); g(66); return 1;", "A", 1, End::Ticks)),
    (5, 1, ("for (;;) { }", "", 0, End::Ticks)),
    (
        9,
        1,
        (
            "x = putchar(65); x = putchar(66); return x;",
            "AB",
            0,
            End::Ended { status: 66 },
        ),
    ),
];

fn all_run(rt: &impl Abort, alloc: Global, rows: &[Row]) -> Result<(), Fail> {
    for (main, out, entered, end) in rows {
        let want = Want {
            out: out.as_bytes(),
            entered: *entered,
            end: *end,
        };
        runs(rt, alloc, SHORT, HELPERS, main, want)?;
    }
    Ok(())
}

#[test]
fn calls(rt: HostRuntime) -> Result<(), Fail> {
    all_run(&rt, rt.alloc(), CALLS.as_slice())
}

#[test]
fn functions_of_another_type(rt: HostRuntime) -> Result<(), Fail> {
    all_run(&rt, rt.alloc(), OF_ANOTHER_TYPE.as_slice())
}

#[test]
fn results_that_are_not_returned(rt: HostRuntime) -> Result<(), Fail> {
    all_run(&rt, rt.alloc(), NOT_RETURNED.as_slice())
}

#[test]
fn order_inside_a_call(rt: HostRuntime) -> Result<(), Fail> {
    all_run(&rt, rt.alloc(), ORDER.as_slice())
}

#[test]
fn ticks_and_depth(rt: HostRuntime) -> Result<(), Fail> {
    for (ticks, depth, (main, out, entered, end)) in SPENT {
        let limits = Limits {
            ticks,
            depth,
            heap: 0,
        };
        let want = Want {
            out: out.as_bytes(),
            entered,
            end,
        };
        runs(&rt, rt.alloc(), limits, HELPERS, main, want)?;
    }
    Ok(())
}
