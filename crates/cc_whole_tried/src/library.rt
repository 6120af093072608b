//! The library functions, and how a run ends.

use crate::trial::{SHORT, Want, ends, runs};
use cc_whole_run::End;
use std::test::Fail;

const AT_END: &str =
    "void r(void) { putchar(114); } void s(void) { exit(5); } void __hd(void) { putchar(100); } void u(void) { atexit(r); } void w(void) { exit(3); }";

/// The statements of a `main`, what they put, how many functions they enter, and the status.
type Row = (&'static str, &'static str, u64, i64);

const ENDS: [Row; 8] = [
    ("w(); return 1;", "", 1, 3),
    ("exit(300); return 1;", "", 0, 300),
    ("x = atexit(__hd); return x;", "d", 0, 0),
    ("atexit(__hd); atexit(r); return 1;", "rd", 1, 1),
    ("atexit(r); atexit(r); putchar(109); return 1;", "mrr", 2, 1),
    ("atexit(r); atexit(s); atexit(__hd); return 1;", "dr", 2, 5),
    ("atexit(__hd); atexit(u); exit(2);", "rd", 2, 2),
    ("atexit(r); w();", "r", 2, 3),
];

/// The heap has 64 bytes, and a block takes 8 at least.
const HEAP: [(&str, i64); 8] = [
    ("p = malloc(64u); return p == 0;", 0),
    ("p = malloc(65u); return p == 0;", 1),
    ("p = malloc(0u); p = malloc(57u); return p == 0;", 1),
    ("p = malloc(0u); p = malloc(56u); return p == 0;", 0),
    (
        "p = malloc(64u); free(p); p = malloc(64u); *(int *)(p) = 3; return *(int *)(p);",
        3,
    ),
    ("free((char *)0); return 1;", 1),
    ("p = malloc(4294967295u); return p == 0;", 1),
    (
        "p = malloc(8u); q = malloc(8u); *(int *)(p) = 1; *(int *)(q) = 2; return *(int *)(p) - *(int *)(q);",
        -1,
    ),
];

/// The input is `hi`.
const INPUT: [(&str, i64); 4] = [
    ("x = getchar(); return x;", 104),
    ("getchar(); x = getchar(); return x;", 105),
    ("getchar(); getchar(); x = getchar(); return x;", -1),
    (
        "getchar(); getchar(); getchar(); x = getchar(); return x;",
        -1,
    ),
];

#[test]
fn exit_and_atexit(rt: HostRuntime) -> Result<(), Fail> {
    for (main, out, entered, status) in ENDS {
        let want = Want {
            out: out.as_bytes(),
            entered,
            end: End::Ended { status },
        };
        runs(&rt, rt.alloc(), SHORT, AT_END, main, want)?;
    }
    Ok(())
}

#[test]
fn the_heap(rt: HostRuntime) -> Result<(), Fail> {
    for (main, status) in HEAP {
        ends(&rt, rt.alloc(), "", main, End::Ended { status })?;
    }
    Ok(())
}

#[test]
fn the_input(rt: HostRuntime) -> Result<(), Fail> {
    for (main, status) in INPUT {
        ends(&rt, rt.alloc(), "", main, End::Ended { status })?;
    }
    Ok(())
}

#[test]
fn a_byte_is_put_modulo_256(rt: HostRuntime) -> Result<(), Fail> {
    let want = Want {
        out: [255, 65].as_slice(),
        entered: 0,
        end: End::Ended { status: 255 },
    };
    runs(
        &rt,
        rt.alloc(),
        SHORT,
        "",
        "x = putchar(-1); putchar(321); return x;",
        want,
    )
}
