//! Places, moves and static blocks, where they have a meaning.

use crate::trial::ends;
use cc_whole_memory::Act;
use cc_whole_run::End;
use std::test::Fail;

const STATICS: &str =
    "int g(void) { return 8; } char s[4] = \"ab\"; int n; struct __e t[2] = { { 5, g }, { -1, 0 } };";

const PLACES: [(&str, i64); 9] = [
    ("p = a + 8; return p - a;", 8),
    (
        "p = a + 8; q = p - 4; *(int *)(q) = 9; return *(int *)(a + 4);",
        9,
    ),
    ("*(int *)(4 + a) = 6; return *(int *)(a + 4);", 6),
    ("return a < (a + 1);", 1),
    ("{ int z; z = 5; p = (char *)&z; return *(int *)(p); }", 5),
    ("{ int z; p = (char *)&z; } return p == p;", 1),
    ("p = a + 8; return p == (char *)&x;", 0),
    ("p = 0; return p == 0;", 1),
    (
        "x = -1; return 5 < (int)(*(unsigned *)((char *)&x) >> 1);",
        1,
    ),
];

const MOVES: [(&str, i64); 6] = [
    ("y = x; return 0;", 0),
    ("*(int *)(a) = *(int *)(a + 4); return 0;", 0),
    (
        "*(int *)(a) = 9; *(int *)(a + 4) = *(int *)(a); return *(int *)(a) + *(int *)(a + 4);",
        18,
    ),
    (
        "*(short *)(a) = (short)1; *(short *)(a + 2) = (short)2; *(int *)(a + 4) = *(int *)(a); return (int)*(short *)(a + 6);",
        2,
    ),
    (
        "*(int *)(a) = 1; *(char *)(a + 4) = (char)2; return *(int *)(a);",
        1,
    ),
    (
        "x = 7; p = (char *)&x; *(char **)(a) = p; return *(int *)(*(char **)(a));",
        7,
    ),
];

const STATIC: [(&str, i64); 8] = [
    ("return n;", 0),
    ("return *(char **)((char *)&n) == 0;", 1),
    ("return (int)*(char *)(s + 1);", 98),
    ("return (int)*(char *)(s + 3);", 0),
    ("return *(int *)(t) + *(int *)(t + 8);", 4),
    ("return *(__f *)(t + 12) == 0;", 1),
    ("x = n; return (int)*(char *)((char *)&x + 2);", 0),
    ("n = 3; n = n + n; return n;", 6),
];

#[test]
fn places(rt: HostRuntime) -> Result<(), Fail> {
    for (main, status) in PLACES {
        ends(&rt, rt.alloc(), "", main, End::Ended { status })?;
    }
    Ok(())
}

#[test]
fn moves(rt: HostRuntime) -> Result<(), Fail> {
    for (main, status) in MOVES {
        ends(&rt, rt.alloc(), "", main, End::Ended { status })?;
    }
    Ok(())
}

#[test]
fn static_blocks(rt: HostRuntime) -> Result<(), Fail> {
    for (main, status) in STATIC {
        ends(&rt, rt.alloc(), STATICS, main, End::Ended { status })?;
    }
    Ok(())
}

#[test]
fn a_static_int_that_is_written_partly(rt: HostRuntime) -> Result<(), Fail> {
    let end = End::Undefined { act: Act::A7 };
    ends(
        &rt,
        rt.alloc(),
        STATICS,
        "*(char *)((char *)&n) = (char)1; return n;",
        end,
    )
}
