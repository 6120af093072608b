//! Loops, `switch`, blocks.

use crate::trial::{Want, ends, runs};
use cc_whole_run::{End, Limits};
use std::test::Fail;

const SWITCHED: &str =
    "switch (y) { case 1: x = 1; break; default: x = 2; case 4294967295u: x = x + 10; } return x;";

const BODIES: [(&str, i64); 10] = [
    ("if (0) { return 1; } else { return 2; }", 2),
    ("if (2) { return 1; } return 2;", 1),
    ("x = 1; { int x; x = 2; } return x;", 1),
    ("x = 1; { int z; z = 2; x = x + z; } return x;", 3),
    (
        "x = 0; for (;;) { if (x == 1) { return 7; } x = 1; switch (1) { case 1: continue; } return 8; }",
        7,
    ),
    (
        "x = 0; for (;;) { x = x + 1; for (;;) { break; } if (x == 3) { break; } } return x;",
        3,
    ),
    ("switch (2) { case 1: return 9; } return 3;", 3),
    ("switch (2) { x = 1; return 9; } return 3;", 3),
    (
        "switch ((char)-1) { case 255: return 1; case -1: return 2; }",
        2,
    ),
    (
        "for (;;) { switch (1) { default: break; } break; } return 4;",
        4,
    ),
];

/// The value of a `switch`, and what its labels make of it. Labels are equal modulo 2^32.
const LABELS: [(&str, i64); 3] = [("y = 1;", 1), ("y = 7;", 12), ("x = 5; y = -1;", 15)];

const THREE_TURNS: &str =
    "x = 0; for (;;) { x = x + 1; if (x < 3) { continue; } break; } return x;";

#[test]
fn bodies(rt: HostRuntime) -> Result<(), Fail> {
    for (main, status) in BODIES {
        ends(&rt, rt.alloc(), "", main, End::Ended { status })?;
    }
    Ok(())
}

#[test]
fn labels(rt: HostRuntime) -> Result<(), Fail> {
    for (before, status) in LABELS {
        let main = format!(in rt.alloc(); "{before} {SWITCHED}")?;
        ends(&rt, rt.alloc(), "", main.as_str(), End::Ended { status })?;
    }
    Ok(())
}

#[test]
fn a_tick_for_each_turn(rt: HostRuntime) -> Result<(), Fail> {
    for (ticks, end) in [(2, End::Ticks), (3, End::Ended { status: 3 })] {
        let limits = Limits {
            ticks,
            depth: 0,
            heap: 0,
        };
        let want = Want {
            out: b"".as_slice(),
            entered: 0,
            end,
        };
        runs(&rt, rt.alloc(), limits, "", THREE_TURNS, want)?;
    }
    Ok(())
}
