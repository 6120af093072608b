//! The values of expressions (5.3 to 5.13).

use crate::trial::ends;
use cc_whole_run::End;
use std::test::Fail;

const SIGNED: [(&str, i64); 14] = [
    ("return 3;", 3),
    ("return -9 >> 1;", -5),
    ("return -7 / 2;", -3),
    ("return -7 % 2;", -1),
    ("return -2147483648 % -1;", 0),
    ("return (1 << 31) == -2147483648;", 1),
    ("return ~5;", -6),
    ("return !0;", 1),
    ("return !7;", 0),
    ("return -(5 - 8);", 3),
    ("return (12 & 10) + ((12 ^ 10) + (12 | 10));", 28),
    ("return (3 < 4) + ((3 > 4) + ((3 <= 3) + (3 >= 4)));", 2),
    ("return (3 == 4) + (3 != 4);", 1),
    ("x = 2147483647; return x - 2147483646;", 1),
];

/// Two integers of which one is unsigned are computed as unsigned, and `char` is signed.
const CONVERTED: [(&str, i64); 10] = [
    ("return (int)(4294967295u + 2u);", 1),
    ("return -1 < 1u;", 0),
    ("return (int)(4294967295u / 2u) == 2147483647;", 1),
    ("return (int)(2147483648u >> 31);", 1),
    ("return (int)(char)200;", -56),
    ("return (int)(unsigned char)456;", 200),
    ("return (int)(short)32768;", -32768),
    ("return (int)(unsigned short)65537;", 1),
    ("c = (char)-1; return (int)c;", -1),
    ("return (int)(unsigned)-1;", -1),
];

#[test]
fn ints(rt: HostRuntime) -> Result<(), Fail> {
    for (main, status) in SIGNED {
        ends(&rt, rt.alloc(), "", main, End::Ended { status })?;
    }
    Ok(())
}

#[test]
fn integers_of_other_types(rt: HostRuntime) -> Result<(), Fail> {
    for (main, status) in CONVERTED {
        ends(&rt, rt.alloc(), "", main, End::Ended { status })?;
    }
    Ok(())
}
