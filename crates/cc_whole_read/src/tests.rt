//! Texts with what they are read as.

use crate::{ReadErr, TEXT_LIMIT, read};
use cf_base::{Bound, Limit};
use std::alloc::Global;
use std::test::Fail;

/// How many items the unit of a text has.
fn count(alloc: Global, text: &[u8]) -> Result<usize, ReadErr> {
    let unit = read(alloc, text)?;
    Ok(unit.tree().items.len())
}

#[test]
fn valid_texts_are_read(rt: HostRuntime) -> Result<(), Fail> {
    let alloc = rt.alloc();
    for (text, want) in [
        ("#pragma cfront 1\n", 0),
        (" \n#pragma cfront\n 999999999  \nint f(void);", 1),
        ("#pragma cfront 1\nint main(void)\n{\nreturn 3;\n}\n", 1),
        (
            "#pragma cfront 1\nint twice(int n){return n+n;}\nstruct __e table[2]={{0,twice},{-1,0}};\nint __main(void){int n;n=((int(*)(int))(*(__f*)(table+4)))(21);switch(n){case 42:return 0;}return n;}",
            3,
        ),
        (
            "#pragma cfront 1\n#pragma cf_shared\nchar text[4]=\"a\\012b\";extern int x;int f(char *p){x=*(int*)(p+4)-1;return x;}",
            3,
        ),
        (
            "#pragma cfront 1\nint f(void){return -2147483647;}unsigned g(void){return 4294967295u;}",
            2,
        ),
    ] {
        assert_eq!(rt; count(alloc, text.as_bytes()), Ok(want), "{text}");
    }
    Ok(())
}

#[test]
fn other_texts_stop_being_c(rt: HostRuntime) -> Result<(), Fail> {
    let alloc = rt.alloc();
    for (text, at) in [
        ("", 0),
        ("  int x;", 2),
        ("#pragma cfront1\n", 0),
        ("#pragma cfront 01\n", 15),
        ("#pragma cfront 12 ;\n", 18),
        ("#pragma cfront 1", 16),
        ("#pragma cfront 1\nint main(void)\n{\nreturn", 40),
        ("#pragma cfront 1\nint f(){return 0;}", 23),
        ("#pragma cfront 1\nint f(void){int a;a=1;int b;}", 39),
        ("#pragma cfront 1\nint f(void){a==b;}", 30),
        ("#pragma cfront 1\nint f(void){return 007;}", 36),
        ("#pragma cfront 1\nint f(void){return 1 @ 2;}", 38),
        ("#pragma cfront 1\nint f(void){return 0;}}", 39),
    ] {
        assert_eq!(rt;
            count(alloc, text.as_bytes()),
            Err(ReadErr::NotC { at }),
            "{text}"
        );
    }
    Ok(())
}

/// The first broken rule of a text, and its byte.
fn fault(alloc: Global, text: &[u8]) -> Option<(u8, usize)> {
    match read(alloc, text) {
        Err(ReadErr::Invalid { rule, at }) => Some((rule, at)),
        _ => None,
    }
}

#[test]
fn the_first_broken_rule_is_told(rt: HostRuntime) -> Result<(), Fail> {
    let alloc = rt.alloc();
    for (text, want) in [
        (
            "#pragma cfront 1\nint main(void)\n{\nreturn x;\n}\n",
            (1, 41),
        ),
        ("#pragma cfront 1\nint x;char x;", (2, 28)),
        (
            "#pragma cfront 1\nint f(int a){char *p;a=1-p;return a;}",
            (3, 42),
        ),
        (
            "#pragma cfront 1\nint f(char *p){*(char*)(p)=1;return 0;}",
            (4, 44),
        ),
        (
            "#pragma cfront 1\nvoid g(int a);int f(void){g(1,2);return 0;}",
            (5, 43),
        ),
        ("#pragma cfront 1\nvoid f(void){return 0;}", (6, 30)),
        ("#pragma cfront 1\nvoid f(void){continue;}", (7, 30)),
        (
            "#pragma cfront 1\nvoid f(int x){switch(x){case -1:case 4294967295u:}}",
            (8, 49),
        ),
        ("#pragma cfront 1\nvoid __hd1(void){__hd1();}", (9, 34)),
        ("#pragma cfront 1\nchar malloc;", (10, 22)),
        ("#pragma cfront 1\nint a[0];", (11, 23)),
        (
            "#pragma cfront 1\n#pragma cf_shared\nstatic int x;",
            (12, 35),
        ),
    ] {
        assert_eq!(rt; fault(alloc, text.as_bytes()), Some(want), "{text}");
    }
    Ok(())
}

#[test]
fn a_constant_beyond_32_bits_breaks_v11(rt: HostRuntime) -> Result<(), Fail> {
    let alloc = rt.alloc();
    for (text, want) in [
        (
            "#pragma cfront 1\nint f(void){return 4294967296u;}",
            (11, 36),
        ),
        (
            "#pragma cfront 1\nint f(void){return 2147483648;}",
            (11, 36),
        ),
        (
            "#pragma cfront 1\nint f(void){return 1-2147483648;}",
            (11, 38),
        ),
        (
            "#pragma cfront 1\nint f(void){return -2147483649;}",
            (11, 37),
        ),
        (
            "#pragma cfront 1\nint f(void){return x+4294967296;}",
            (1, 36),
        ),
        (
            "#pragma cfront 1\nint f(void){return 4294967296+x;}",
            (11, 36),
        ),
        (
            "#pragma cfront 1\nint f(char*p){return(p+4294967296)*2;}",
            (11, 40),
        ),
        (
            "#pragma cfront 1\nint f(char*p){return p*4294967296;}",
            (3, 38),
        ),
        ("#pragma cfront 1\nint a[4294967296];", (11, 23)),
        (
            "#pragma cfront 1\nint a[2];extern int a[4294967298];",
            (2, 37),
        ),
        (
            "#pragma cfront 1\nvoid f(int x){int a[4294967296];a=x;}",
            (11, 37),
        ),
        (
            "#pragma cfront 1\nvoid f(int x){switch(x){case 2:case 4294967297:}}",
            (11, 53),
        ),
        (
            "#pragma cfront 1\nvoid f(int x){switch(x){case 1:case 4294967297:}}",
            (8, 48),
        ),
        (
            "#pragma cfront 1\nvoid f(int x){switch(x){case 1:case -4294967295:}}",
            (8, 48),
        ),
        (
            "#pragma cfront 1\nstruct __e t[1]={{4294967296,g}};",
            (11, 35),
        ),
        (
            "#pragma cfront 1\nstruct __e t[2]={{1,g},{4294967296,0}};",
            (1, 37),
        ),
    ] {
        assert_eq!(rt; fault(alloc, text.as_bytes()), Some(want), "{text}");
    }
    let least = b"#pragma cfront 1\nint f(void){return -2147483648;}";
    assert_eq!(rt; count(alloc, least), Ok(1));
    let stray = b"#pragma cfront 1\nint f(void){return 4294967296;}@";
    assert_eq!(rt; count(alloc, stray), Err(ReadErr::NotC { at: 48 }));
    Ok(())
}

#[test]
fn limits_are_told(rt: HostRuntime) -> Result<(), Fail> {
    let alloc = rt.alloc();
    let mut deep = Vec::new(alloc);
    for byte in b"#pragma cfront 1\nint f(void){return " {
        deep.push(*byte)?;
    }
    for _ in 0..1100 {
        deep.push(b'(')?;
    }
    let nesting = Limit {
        bound: Bound::Nesting,
        most: 1024,
    };
    assert_eq!(rt; count(alloc, deep.as_slice()), Err(ReadErr::Limit(nesting)));
    assert_eq!(rt; TEXT_LIMIT, 16_777_216);
    Ok(())
}
