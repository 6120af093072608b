//! Texts with the tokens or the fault that the manual and the profile give them, worked out by hand.
//!
//! A token is shown as its kind, what it says, its place and its length, as `int:31:Int@7+4`.

mod cases;

use crate::{LexFault, Token, Word, tokens};
use cases::{CHARACTERS, COMMENTS, CONSTANTS, LITERALS, MARKERS, NAMES, ORDER, SIGNS, STRAY};
use std::alloc::Global;
use std::fmt::Write;
use std::process::Abort;
use std::test::Fail;

fn shown(alloc: Global, text: &[u8]) -> Result<String, Fail> {
    match tokens(alloc, text) {
        Ok(found) => {
            let mut out = String::new(alloc);
            for token in &found {
                show(&mut out, token)?;
            }
            Ok(out)
        }
        Err(LexFault::Broken(broken)) => Ok(format!(in alloc;
            "K{}@{} ",
            broken.rule.number(),
            broken.at
        )?),
        Err(LexFault::Limit(limit)) => Ok(format!(in alloc; "{:?} {} ", limit.bound, limit.most)?),
        Err(LexFault::Memory) => Err(Fail::from("out of memory")),
    }
}

fn show(out: &mut String, token: &Token) -> Result<(), Fail> {
    match &token.word {
        Word::Ident(name) => {
            write!(out, "id:")?;
            for byte in name.as_slice() {
                write!(out, "{}", char::from(*byte))?;
            }
        }
        Word::Keyword(number) => write!(out, "kw:{number}")?,
        Word::Int { value, kind } => write!(out, "int:{value}:{kind:?}")?,
        Word::Char(value) => write!(out, "char:{value}")?,
        Word::Text(bytes) => {
            write!(out, "text:")?;
            for byte in bytes.as_slice() {
                write!(out, "{byte},")?;
            }
        }
        Word::Sign(number) => write!(out, "sign:{number}")?,
    }
    write!(out, "@{}+{} ", token.at, token.len)?;
    Ok(())
}

fn compare(
    rt: &impl Abort,
    alloc: Global,
    cases: &[(&'static str, &'static str)],
) -> Result<(), Fail> {
    for (text, want) in cases {
        let got = shown(alloc, text.as_bytes())?;
        assert_eq!(rt; got.as_str(), *want, "{text:?}");
    }
    Ok(())
}

#[test]
fn names(rt: HostRuntime) -> Result<(), Fail> {
    compare(&rt, rt.alloc(), &NAMES)
}

#[test]
fn signs(rt: HostRuntime) -> Result<(), Fail> {
    compare(&rt, rt.alloc(), &SIGNS)
}

#[test]
fn constants(rt: HostRuntime) -> Result<(), Fail> {
    compare(&rt, rt.alloc(), &CONSTANTS)
}

#[test]
fn characters(rt: HostRuntime) -> Result<(), Fail> {
    compare(&rt, rt.alloc(), &CHARACTERS)
}

#[test]
fn literals(rt: HostRuntime) -> Result<(), Fail> {
    compare(&rt, rt.alloc(), &LITERALS)
}

#[test]
fn comments(rt: HostRuntime) -> Result<(), Fail> {
    compare(&rt, rt.alloc(), &COMMENTS)
}

#[test]
fn markers(rt: HostRuntime) -> Result<(), Fail> {
    compare(&rt, rt.alloc(), &MARKERS)
}

#[test]
fn stray_bytes(rt: HostRuntime) -> Result<(), Fail> {
    compare(&rt, rt.alloc(), &STRAY)
}

#[test]
fn first_fault(rt: HostRuntime) -> Result<(), Fail> {
    compare(&rt, rt.alloc(), &ORDER)
}

/// A text of this many of a byte, and another behind them.
fn repeated(alloc: Global, byte: u8, count: usize, last: u8) -> Result<Vec<u8>, Fail> {
    let mut text = vec![in alloc; byte; count]?;
    text.push(last)?;
    Ok(text)
}

#[test]
fn longest_name(rt: HostRuntime) -> Result<(), Fail> {
    let name = repeated(rt.alloc(), b'a', 254, b'b')?;
    let found = tokens(rt.alloc(), name.as_slice())?;
    assert_eq!(rt; found.len(), 1);
    let longer = repeated(rt.alloc(), b'a', 255, b'b')?;
    assert_eq!(rt; shown(rt.alloc(), longer.as_slice())?.as_str(), "K3@0 ");
    Ok(())
}

#[test]
fn limit_of_bytes(rt: HostRuntime) -> Result<(), Fail> {
    let most = repeated(rt.alloc(), b' ', (1 << 20) - 1, b' ')?;
    assert_eq!(rt; shown(rt.alloc(), most.as_slice())?.as_str(), "");
    let over = repeated(rt.alloc(), b'@', 1 << 20, b' ')?;
    assert_eq!(rt;
        shown(rt.alloc(), over.as_slice())?.as_str(),
        "Bytes 1048576 "
    );
    Ok(())
}

#[test]
fn limit_of_tokens(rt: HostRuntime) -> Result<(), Fail> {
    let most = repeated(rt.alloc(), b';', 199_999, b';')?;
    let found = tokens(rt.alloc(), most.as_slice())?;
    assert_eq!(rt; found.len(), 200_000);
    let over = repeated(rt.alloc(), b';', 200_000, b';')?;
    assert_eq!(rt;
        shown(rt.alloc(), over.as_slice())?.as_str(),
        "Tokens 200000 "
    );
    let stray = repeated(rt.alloc(), b';', 200_001, b'@')?;
    assert_eq!(rt; shown(rt.alloc(), stray.as_slice())?.as_str(), "K1@200001 ");
    Ok(())
}

#[test]
fn neighbouring_literals_are_one_token(rt: HostRuntime) -> Result<(), Fail> {
    let literals = repeated(rt.alloc(), b'"', 500_001, b'"')?;
    assert_eq!(rt;
        shown(rt.alloc(), literals.as_slice())?.as_str(),
        "text:@0+500002 "
    );
    Ok(())
}
