//! Files and what they are.

use crate::{Fault, first};
use std::alloc::Global;
use std::process::Abort;
use std::test::Fail;

/// A file's rule and place, or its limit, as text.
fn refusal(alloc: Global, fault: &Fault) -> Result<String, Fail> {
    match fault {
        Fault::Broken(broken) => {
            Ok(format!(in alloc; "K{}@{}", broken.rule.number(), broken.at)?)
        }
        Fault::Limit(limit) => Ok(format!(in alloc; "{:?} {}", limit.bound, limit.most)?),
        Fault::Memory => Err(Fail::from("out of memory")),
    }
}

/// What a file is: `ok` where it has a core, and else why it has none.
fn answer(alloc: Global, bytes: &[u8]) -> Result<String, Fail> {
    match first(alloc, bytes) {
        Ok(_core) => Ok(format!(in alloc; "ok")?),
        Err(fault) => refusal(alloc, &fault),
    }
}

fn compare(
    rt: &impl Abort,
    alloc: Global,
    rows: &[(&'static str, &'static str)],
) -> Result<(), Fail> {
    for (text, want) in rows {
        let got = answer(alloc, text.as_bytes())?;
        assert_eq!(rt; got.as_str(), *want, "{text:?}");
    }
    Ok(())
}

#[test]
fn files_that_have_a_core(rt: HostRuntime) -> Result<(), Fail> {
    let rows = [
        ("", "ok"),
        ("int main(){return 7;}", "ok"),
        ("int f(int a){return a-1;}int main(){putchar(f(2));}", "ok"),
        ("int x=1;int*p=&x;int main(){return*p;}", "ok"),
        (
            "enum E{A,B=5};int main(){int a[2]={A,B};return a[1];}",
            "ok",
        ),
    ];
    compare(&rt, rt.alloc(), &rows)
}

#[test]
fn each_stage_refuses_in_its_turn(rt: HostRuntime) -> Result<(), Fail> {
    let rows = [
        // form before grammar, grammar before names and types
        ("int main(){return 7}@", "K1@20"),
        ("int main(){return a}", "K6@11"),
        ("int main(){return a;}", "K10@18"),
        ("int f(){return a;}int main(){return 1 2;}", "K6@29"),
        ("int main(){return 7;}/*", "K2@21"),
    ];
    compare(&rt, rt.alloc(), &rows)
}

#[test]
fn the_limit_of_tokens(rt: HostRuntime) -> Result<(), Fail> {
    let mut text = Vec::new(rt.alloc());
    for _turn in 0..200_001 {
        text.push(b'1')?;
        text.push(b' ')?;
    }
    let over = answer(rt.alloc(), text.as_slice())?;
    assert_eq!(rt; over.as_str(), "Tokens 200000");
    Ok(())
}
