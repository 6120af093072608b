//! Files with what the grammar makes of them.

use crate::cases::bodies::STATEMENTS;
use crate::cases::choices::{ELSES, READINGS};
use crate::cases::classes::CLASSES;
use crate::cases::names::NAMES;
use crate::cases::nested::{AT_LIMIT, BRACES, BRACKETS, Repeated, UNLIMITED};
use crate::cases::places::PLACES;
use crate::cases::programs::PROGRAMS;
use crate::cases::rich::RICH;
use crate::cases::{bodies, choices};
use crate::shapes::show_bodies;
use cf_parse_file::{ParseFault, unit};
use cf_tokens::{LexFault, tokens};
use cf_unit::Unit;
use std::alloc::Global;
use std::process::Abort;
use std::test::Fail;

/// Why there is no tree, in letters.
fn refusal(alloc: Global, fault: &ParseFault) -> Result<String, Fail> {
    match fault {
        ParseFault::Broken(broken) => {
            Ok(format!(in alloc; "K{}@{}", broken.rule.number(), broken.at)?)
        }
        ParseFault::Limit(limit) => Ok(format!(in alloc; "{:?} {}", limit.bound, limit.most)?),
        ParseFault::Memory => Err(Fail::from("out of memory")),
    }
}

/// Why there are no tokens, in letters.
fn lexical(alloc: Global, fault: &LexFault) -> Result<String, Fail> {
    match fault {
        LexFault::Broken(broken) => {
            Ok(format!(in alloc; "K{}@{}", broken.rule.number(), broken.at)?)
        }
        LexFault::Limit(limit) => Ok(format!(in alloc; "{:?} {}", limit.bound, limit.most)?),
        LexFault::Memory => Err(Fail::from("out of memory")),
    }
}

/// What is said of a file that has a tree.
#[derive(Clone, Copy)]
enum Shown {
    Nothing,
    /// The shapes of the statements in its functions.
    Bodies,
}

fn tree_shown(alloc: Global, tree: &Unit, shown: Shown) -> Result<String, Fail> {
    let mut out = String::new(alloc);
    match shown {
        Shown::Nothing => out.push_str("ok")?,
        Shown::Bodies => show_bodies(&mut out, tree)?,
    }
    Ok(out)
}

/// What a file is: a tree, or the one reason why there is none.
fn answer(alloc: Global, text: &[u8], shown: Shown) -> Result<String, Fail> {
    match tokens(alloc, text) {
        Ok(found) => match unit(alloc, found.as_slice()) {
            Ok(tree) => tree_shown(alloc, &tree, shown),
            Err(fault) => refusal(alloc, &fault),
        },
        Err(fault) => lexical(alloc, &fault),
    }
}

/// A text, and the place of the `$` that stood in it.
#[derive(Drop)]
struct Marked {
    text: Vec<u8>,
    mark: Option<usize>,
}

fn add(marked: &mut Marked, part: &str) -> Result<(), Fail> {
    for byte in part.as_bytes() {
        if *byte == b'$' {
            marked.mark = Some(marked.text.len());
        } else {
            marked.text.push(*byte)?;
        }
    }
    Ok(())
}

fn joined(alloc: Global, before: &str, text: &str, behind: &str) -> Result<Marked, Fail> {
    let mut marked = Marked {
        text: Vec::new(alloc),
        mark: None,
    };
    add(&mut marked, before)?;
    add(&mut marked, text)?;
    add(&mut marked, behind)?;
    Ok(marked)
}

/// K6 at the mark, or what is wanted where there is none.
fn wanted(alloc: Global, mark: Option<usize>, otherwise: &str) -> Result<String, Fail> {
    match mark {
        Some(at) => Ok(format!(in alloc; "K6@{at}")?),
        None => Ok(format!(in alloc; "{otherwise}")?),
    }
}

fn compare(
    rt: &impl Abort,
    alloc: Global,
    rows: &[&'static str],
    before: &'static str,
    behind: &'static str,
) -> Result<(), Fail> {
    for text in rows {
        let marked = joined(alloc, before, text, behind)?;
        let want = wanted(alloc, marked.mark, "ok")?;
        let got = answer(alloc, marked.text.as_slice(), Shown::Nothing)?;
        assert_eq!(rt; got.as_str(), want.as_str(), "{text:?}");
    }
    Ok(())
}

#[test]
fn programs_are_files(rt: HostRuntime) -> Result<(), Fail> {
    compare(&rt, rt.alloc(), &PROGRAMS, "", "")
}

#[test]
fn classes_and_late_bodies(rt: HostRuntime) -> Result<(), Fail> {
    compare(&rt, rt.alloc(), &CLASSES, "", "")
}

#[test]
fn places_of_what_has_no_spelling(rt: HostRuntime) -> Result<(), Fail> {
    compare(&rt, rt.alloc(), &PLACES, "", "")
}

#[test]
fn names_that_are_types(rt: HostRuntime) -> Result<(), Fail> {
    compare(&rt, rt.alloc(), &NAMES, "", "")
}

#[test]
fn statements_of_a_body(rt: HostRuntime) -> Result<(), Fail> {
    compare(&rt, rt.alloc(), &STATEMENTS, bodies::BEFORE, "}")
}

fn compare_shapes(
    rt: &impl Abort,
    alloc: Global,
    rows: &[(&'static str, &'static str)],
    before: &'static str,
    behind: &'static str,
) -> Result<(), Fail> {
    for (text, shape) in rows {
        let marked = joined(alloc, before, text, behind)?;
        let want = wanted(alloc, marked.mark, shape)?;
        let got = answer(alloc, marked.text.as_slice(), Shown::Bodies)?;
        assert_eq!(rt; got.as_str(), want.as_str(), "{text:?}");
    }
    Ok(())
}

#[test]
fn declarations_against_expressions(rt: HostRuntime) -> Result<(), Fail> {
    compare_shapes(&rt, rt.alloc(), &READINGS, choices::BEFORE, "}")
}

#[test]
fn an_else_belongs_to_the_nearest_if(rt: HostRuntime) -> Result<(), Fail> {
    compare_shapes(&rt, rt.alloc(), &ELSES, "", "")
}

/// A piece so many times, between two others.
fn repeated(alloc: Global, row: &Repeated, count: usize) -> Result<Vec<u8>, Fail> {
    let mut text = Vec::from_slice(alloc, row.before.as_bytes())?;
    for _turn in 0..count {
        text.extend_from_slice(row.piece.as_bytes())?;
    }
    text.extend_from_slice(row.middle.as_bytes())?;
    for _turn in 0..count {
        text.extend_from_slice(row.last.as_bytes())?;
    }
    text.extend_from_slice(row.behind.as_bytes())?;
    Ok(text)
}

/// Pieces so many times are a file, or else pass the limit.
fn compare_repeated(
    rt: &impl Abort,
    alloc: Global,
    row: &Repeated,
    count: usize,
    want: &'static str,
) -> Result<(), Fail> {
    let text = repeated(alloc, row, count)?;
    let got = answer(alloc, text.as_slice(), Shown::Nothing)?;
    assert_eq!(rt; got.as_str(), want, "{count} times {}", row.piece);
    Ok(())
}

#[test]
fn the_nesting_at_its_limit(rt: HostRuntime) -> Result<(), Fail> {
    for row in &AT_LIMIT {
        compare_repeated(&rt, rt.alloc(), row, row.most, "ok")?;
        compare_repeated(&rt, rt.alloc(), row, row.most + 1, "Nesting 256")?;
    }
    Ok(())
}

#[test]
fn commas_reset_the_nesting_and_not_the_depth_of_trees(rt: HostRuntime) -> Result<(), Fail> {
    for row in &UNLIMITED {
        compare_repeated(&rt, rt.alloc(), row, row.most, "ok")?;
    }
    Ok(())
}

#[test]
fn the_limit_comes_before_the_brackets(rt: HostRuntime) -> Result<(), Fail> {
    compare_repeated(&rt, rt.alloc(), &BRACES, BRACES.most, "Nesting 256")
}

#[test]
fn brackets_come_before_the_grammar(rt: HostRuntime) -> Result<(), Fail> {
    compare(&rt, rt.alloc(), &BRACKETS, "", "")
}

/// The place of the first bracket without a partner, by the bytes alone: in the text no bracket stands in a constant.
fn first_unmatched(alloc: Global, text: &[u8]) -> Result<Option<usize>, Fail> {
    let mut open: Vec<usize> = Vec::new(alloc);
    for (at, byte) in text.iter().enumerate() {
        match *byte {
            b'(' | b'[' | b'{' => open.push(at)?,
            b')' | b']' | b'}' => {
                let _ = open.pop();
            }
            _ => {}
        }
    }
    Ok(open.first().copied())
}

/// The length of the longest front, no longer than this, that is a file.
fn longest_file(alloc: Global, text: &[u8], most: usize) -> Result<usize, Fail> {
    for fewer in 0..most {
        let len = most - fewer;
        if let Some(front) = text.get(..len) {
            if answer(alloc, front, Shown::Nothing)?.as_str() == "ok" {
                return Ok(len);
            }
        }
    }
    Ok(0)
}

/// Looks at the fronts of these lengths: where no bracket is open, what is refused is refused behind the longest front that is a file.
fn compare_fronts(rt: &impl Abort, alloc: Global, from: usize, to: usize) -> Result<(), Fail> {
    let text = RICH.as_bytes();
    let mut start = longest_file(alloc, text, from)?;
    for len in from..to {
        let Some(front) = text.get(..len) else {
            return Ok(());
        };
        let got = answer(alloc, front, Shown::Nothing)?;
        if got.as_str() == "ok" {
            start = len;
        } else if !got.as_str().starts_with("K5@") {
            let place = first_unmatched(alloc, front)?.unwrap_or(start);
            let want = format!(in alloc; "K6@{place}")?;
            assert_eq!(rt; got.as_str(), want.as_str(), "at {len}");
        }
    }
    Ok(())
}

#[test]
fn each_front_of_a_file_of_classes(rt: HostRuntime) -> Result<(), Fail> {
    compare_fronts(&rt, rt.alloc(), 0, 700)
}

#[test]
fn each_longer_front(rt: HostRuntime) -> Result<(), Fail> {
    compare_fronts(&rt, rt.alloc(), 700, 1100)
}

#[test]
fn each_still_longer_front(rt: HostRuntime) -> Result<(), Fail> {
    compare_fronts(&rt, rt.alloc(), 1100, 1400)
}

#[test]
fn each_front_but_the_longest(rt: HostRuntime) -> Result<(), Fail> {
    compare_fronts(&rt, rt.alloc(), 1400, 1700)
}

#[test]
fn each_of_the_longest_fronts(rt: HostRuntime) -> Result<(), Fail> {
    let whole = answer(rt.alloc(), RICH.as_bytes(), Shown::Nothing)?;
    assert_eq!(rt; whole.as_str(), "ok");
    compare_fronts(&rt, rt.alloc(), 1700, RICH.len())
}
