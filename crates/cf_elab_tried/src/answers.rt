//! What a text is answered, and what a row wants, in letters.

use cf_core::CoreUnit;
use cf_first::{Fault, first};
use std::alloc::Global;
use std::process::Abort;
use std::test::Fail;

/// What is said of a file that is taken.
#[derive(Clone, Copy)]
enum Shown {
    Nothing,
    /// How many functions and static objects its core has.
    Counts,
}

/// Why a text has no core.
fn refused(alloc: Global, fault: &Fault) -> Result<String, Fail> {
    match fault {
        Fault::Broken(broken) => Ok(format!(in alloc; "K{}@{}", broken.rule.number(), broken.at)?),
        Fault::Limit(limit) => Ok(format!(in alloc; "{:?} {}", limit.bound, limit.most)?),
        Fault::Memory => Err(Fail::from("out of memory")),
    }
}

fn core_shown(alloc: Global, core: &CoreUnit, shown: Shown) -> Result<String, Fail> {
    match shown {
        Shown::Nothing => Ok(format!(in alloc; "taken")?),
        Shown::Counts => {
            let functions = core.functions().len();
            let objects = core.statics().len();
            Ok(format!(in alloc; "{functions} functions, {objects} objects")?)
        }
    }
}

/// What a text is: a file that is taken, or the one reason why it is refused.
fn answer(alloc: Global, text: &[u8], shown: Shown) -> Result<String, Fail> {
    let found = first(alloc, text);
    match &found {
        Ok(core) => core_shown(alloc, core, shown),
        Err(fault) => refused(alloc, fault),
    }
}

/// A text, and the place of the `$` that stood in it.
#[derive(Drop)]
struct Marked {
    text: Vec<u8>,
    mark: usize,
}

fn add(marked: &mut Marked, part: &str) -> Result<(), Fail> {
    for byte in part.as_bytes() {
        if *byte == b'$' {
            marked.mark = marked.text.len();
        } else {
            marked.text.push(*byte)?;
        }
    }
    Ok(())
}

fn joined(alloc: Global, before: &str, text: &str, behind: &str) -> Result<Marked, Fail> {
    let mut marked = Marked {
        text: Vec::new(alloc),
        mark: 0,
    };
    add(&mut marked, before)?;
    add(&mut marked, text)?;
    add(&mut marked, behind)?;
    Ok(marked)
}

fn wanted(alloc: Global, rule: u8, mark: usize) -> Result<String, Fail> {
    match rule {
        0 => Ok(format!(in alloc; "taken")?),
        _ => Ok(format!(in alloc; "K{rule}@{mark}")?),
    }
}

/// Each row between two pieces is answered as it says.
pub fn compare(
    rt: &impl Abort,
    alloc: Global,
    before: &'static str,
    rows: &[(&'static str, u8)],
    behind: &'static str,
) -> Result<(), Fail> {
    for (text, rule) in rows {
        let marked = joined(alloc, before, text, behind)?;
        let want = wanted(alloc, *rule, marked.mark)?;
        let got = answer(alloc, marked.text.as_slice(), Shown::Nothing)?;
        assert_eq!(rt; got.as_str(), want.as_str(), "{text:?}");
    }
    Ok(())
}

/// Each text has its answer.
pub fn compare_whole(
    rt: &impl Abort,
    alloc: Global,
    rows: &[(&'static str, &'static str)],
) -> Result<(), Fail> {
    for (text, want) in rows {
        let got = answer(alloc, text.as_bytes(), Shown::Counts)?;
        assert_eq!(rt; got.as_str(), *want, "{text:?}");
    }
    Ok(())
}
