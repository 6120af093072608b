//! Jobs on files that pass a limit, or just don't.

use crate::outcome::Outcome;
use crate::tests::{Job, NONE_FAILS, check, check_text};
use cf_base::{Bound, Limit};
use std::alloc::{AllocError, Global};
use std::test::Fail;

#[test]
fn frame_passes_the_limit(rt: HostRuntime) -> Result<(), Fail> {
    let alloc = rt.alloc();
    let limit = Limit {
        bound: Bound::Frame,
        most: 65_536,
    };
    let want = Outcome::Limit {
        file: Some(1),
        limit,
    };
    let line = "a.C: limit Frame 65536\n";
    check_text(
        &rt,
        alloc,
        b"int main(){char b[65536];return 7;}",
        want,
        "",
        line,
    )?;
    let want = Outcome::Frames { product: 8_519_680 };
    let line = "cfront: frames 8519680\n";
    check_text(
        &rt,
        alloc,
        b"int main(){char b[8200];return 7;}",
        want,
        "",
        line,
    )
}

/// A `main` that returns 7 in so many brackets.
fn nested(alloc: Global, brackets: u32) -> Result<Vec<u8>, AllocError> {
    let mut text = Vec::from_slice(alloc, b"int main(){return ")?;
    for _ in 0..brackets {
        text.push(b'(')?;
    }
    text.push(b'7')?;
    for _ in 0..brackets {
        text.push(b')')?;
    }
    text.extend_from_slice(b";}")?;
    Ok(text)
}

#[test]
fn nesting(rt: HostRuntime) -> Result<(), Fail> {
    let alloc = rt.alloc();
    let most = nested(alloc, 250)?;
    let want = Outcome::Ended { status: 7 };
    check_text(&rt, alloc, &most, want, "", "cfront: ended 7\n")?;
    let more = nested(alloc, 251)?;
    let want = Outcome::Limit {
        file: Some(1),
        limit: Limit {
            bound: Bound::Nesting,
            most: 256,
        },
    };
    check_text(&rt, alloc, &more, want, "", "a.C: limit Nesting 256\n")
}

#[test]
fn long_file_passes_the_limit(rt: HostRuntime) -> Result<(), Fail> {
    let alloc = rt.alloc();
    let text = vec![in alloc; b' '; 1_048_577]?;
    let want = Outcome::Limit {
        file: Some(1),
        limit: Limit {
            bound: Bound::Bytes,
            most: 1_048_576,
        },
    };
    let job = Job {
        words: &["go", "a.C"],
        text: text.as_slice(),
        failing: NONE_FAILS,
    };
    check(&rt, alloc, &job, want, "a.C: limit Bytes 1048576\n")
}
