//! How deep some texts are nested.

use crate::is_too_deep;
use cc_whole_tokens::{Mark, Token};
use std::alloc::Global;
use std::test::Fail;

/// So many of one token, and then one more.
fn row(alloc: Global, token: Mark, count: usize, last: Mark) -> Result<Vec<Token>, Fail> {
    let mut tokens = Vec::new(alloc);
    for _ in 0..count {
        tokens.push(Token::Mark(token))?;
    }
    tokens.push(Token::Mark(last))?;
    Ok(tokens)
}

#[test]
fn open_brackets_count_one_each(rt: HostRuntime) -> Result<(), Fail> {
    let alloc = rt.alloc();
    let most = row(alloc, Mark::LeftParen, 1020, Mark::LeftParen)?;
    assert!(rt; !is_too_deep(alloc, most.as_slice())?);
    let more = row(alloc, Mark::LeftParen, 1021, Mark::LeftParen)?;
    assert!(rt; is_too_deep(alloc, more.as_slice())?);
    Ok(())
}

#[test]
fn ends_reset_their_level(rt: HostRuntime) -> Result<(), Fail> {
    let alloc = rt.alloc();
    let ends = row(alloc, Mark::Semicolon, 3000, Mark::Comma)?;
    assert!(rt; !is_too_deep(alloc, ends.as_slice())?);
    let before_else = row(alloc, Mark::Break, 1021, Mark::Else)?;
    assert!(rt; is_too_deep(alloc, before_else.as_slice())?);
    Ok(())
}
