//! Numbers behind some tokens.

use crate::numbers_fit;
use cc_whole_tokens::{Mark, Token};
use cf_base::{Bytes, Memory};
use std::alloc::Global;
use std::test::Fail;

/// Whether `2147483648` fits behind these tokens.
fn fits_behind(alloc: Global, tokens: &[Mark], dash: bool) -> Result<bool, Memory> {
    let mut all = Vec::new(alloc);
    for mark in tokens {
        all.push(Token::Mark(*mark))?;
    }
    if dash {
        all.push(Token::Dash)?;
    }
    all.push(Token::Signed(Bytes::from_slice(alloc, b"2147483648")?))?;
    Ok(numbers_fit(all.as_slice()))
}

#[test]
fn the_least_int_has_a_sign(rt: HostRuntime) -> Result<(), Fail> {
    let alloc = rt.alloc();
    let cast = [Mark::LeftParen, Mark::Char, Mark::Star, Mark::RightParen];
    assert_eq!(rt; fits_behind(alloc, &[Mark::Return], false), Ok(false));
    assert_eq!(rt; fits_behind(alloc, &[Mark::Return], true), Ok(true));
    assert_eq!(rt; fits_behind(alloc, &cast, true), Ok(true));
    assert_eq!(rt; fits_behind(alloc, &[Mark::RightParen], true), Ok(false));
    Ok(())
}
