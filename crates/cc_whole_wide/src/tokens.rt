//! Others for the tokens of some items.

ghost use Rattle.std.specs.Prelude.{◌≡◌, IfOk};
ghost use Rattle.cc_whole_wide.specs.Others as spec;
ghost use Rattle.cc_whole_wide.specs.Roles as roles;

use crate::landmark::is_landmark;
use crate::put::put;
use crate::role::{Role, behind_number, mark_role};
use cc_whole_fitting::{Before, behind, token_fits};
use cc_whole_tokens::Token;
use cf_base::Memory;
use std::alloc::Global;

fn role_behind(token: &Token, before: Before, role: Role) -> Role
    ensures { result ≡ roles.role_behind token.now before role }
{
    match token {
        Token::Mark(mark) => mark_role(*mark, role),
        Token::Dash => role,
        Token::Signed(_) | Token::Unsigned(_) => behind_number(token_fits(token, before), role),
        Token::Name(_) | Token::Text(_) | Token::Shared => Role::Value,
    }
}

/// The tokens that stand for those of some items, without numbers that do not fit.
pub fn others(alloc: Global, tokens: &[Token]) -> Result<Vec<Token>, Memory>
    ensures { IfOk result (λ made. made.items ≡ spec.others tokens.now) }
{
    let mut made = Vec::new(alloc);
    let mut before = Before::Other;
    let mut role = Role::Value;
    for token in tokens {
        put(alloc, &mut made, token, before, role)?;
        role = role_behind(token, before, role);
        before = behind(token, before);
    }
    Ok(made)
}

/// How many landmarks stand before the first number that does not fit, if there is one.
pub fn first_wide(tokens: &[Token]) -> Option<usize>
    ensures { result ≡ spec.first_wide tokens.now }
{
    let mut count = 0usize;
    let mut before = Before::Other;
    for token in tokens {
        if !token_fits(token, before) {
            return Some(count);
        }
        if is_landmark(token) {
            count += 1;
        }
        before = behind(token, before);
    }
    None
}
