//! What a number is, by what stands before it.

ghost use Rattle.std.specs.Prelude.{◌≡◌};
ghost use Rattle.cc_whole_wide.specs.Roles as spec;

use cc_whole_tokens::Mark;

/// What a number is, by what stands before it and its sign.
#[derive(Clone, Copy, Debug, PartialEq, Eq)]
pub enum Role {
    /// The label behind `case`.
    Label,
    /// The number of elements behind `[`.
    Size,
    /// The number of a pair, behind `{`.
    Pair,
    /// A value. What stands behind the number of a pair that does not fit is its function.
    Function,
    /// Part of an expression.
    Value,
}

/// What a number behind a sign or word is.
pub fn mark_role(mark: Mark, role: Role) -> Role
    ensures { result ≡ spec.mark_role mark role }
{
    match mark {
        Mark::Case => Role::Label,
        Mark::LeftBracket => Role::Size,
        Mark::LeftBrace => Role::Pair,
        Mark::Comma => match role {
            Role::Function => Role::Function,
            Role::Label | Role::Size | Role::Pair | Role::Value => Role::Value,
        },
        _ => Role::Value,
    }
}

/// What stands behind a number: the function of a pair, where the number does not fit.
pub fn behind_number(fits: bool, role: Role) -> Role
    ensures { result ≡ spec.behind_number fits role }
{
    match (fits, role) {
        (false, Role::Pair) => Role::Function,
        _ => Role::Value,
    }
}
