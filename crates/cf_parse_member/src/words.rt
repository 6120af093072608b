//! The words of members by number: signs by their own numbers, keywords from 64 on.

/// `:` and `{`, which begin what stands behind the declarator of a function.
pub const BODY: [u16; 2] = [8, 4];
