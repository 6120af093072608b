//! What is at hand while specifiers and declarators are read.

use crate::specifier::Specifier;
use cf_base::Items;
use cf_syntax::NameKind;

/// The specifiers of a declaration, as far as they were read (7.1).
#[derive(Drop)]
pub struct Given {
    pub list: Items<Specifier>,
    /// What the type stands for that one of them names.
    pub kind: Option<NameKind>,
    pub is_typedef: bool,
    pub is_friend: bool,
}
