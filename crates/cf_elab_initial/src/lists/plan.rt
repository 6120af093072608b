use crate::lists::tree::Tree;
use cf_base::{Broken, Bytes, Items};
use cf_types::TyId;

/// What initialises what: each scalar by a value, an array by its elements or by the bytes of a literal, or the rule that is broken. Each has the
/// byte place of its own faults.
#[derive(Drop)]
pub enum Plan {
    /// A scalar of this type by an initialiser.
    ByValue { at: u32, ty: TyId, tree: Tree },
    ByList { at: u32, plans: Items<Plan> },
    ByText { at: u32, bytes: Bytes },
    Wrong(Broken),
}
