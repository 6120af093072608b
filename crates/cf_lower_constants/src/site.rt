//! What the statements of an initialiser stand in.

use cf_lower_types::Tables;
use std::alloc::Global;

/// What the statements of an initialiser stand in.
#[derive(Drop)]
pub struct Site<'a> {
    pub alloc: Global,
    pub tables: &'a Tables<'a>,
    /// The function whose literals its literals are numbered with, by its link name.
    pub owner: &'a [u8],
}
