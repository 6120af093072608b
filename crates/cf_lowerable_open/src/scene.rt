//! What the statements of a file stand in.

use cf_lower_types::Tables;
use std::alloc::Global;

/// What the statements of a file stand in.
#[derive(Drop)]
pub struct Scene<'a> {
    pub alloc: Global,
    pub tables: &'a Tables<'a>,
}
