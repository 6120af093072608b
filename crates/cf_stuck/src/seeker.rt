//! The finders of declarations, members and items at a depth.

use cf_parse_decl::{Known, Node, Wanted};
use cf_parse_expr::{Cursor, Stop};
use cf_stuck_statement::{Finder, Spot};
use std::alloc::Global;

/// The finders at a depth, over those of statements.
#[derive(Clone, Copy)]
pub struct Seeker<F, G> {
    pub finder: Finder<F, G>,
}
