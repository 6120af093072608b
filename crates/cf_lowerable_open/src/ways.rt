//! What is around statements.

use crate::heads::Head;
use crate::opened::Opened;

/// What is open at the labels of the switch around.
#[derive(Drop)]
pub enum Labels {
    /// No label may stand here.
    Nowhere,
    /// These are, at each.
    Everywhere(Vec<Opened>),
    /// These are, and what a switch of these statements before it declares at the same label.
    Passed(Vec<Head>, Vec<Opened>),
}

/// What is open where `break` and `continue` lead and at the labels of the switch around.
#[derive(Drop)]
pub struct Ways {
    pub breaks: Option<Vec<Opened>>,
    pub continues: Option<Vec<Opened>>,
    pub labels: Labels,
}
