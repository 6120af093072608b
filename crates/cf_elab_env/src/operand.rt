use crate::value::Value;
use cf_base::Items;

/// What an expression is, before it is asked for one value.
#[derive(Drop)]
pub enum Operand {
    Value(Value),
    /// Functions of one name, by their numbers, with the byte place of the name.
    Functions { at: u32, numbers: Items<u32> },
}
