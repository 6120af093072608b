use crate::object::Object;
use cf_base::Items;
use cf_types::TyId;

/// What a name stands for.
#[derive(Debug, Drop)]
pub enum Entity {
    Object(Object),
    /// The functions of one name in one scope, by their numbers.
    Functions(Items<u32>),
    /// A type that `typedef` names.
    Alias(TyId),
    /// The enumeration of this number.
    Enum(u32),
    /// A constant of an enumeration: its type, and its value, which it does not have yet in its own expression.
    Enumerator(TyId, Option<i64>),
}
