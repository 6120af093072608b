use cf_base::Name;
use cf_types::ClassId;

/// What a class or an enumeration is called.
#[derive(Debug, PartialEq, Eq, Drop)]
pub struct Label {
    /// Empty where it has no name (9, 7.2).
    pub name: Name,
    /// The class that it is declared in, if any (9.7).
    pub outer: Option<ClassId>,
}
