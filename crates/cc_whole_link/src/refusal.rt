/// A rule of linking.
#[derive(Clone, Copy, Debug, PartialEq, Eq)]
pub enum LinkRule {
    /// A used name has no definition.
    L1 = 1,
    /// A name has two definitions.
    L2 = 2,
    /// Two shared definitions of a name differ as they stand in their units.
    L3 = 3,
    /// No unit defines `main` or `__main`.
    L4 = 4,
    /// A name is declared with two types.
    L5 = 5,
    /// A version is not 1.
    L6 = 6,
}
