use cc_whole_memory::{Pointer, Scalar};

/// What the name of a variable stands for.
#[derive(Clone, Copy, Debug, PartialEq, Eq)]
pub enum Shape {
    /// A value of this type.
    Single(Scalar),
    /// An array, by its address.
    Array,
}

/// What a name in scope stands for.
#[derive(Clone, Copy, Debug, PartialEq, Eq)]
pub enum Named {
    /// A variable, by the number of its block.
    Variable(usize, Shape),
    /// A function, by its number.
    Function(usize),
}

/// Where a load or a store of a type is.
#[derive(Clone, Copy, Debug, PartialEq, Eq)]
pub struct Target {
    pub pointer: Pointer,
    pub scalar: Scalar,
}
