/// An act of the small C without a meaning.
#[derive(Clone, Copy, Debug, PartialEq, Eq)]
pub enum Act {
    /// A signed result out of range.
    A1,
    /// A zero divisor.
    A2,
    /// A shift count that is negative or at least the width.
    A3,
    /// Null used or called.
    A4,
    /// A block that does not live.
    A5,
    /// A place outside its block.
    A6,
    /// No value of that kind stands there.
    A7,
    /// Pointers to different blocks compared or subtracted.
    A8,
    /// A function pointer called with another type.
    A9,
    /// What is freed is not the start of a live heap block.
    A10,
    /// The result of a call that returned none is used.
    A11,
}
