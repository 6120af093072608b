use crate::program::Signature;
use crate::shape::{ObjectType, Shape};
use cf_base::{Arith, Boxed, Bytes, Items, Kind, Name};
use cf_core::{LoopForm, PointerOperator, UnaryOperator};

/// An operator at one integer type, and the type that its value goes back to (5.17).
#[derive(Clone, Copy, Debug, PartialEq, Eq)]
pub struct Operation {
    pub op: Arith,
    pub at: Kind,
    pub to: Kind,
}

/// How a scalar is changed in place (5.2.5, 5.3, 5.17).
#[derive(Clone, Copy, Debug, PartialEq, Eq)]
pub enum Change {
    Arithmetic(Operation),
    /// A pointer, by a number of elements: forward or, where true, back.
    Moved(bool),
}

/// What is made of one operand.
#[derive(Clone, Copy, Debug, PartialEq, Eq)]
pub enum Unary {
    /// The value of a scalar place (4.1).
    Read,
    /// A pointer to a place (5.3).
    Address,
    /// The place that a pointer points to (5.3).
    Dereference,
    /// A pointer to the first element of an array; a function stays what it is (4.6).
    Decay,
    /// To an integer type, an enumeration, from 0 to a pointer, or to void (4).
    Convert(Shape),
    Sign(UnaryOperator, Kind),
    Not,
    /// `++` and `--`; behind the operand, where true, they give the value before (5.2.5, 5.3).
    Increment(bool, Change),
}

/// What is made of two operands, the left one first.
#[derive(Clone, Copy, Debug, PartialEq, Eq)]
pub enum Binary {
    /// On operands of a promoted type (5.6 to 5.13).
    Operate(Arith, Kind),
    /// A value to a scalar place (5.17).
    Store,
    /// `op=` (5.17).
    Update(Change),
    /// A pointer and an integer, in either order (5.2.1).
    Index,
    /// On pointers (5.7, 5.9, 5.10).
    Point(PointerOperator),
}

/// An expression, an initialiser or a statement.
#[derive(Drop)]
pub enum Node {
    // expressions (5)
    Number(i64),
    /// The string literal of this number in its function, with its ending 0 (2.5.4).
    Text(u32, Bytes),
    /// A function by its link name. Its type is that of its definition, or this one where the program defines none of that name.
    Function(Name, Signature),
    /// A parameter or local; parameters come first.
    Local(u32),
    /// A static object by its link name. Its type is that of its definition, or this one where the program defines none of that name.
    Static(Name, ObjectType),
    Apply(Unary, Boxed<Node>),
    Join(Binary, Boxed<Node>, Boxed<Node>),
    And(Boxed<Node>, Boxed<Node>),
    Or(Boxed<Node>, Boxed<Node>),
    Conditional(Boxed<Node>, Boxed<Node>, Boxed<Node>),
    Comma(Items<Node>),
    /// A temporary of the full expression, of this type and with its initialiser (12.2).
    Temporary(Shape, Boxed<Node>),
    /// Of a function by its link name, whose type is as that of a function that is named (5.2.2).
    Call(Name, Signature, Items<Node>),
    /// Of what a pointer to a function of this type points to (5.2.2).
    PointerCall(Boxed<Node>, Signature, Items<Node>),
    // initialisers (8.4)
    /// A reference, to a place (8.4.3).
    Bind(Boxed<Node>),
    /// A reference to a temporary that lives as long as the reference, as the local of this number and type (8.4.3, 12.2).
    Hold(u32, Shape, Boxed<Node>),
    /// The elements of an array in order, and each one more by the last initialiser (8.4.1).
    List(Items<Node>, Boxed<Node>),
    /// A char array by these bytes, and 0 behind (8.4.2).
    Characters(Bytes),
    /// Every scalar is 0 or null.
    Zeros,
    /// Nothing is done.
    Blank,
    // statements (6)
    Full(Boxed<Node>),
    Block(Items<Node>),
    /// Statements in the scope at hand (6.5.3).
    Sequence(Items<Node>),
    /// A local of this number, its type and its initialiser (6.7).
    Declare(u32, ObjectType, Boxed<Node>),
    If(Boxed<Node>, Boxed<Node>, Option<Boxed<Node>>),
    /// The condition, the step and the body (6.5).
    Loop(LoopForm, Option<Boxed<Node>>, Option<Boxed<Node>>, Boxed<Node>),
    /// The body holds the labels among its statements (6.4.2).
    Switch(Boxed<Node>, Items<Node>),
    Case(i64),
    Default,
    Break,
    Continue,
    Return(Option<Boxed<Node>>),
}
