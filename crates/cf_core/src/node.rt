use crate::operators::{LoopForm, PointerOperator, UnaryOperator};
use cf_base::{Arith, Boxed, Bytes, Items, Kind, Name};
use cf_classes::{MemberRef, Path, Step};
use cf_types::{ClassId, TyId};

/// A member function that a pointer leads to (5.3).
#[derive(Debug, Drop)]
pub enum Target {
    /// The function of this link name.
    Direct(Name),
    /// The overrider of this virtual function in the object's class.
    Dispatched(MemberRef),
}

/// How a scalar is changed in place (5.2.5, 5.3, 5.17).
#[derive(Clone, Copy, Debug, PartialEq, Eq)]
pub enum Change {
    /// By an operator at one integer type, and back to another.
    Arithmetic { op: Arith, at: Kind, to: Kind },
    /// A pointer is moved forward or back by a number of elements.
    Moved { back: bool },
}

/// What a reference binds (8.4.3).
#[derive(Debug, Drop)]
pub enum Holder {
    /// A place, or a temporary of the full expression.
    NoTemporary,
    /// A temporary that lives as long as a local reference, as the local of this number and type.
    LocalTemporary { local: u32, ty: TyId },
    /// A temporary that lives as long as a static reference, by its link name.
    StaticTemporary(Name),
}

/// A base or data member that a constructor builds (12.6.2).
#[derive(Clone, Copy, Debug, PartialEq, Eq)]
pub enum BuiltPart {
    Base(Step),
    /// The nonstatic data member of this number, from 0.
    Field(u32),
}

/// A base or data member with its initialiser.
#[cycle(core)]
#[derive(Drop)]
pub struct PartStart {
    pub part: BuiltPart,
    pub start: Core,
}

/// A node of the typed core. `at` is the byte place of its construct; in a generated function, of the class's name.
///
/// An expression gives a value, or a place for an lvalue. An initialiser builds a place that it is given; an expression is one too.
/// A local's number counts the parameters of its function first.
#[cycle(core)]
#[derive(Drop)]
pub enum Core {
    // values and places (5)
    /// A constant (2.5).
    Number {
        at: u32,
        value: i64,
    },
    /// A string literal with its ending 0, and its number in its function (2.5.4).
    Text {
        at: u32,
        number: u32,
        bytes: Bytes,
    },
    /// The object of a member function, as a place (9.3.1).
    This {
        at: u32,
    },
    Local {
        at: u32,
        number: u32,
    },
    /// A static object, by its link name, and the type that the file declares it with.
    Static {
        at: u32,
        name: Name,
        ty: TyId,
    },
    /// A function, by its link name, and the type that the file declares it with.
    Function {
        at: u32,
        name: Name,
        ty: TyId,
    },
    /// The data member of this number of a place of its class (5.2.4).
    Member {
        at: u32,
        object: Boxed<Core>,
        field: u32,
    },
    /// The value of a scalar place (4.1).
    Read {
        at: u32,
        place: Boxed<Core>,
    },
    /// A pointer to a place (5.3).
    Address {
        at: u32,
        place: Boxed<Core>,
    },
    /// The place that a pointer points to (5.3).
    Dereference {
        at: u32,
        pointer: Boxed<Core>,
    },
    /// A pointer to the first element of an array (4.6).
    Decay {
        at: u32,
        array: Boxed<Core>,
    },
    /// A pointer and an integer, in either order (5.2.1).
    Index {
        at: u32,
        left: Boxed<Core>,
        right: Boxed<Core>,
    },
    /// To an integer type, from 0 to a pointer, or to void (4).
    Convert {
        at: u32,
        ty: TyId,
        operand: Boxed<Core>,
    },
    /// From a place or pointer to a base (4.6, 4.7).
    Up {
        at: u32,
        path: Path,
        operand: Boxed<Core>,
    },
    /// From a base at this path to the class (5.4).
    Down {
        at: u32,
        class: ClassId,
        path: Path,
        operand: Boxed<Core>,
    },
    /// From `void*` to a pointer to this type (5.4).
    FromVoid {
        at: u32,
        ty: TyId,
        operand: Boxed<Core>,
    },
    /// From a pointer to a member of the base at this path to one of the derived class (4.8).
    ToMember {
        at: u32,
        path: Path,
        operand: Boxed<Core>,
    },
    /// A pointer to the data member of this number (5.3).
    DataPointer {
        at: u32,
        field: u32,
    },
    /// A pointer to a member function (5.3).
    FunctionPointer {
        at: u32,
        target: Target,
    },
    /// The data member of a place that a pointer names (5.5).
    Through {
        at: u32,
        object: Boxed<Core>,
        pointer: Boxed<Core>,
    },
    /// On operands of a promoted type (5.6 to 5.13).
    Operate {
        at: u32,
        op: Arith,
        kind: Kind,
        left: Boxed<Core>,
        right: Boxed<Core>,
    },
    Unary {
        at: u32,
        op: UnaryOperator,
        kind: Kind,
        operand: Boxed<Core>,
    },
    Not {
        at: u32,
        operand: Boxed<Core>,
    },
    And {
        at: u32,
        left: Boxed<Core>,
        right: Boxed<Core>,
    },
    Or {
        at: u32,
        left: Boxed<Core>,
        right: Boxed<Core>,
    },
    PointerOperate {
        at: u32,
        op: PointerOperator,
        left: Boxed<Core>,
        right: Boxed<Core>,
    },
    Conditional {
        at: u32,
        condition: Boxed<Core>,
        yes: Boxed<Core>,
        no: Boxed<Core>,
    },
    Comma {
        at: u32,
        operands: Items<Core>,
    },
    /// A value to a scalar place (5.17).
    Store {
        at: u32,
        place: Boxed<Core>,
        value: Boxed<Core>,
    },
    /// `op=` (5.17).
    Update {
        at: u32,
        place: Boxed<Core>,
        change: Change,
        value: Boxed<Core>,
    },
    /// `++` and `--`; behind the operand they give the value before.
    Increment {
        at: u32,
        is_postfix: bool,
        change: Change,
        place: Boxed<Core>,
    },
    /// A class object or array to a place, memberwise or by its class's assignment (12.8). Where that takes an object and not a
    /// reference, the copy constructor builds it with these default arguments behind the first.
    Assign {
        at: u32,
        ty: TyId,
        to: Boxed<Core>,
        from: Boxed<Core>,
        further: Items<Core>,
    },
    /// A temporary, built by an initialiser (12.2).
    Temporary {
        at: u32,
        ty: TyId,
        start: Boxed<Core>,
    },
    /// Of a function by its link name and type, on an object (5.2.2).
    Call {
        at: u32,
        function: Name,
        ty: TyId,
        object: Option<Boxed<Core>>,
        arguments: Items<Core>,
    },
    /// Of a virtual function, whose overrider runs (10.2).
    VirtualCall {
        at: u32,
        function: MemberRef,
        ty: TyId,
        object: Boxed<Core>,
        arguments: Items<Core>,
    },
    /// Through a pointer to a function, or to a member function on an object.
    PointerCall {
        at: u32,
        object: Option<Boxed<Core>>,
        pointer: Boxed<Core>,
        ty: TyId,
        arguments: Items<Core>,
    },
    /// With the initialiser of the object (5.3.3).
    New {
        at: u32,
        ty: TyId,
        start: Boxed<Core>,
    },
    /// Of elements of this type, with their number and the initialiser of the array.
    NewArray {
        at: u32,
        ty: TyId,
        count: Boxed<Core>,
        start: Boxed<Core>,
    },
    /// Of a pointer to this type (5.3.4).
    Delete {
        at: u32,
        ty: TyId,
        pointer: Boxed<Core>,
    },
    DeleteArray {
        at: u32,
        ty: TyId,
        pointer: Boxed<Core>,
    },
    // initialisers (8.4, 12.6)
    /// By the constructor of this link name and type.
    Build {
        at: u32,
        constructor: Name,
        ty: TyId,
        arguments: Items<Core>,
    },
    /// From another place of this type, memberwise or by its copy constructor, with these default arguments behind the first
    /// (12.8, 8.2.6).
    Copy {
        at: u32,
        ty: TyId,
        from: Boxed<Core>,
        further: Items<Core>,
    },
    /// Every element of an array by one initialiser.
    Each {
        at: u32,
        start: Boxed<Core>,
    },
    /// Elements or members in order, and each one more by the last initialiser (8.4.1).
    List {
        at: u32,
        starts: Items<Core>,
        rest: Boxed<Core>,
    },
    /// A char array by these bytes, and 0 behind (8.4.2).
    Characters {
        at: u32,
        bytes: Bytes,
    },
    /// A reference (8.4.3).
    Bind {
        at: u32,
        holder: Holder,
        operand: Boxed<Core>,
    },
    /// Every scalar is 0 or null.
    Zeros {
        at: u32,
    },
    /// Nothing is done.
    Blank {
        at: u32,
    },
    // statements (6)
    /// An expression statement.
    Full {
        at: u32,
        expression: Boxed<Core>,
    },
    Block {
        at: u32,
        statements: Items<Core>,
    },
    /// Statements in order, in the scope at hand: a declaration and its `for` (6.5.3).
    Sequence {
        at: u32,
        statements: Items<Core>,
    },
    /// A local, of this type and with its initialiser (6.7).
    Declare {
        at: u32,
        local: u32,
        ty: TyId,
        start: Boxed<Core>,
    },
    /// The initialiser of a local static object, run when it is first reached (6.7).
    Once {
        at: u32,
        name: Name,
        start: Boxed<Core>,
    },
    If {
        at: u32,
        condition: Boxed<Core>,
        yes: Boxed<Core>,
        no: Option<Boxed<Core>>,
    },
    Loop {
        at: u32,
        form: LoopForm,
        condition: Option<Boxed<Core>>,
        step: Option<Boxed<Core>>,
        body: Boxed<Core>,
    },
    /// The body holds the labels among its statements.
    Switch {
        at: u32,
        operand: Boxed<Core>,
        body: Items<Core>,
    },
    Case {
        at: u32,
        value: i64,
    },
    Default {
        at: u32,
    },
    Break {
        at: u32,
    },
    Continue {
        at: u32,
    },
    /// With the initialiser of the result.
    Return {
        at: u32,
        value: Option<Boxed<Core>>,
    },
    /// A constructor's initialisers in order of building, and its body (12.6.2).
    Parts {
        at: u32,
        parts: Items<PartStart>,
        body: Boxed<Core>,
    },
}
