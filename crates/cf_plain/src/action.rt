use cf_base::{Arith, Bytes, Items, Kind, Name};
use cf_classes::{MemberRef, Path};
use cf_core::{BuiltPart, Change, PointerOperator, Target, UnaryOperator};
use cf_types::{ClassId, TyId};

/// What one step does and gives. Operands are the numbers of registers; a place stands for an lvalue and for a pointer to it alike.
/// A local's number counts the parameters of its function first.
#[derive(Drop)]
pub enum Action {
    // values and places (5)
    /// A constant (2.5).
    Number {
        value: i64,
    },
    /// A string literal with its ending 0, and its number in its function (2.5.4).
    Text {
        number: u32,
        bytes: Bytes,
    },
    /// The object of a member function, as a place (9.3.1).
    This,
    /// The place of a result of class type (6.6.3).
    Result,
    Local {
        number: u32,
    },
    /// A static object, by its link name, and the type that the file declares it with.
    Static {
        name: Name,
        ty: TyId,
    },
    /// A function, by its link name, and the type that the file declares it with.
    Function {
        name: Name,
        ty: TyId,
    },
    /// The data member of this number of a place of its class (5.2.4).
    Member {
        object: u32,
        field: u32,
    },
    /// The base or data member of the object under construction (12.6.2).
    Part {
        part: BuiltPart,
    },
    /// The value of a scalar place (4.1).
    Read {
        place: u32,
    },
    /// The place that a pointer points to (5.3).
    Dereference {
        pointer: u32,
    },
    /// A pointer to the first element of an array (4.6).
    Decay {
        array: u32,
    },
    /// A pointer and an integer, in either order (5.2.1).
    Index {
        left: u32,
        right: u32,
    },
    /// To an integer type, from 0 to a pointer, or to void (4).
    Convert {
        ty: TyId,
        operand: u32,
    },
    /// From a place or pointer to a base (4.6, 4.7).
    Up {
        path: Path,
        operand: u32,
    },
    /// From a base at this path to the class (5.4).
    Down {
        class: ClassId,
        path: Path,
        operand: u32,
    },
    /// From `void*` to a pointer to this type (5.4).
    FromVoid {
        ty: TyId,
        operand: u32,
    },
    /// From a pointer to a member of the base at this path to one of the derived class (4.8).
    ToMember {
        path: Path,
        operand: u32,
    },
    /// A pointer to the data member of this number (5.3).
    DataPointer {
        field: u32,
    },
    /// A pointer to a member function (5.3).
    FunctionPointer {
        target: Target,
    },
    /// The data member of a place that a pointer names (5.5).
    Through {
        object: u32,
        pointer: u32,
    },
    /// On operands of a promoted type (5.6 to 5.13).
    Operate {
        op: Arith,
        kind: Kind,
        left: u32,
        right: u32,
    },
    Unary {
        op: UnaryOperator,
        kind: Kind,
        operand: u32,
    },
    /// 1 where the operand counts as true, else 0.
    Truth {
        operand: u32,
    },
    /// 1 where the operand counts as false, else 0.
    Not {
        operand: u32,
    },
    PointerOperate {
        op: PointerOperator,
        left: u32,
        right: u32,
    },
    /// The new value of a scalar that is changed in place by another value (5.17).
    Changed {
        change: Change,
        value: u32,
        by: u32,
    },
    // what is done to objects
    /// A value to a scalar place (5.17).
    Store {
        place: u32,
        value: u32,
    },
    /// The local is there; its place is given (6.7).
    Declare {
        local: u32,
        ty: TyId,
    },
    /// The first value of a scalar or reference (8.4).
    First {
        place: u32,
        value: u32,
    },
    /// Every scalar is 0 or null.
    Zeros {
        place: u32,
    },
    /// A char array by these bytes, and 0 behind (8.4.2).
    Characters {
        place: u32,
        bytes: Bytes,
    },
    /// The building of a class object by a list begins (8.4.1).
    BeginList {
        place: u32,
    },
    /// The building of a class object by a list has ended.
    EndList {
        place: u32,
    },
    /// A class object or array to a place, memberwise, as its first value (12.8).
    Carry {
        ty: TyId,
        to: u32,
        from: u32,
    },
    /// A class object or array over what stands at a place, memberwise (12.8).
    CarryOver {
        ty: TyId,
        to: u32,
        from: u32,
    },
    /// The local is destroyed, and its storage ends (6.6).
    Finish {
        ty: TyId,
        local: u32,
    },
    /// Storage for an object, or null (5.3.3).
    New {
        ty: TyId,
    },
    /// Storage for so many elements of this type, or null.
    NewArray {
        ty: TyId,
        count: u32,
    },
    /// Of a pointer to this type (5.3.4).
    Delete {
        ty: TyId,
        pointer: u32,
    },
    DeleteArray {
        ty: TyId,
        pointer: u32,
    },
    // static objects (3.4, 6.7)
    /// 1 where control has reached the initialiser of the static object, else 0.
    IsReached {
        name: Name,
    },
    Reach {
        name: Name,
    },
    /// The static object is to be destroyed at the end of the run.
    FinishStatic {
        name: Name,
    },
    // calls: on the locals that are the objects of parameters, and with the place for a result of class type (5.2.2)
    Call {
        function: Name,
        ty: TyId,
        object: Option<u32>,
        arguments: Items<u32>,
        result: Option<u32>,
    },
    /// Of a virtual function, whose overrider runs (10.2).
    VirtualCall {
        function: MemberRef,
        ty: TyId,
        object: u32,
        arguments: Items<u32>,
        result: Option<u32>,
    },
    /// Through a pointer to a function, or to a member function on an object.
    PointerCall {
        object: Option<u32>,
        pointer: u32,
        ty: TyId,
        arguments: Items<u32>,
        result: Option<u32>,
    },
    /// Of the constructor of this link name and type, on a place.
    Build {
        constructor: Name,
        ty: TyId,
        place: u32,
        arguments: Items<u32>,
    },
}
