//! Trees by their parts. A part that there was no memory for is passed on as such, so that a tree is one expression.

use crate::shapes::{INT, open, signature};
use cf_base::{Arith, Boxed, Items, Kind, Memory, Name};
use cf_core::{LoopForm, PointerOperator};
use cf_run_tree::{Binary, Form, Node, ObjectType, Shape, Unary};
use std::alloc::Global;

/// A tree, or want of memory.
pub type Tree = Result<Boxed<Node>, Memory>;

/// Trees in order, or want of memory.
#[derive(Drop)]
pub struct List {
    pub trees: Result<Items<Node>, Memory>,
}

impl List {
    /// The list with one more at its end.
    pub fn then(self, tree: Tree) -> List {
        List {
            trees: appended(self.trees, tree),
        }
    }
}

fn appended(trees: Result<Items<Node>, Memory>, tree: Tree) -> Result<Items<Node>, Memory> {
    let mut trees = trees?;
    let tree = tree?;
    trees.push(tree.into_inner())?;
    Ok(trees)
}

/// Makes trees.
#[derive(Clone, Copy)]
pub struct Build {
    pub alloc: Global,
}

impl Build {
    pub fn node(self, node: Node) -> Tree {
        Boxed::new(self.alloc, node)
    }

    pub fn number(self, value: i64) -> Tree {
        self.node(Node::Number(value))
    }

    pub fn local(self, number: u32) -> Tree {
        self.node(Node::Local(number))
    }

    pub fn blank(self) -> Tree {
        self.node(Node::Blank)
    }

    pub fn apply(self, op: Unary, operand: Tree) -> Tree {
        let operand = operand?;
        self.node(Node::Apply(op, operand))
    }

    pub fn join(self, op: Binary, left: Tree, right: Tree) -> Tree {
        let left = left?;
        let right = right?;
        self.node(Node::Join(op, left, right))
    }

    /// What a place holds.
    pub fn read(self, place: Tree) -> Tree {
        self.apply(Unary::Read, place)
    }

    /// What a local holds.
    pub fn held(self, number: u32) -> Tree {
        self.read(self.local(number))
    }

    /// An operator on two operands of one kind.
    pub fn operate(self, op: Arith, kind: Kind, left: Tree, right: Tree) -> Tree {
        self.join(Binary::Operate(op, kind), left, right)
    }

    pub fn store(self, place: Tree, value: Tree) -> Tree {
        self.join(Binary::Store, place, value)
    }

    /// To an integer type.
    pub fn convert(self, kind: Kind, operand: Tree) -> Tree {
        self.apply(Unary::Convert(open(Form::Integer(kind))), operand)
    }

    /// The place that a pointer points to.
    pub fn behind(self, pointer: Tree) -> Tree {
        self.apply(Unary::Dereference, pointer)
    }

    /// A pointer to the first element of an array.
    pub fn first(self, array: Tree) -> Tree {
        self.apply(Unary::Decay, array)
    }

    pub fn point(self, op: PointerOperator, left: Tree, right: Tree) -> Tree {
        self.join(Binary::Point(op), left, right)
    }

    /// The element of an array that has this index.
    pub fn element(self, array: Tree, index: Tree) -> Tree {
        self.join(Binary::Index, self.first(array), index)
    }

    /// The static object of this name and type.
    pub fn named(self, name: &[u8], ty: ObjectType) -> Tree {
        let name = Name::from_slice(self.alloc, name)?;
        self.node(Node::Static(name, ty))
    }

    /// A temporary int.
    pub fn temporary(self, start: Tree) -> Tree {
        let start = start?;
        self.node(Node::Temporary(INT, start))
    }

    /// A reference to this place.
    pub fn bind(self, place: Tree) -> Tree {
        let place = place?;
        self.node(Node::Bind(place))
    }

    /// No trees yet.
    pub fn list(self) -> List {
        List {
            trees: Ok(Items::new(self.alloc)),
        }
    }

    /// A call of the function of this name and of these parameters, which gives an int.
    pub fn call(self, name: &[u8], params: &[Shape], arguments: List) -> Tree {
        let arguments = arguments.trees?;
        let name = Name::from_slice(self.alloc, name)?;
        let signature = signature(self.alloc, params)?;
        self.node(Node::Call(name, signature, arguments))
    }

    /// The function of this name and of these parameters, which gives an int.
    pub fn function(self, name: &[u8], params: &[Shape]) -> Tree {
        let name = Name::from_slice(self.alloc, name)?;
        let signature = signature(self.alloc, params)?;
        self.node(Node::Function(name, signature))
    }

    /// A call through a pointer to a function of these parameters, which gives an int.
    pub fn call_through(self, pointer: Tree, params: &[Shape], arguments: List) -> Tree {
        let pointer = pointer?;
        let arguments = arguments.trees?;
        let signature = signature(self.alloc, params)?;
        self.node(Node::PointerCall(pointer, signature, arguments))
    }

    /// `putchar(value)`
    pub fn put(self, value: Tree) -> Tree {
        self.call(b"putchar".as_slice(), &[INT], self.list().then(value))
    }

    /// `putchar(byte);`
    pub fn show(self, byte: i64) -> Tree {
        self.full(self.put(self.number(byte)))
    }

    pub fn full(self, expression: Tree) -> Tree {
        let expression = expression?;
        self.node(Node::Full(expression))
    }

    pub fn give(self, value: Tree) -> Tree {
        let value = value?;
        self.node(Node::Return(Some(value)))
    }

    /// A local of this number and type, with its initialiser.
    pub fn declare(self, number: u32, ty: ObjectType, start: Tree) -> Tree {
        let start = start?;
        self.node(Node::Declare(number, ty, start))
    }

    /// `while (condition) body`
    pub fn repeat(self, condition: Tree, body: Tree) -> Tree {
        let condition = condition?;
        let body = body?;
        self.node(Node::Loop(LoopForm::While, Some(condition), None, body))
    }

    /// `for (;;) ;`
    pub fn forever(self) -> Tree {
        let body = self.node(Node::Block(Items::new(self.alloc)))?;
        self.node(Node::Loop(LoopForm::For, None, None, body))
    }

    pub fn switch(self, operand: Tree, body: List) -> Tree {
        let operand = operand?;
        let body = body.trees?;
        self.node(Node::Switch(operand, body))
    }

    /// `case value:`
    pub fn label(self, value: i64) -> Tree {
        self.node(Node::Case(value))
    }
}
