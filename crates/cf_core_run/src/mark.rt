use cf_base::Boxed;
use cf_core::LoopForm;
use cf_core_objects::{Entered, Integer, Value};
use cf_core_place::{Goal, Row};
use cf_core_store::Applied;
use cf_run_tree::{Binary, Node, RunFn, RunStatic, Shape, Signature};

/// How a statement ends.
#[derive(Clone, Copy)]
pub enum Flow<'a> {
    Falls,
    Breaks,
    Continues,
    Returns(Value<'a>),
}

/// A call whose arguments are being evaluated.
#[derive(Drop)]
pub struct Calling<'a> {
    /// What is called: a function, or what a pointer held that is no function.
    pub callee: Value<'a>,
    /// The types of the parameters that are left, and their arguments.
    pub params: &'a [Shape],
    pub rest: &'a [Node],
    /// The objects of the parameters so far.
    pub made: Vec<usize>,
}

/// A list of the elements of an array, of which some are initialised (8.4.1).
#[derive(Clone, Copy)]
pub struct Listing<'a> {
    pub array: Row,
    /// The next element, and how many there are.
    pub index: u32,
    pub count: u32,
    /// The initialisers that are left.
    pub rest: &'a [Node],
    /// The initialiser of each element behind these.
    pub filler: &'a Boxed<Node>,
}

/// A loop: its condition, its step and its body.
#[derive(Clone, Copy)]
pub struct Repeated<'a> {
    pub form: LoopForm,
    pub condition: &'a Option<Boxed<Node>>,
    pub step: &'a Option<Boxed<Node>>,
    pub body: &'a Boxed<Node>,
}

/// What is left of an expression once the value at hand is there.
#[derive(Drop)]
pub enum ValueMark<'a> {
    Apply(Applied<'a>),
    /// The right operand comes.
    Right(Binary, &'a Boxed<Node>),
    And(&'a Boxed<Node>),
    Or(&'a Boxed<Node>),
    Choice(&'a Boxed<Node>, &'a Boxed<Node>),
    Comma(&'a [Node]),
    /// What is called is there; its type, and the arguments, which come.
    Callee(&'a Signature, &'a [Node]),
    /// The parameter with this object gets the value, and the other arguments come.
    Argument(Calling<'a>, usize),
    /// The temporary with this object gets the value, and lives to the end of the full expression.
    Temporary(usize),
    /// The temporary with this object gets the value, and lives as long as a local.
    Held(usize),
    /// A function of the library has given the value, and the storage of these parameters ends, the last of the list first.
    Library(Vec<usize>),
    /// An element of an array has its value, and the others come.
    Element(Listing<'a>),
    /// A static object has its value, and these others come.
    Constant(&'a [RunStatic]),
    /// A full expression ends, and the one around it has these temporaries.
    Whole(Vec<usize>),
    /// The same of an initialiser: this goal gets the value before.
    Stored(Goal, Vec<usize>),
}

/// What is left of a statement once the value at hand is there.
#[derive(Clone, Copy)]
pub enum TestMark<'a> {
    /// An expression statement ends.
    Statement,
    If(&'a Boxed<Node>, &'a Option<Boxed<Node>>),
    /// The condition before the body of a loop.
    First(Repeated<'a>),
    /// The condition behind it.
    Last(Repeated<'a>),
    /// The step of a `for` was done.
    Stepped(Repeated<'a>),
    /// A local with this object has its value.
    Declared(usize),
    Result,
    Switch(&'a [Node]),
}

/// What is left of a statement once a part of it has ended.
#[derive(Drop)]
pub enum FlowMark<'a> {
    Rest(&'a [Node]),
    /// A scope ends, and the one around it has these objects.
    Scope(Vec<usize>),
    /// The body of a loop was done.
    Turn(Repeated<'a>),
    /// A switch ends.
    Leaving,
    /// The parameters of a function end.
    Parameters(Vec<usize>),
}

/// What is left to do. Each mark keeps how deep functions and turns may still be begun inside it.
#[derive(Drop)]
pub enum Mark<'a> {
    Value(u64, ValueMark<'a>),
    Test(u64, TestMark<'a>),
    Flow(u64, FlowMark<'a>),
    /// A function with a result of this type ends, and the one that called it goes on.
    Back(u64, Shape, Entered<'a>),
}

/// What is being done.
#[derive(Drop)]
pub enum Doing<'a> {
    /// The program begins: its static objects are made.
    Starts,
    /// These static objects get their constant initialisers, and then `main` is called.
    Sets(&'a [RunStatic]),
    /// An expression, or an initialiser of this goal.
    Evaluate(&'a Node, Option<Goal>),
    Gives(Value<'a>),
    /// The next element of an array.
    Lists(Listing<'a>),
    /// The next argument of a call.
    Passes(Calling<'a>),
    /// A function is entered with these objects as its parameters.
    Enter(&'a RunFn, Vec<usize>),
    Body(&'a RunFn, Vec<usize>),
    Perform(&'a Node),
    Follow(&'a [Node]),
    /// The statements behind the label of a switch for this number, which is among these.
    Case(Integer, &'a [Node]),
    /// Those behind `default`.
    Default(&'a [Node]),
    /// The next turn of a loop.
    Repeat(Repeated<'a>),
    Ends(Flow<'a>),
    /// The next byte of the input.
    Asks,
}
