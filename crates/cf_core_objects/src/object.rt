use crate::answer::Value;
use cf_core_place::Part;
use cf_run_tree::{Bounds, Shape};
use std::alloc::Global;

/// Where an object is stored, and so what it holds at first.
#[derive(Clone, Copy, Debug)]
pub enum Storage<'a> {
    /// In a function: it holds nothing.
    Automatic,
    /// For the whole run: it is zeroed (8.4).
    Permanent,
    /// In a string literal of these bytes (2.5.4).
    Literal(&'a [u8]),
}

/// What was done to a part of an object.
#[derive(Clone, Copy, Debug)]
pub enum Held<'a> {
    /// It got a value.
    Value(Part, Value<'a>),
    /// It was zeroed, with each scalar in it.
    Zeros(Part),
}

/// An object: a scalar, or an array of scalars.
#[derive(Drop)]
pub struct Cell<'a> {
    /// The type of its scalars.
    pub shape: Shape,
    pub bounds: Bounds,
    pub storage: Storage<'a>,
    /// What was done to its parts, the oldest first; what tells no more of what they hold may be left out.
    pub log: Vec<Held<'a>>,
    pub is_gone: bool,
}

/// The object of the string literal of this number in a function (2.5.4).
#[derive(Clone, Copy, Debug)]
pub struct Literal<'a> {
    /// The link name of the function.
    pub function: &'a [u8],
    pub number: u32,
    pub object: usize,
}

/// What a run has made so far.
#[derive(Drop)]
pub struct Objects<'a> {
    pub alloc: Global,
    /// The objects, by their numbers.
    pub cells: Vec<Cell<'a>>,
    /// The string literals that were reached, the oldest first.
    pub literals: Vec<Literal<'a>>,
    /// The link names of the static objects whose initialiser control has reached, the oldest first (6.7).
    pub reached: Vec<&'a [u8]>,
}

/// A function that was entered and has not ended.
#[derive(Drop)]
pub struct Entered<'a> {
    /// Its link name.
    pub name: &'a [u8],
    /// How many more functions may be entered.
    pub depth: u32,
    /// How many parameters and locals it has.
    pub count: usize,
    /// The objects of its parameters, and of its locals that were reached; the last ones may be left out that were not.
    pub locals: Vec<Option<usize>>,
    /// The objects declared in the innermost open scope, the oldest first.
    pub scope: Vec<usize>,
    /// The temporaries of the full expression at hand, the oldest first.
    pub temporaries: Vec<usize>,
}
