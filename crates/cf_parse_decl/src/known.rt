//! What is known while a file is read.

ghost use Rattle.std.specs.Prelude.{◌≡◌, IfOk, OnOk};
ghost use Rattle.cf_unit.specs.Known.{with_names, with_block, closed_to, open_scopes};
ghost use Rattle.cf_parse_expr.specs.Reads.{Reads};
ghost use Rattle.cf_parse_expr.specs.Whole.{commas_at, assign_at, condition_at};

use cf_base::{Boxed, Bytes, Memory};
use cf_parse_expr::{Cursor, Scopes, Stop, whole};
use cf_syntax::{Expr, TypeNames};
use std::alloc::Global;
use std::marker::Model;

/// How the bodies of functions are read (9.3.2).
#[derive(Drop)]
pub enum Bodies {
    /// Where they stand.
    AtOnce,
    /// Not at all.
    LeftOut,
    /// With these names.
    Late(TypeNames),
}

/// The names of the open scopes, how bodies are read, and the name of the class whose members are read.
#[derive(Drop)]
pub struct Known {
    pub names: TypeNames,
    pub bodies: Bodies,
    pub own: Option<Bytes>,
}

impl Model for Known {
    ghost use Rattle.cf_unit.specs.Known.{Known as AllKnown};
    ghost use Rattle.cf_parse_decl.specs.BodiesSeen.{seen};

    ghost Value = { AllKnown };

    ghost view = { λ k. record { names = k.names; bodies = seen k.bodies; own = k.own } };
}

impl Bodies {
    /// The same in a value of its own.
    pub fn copy(&self) -> Result<Bodies, Memory>
        ensures { IfOk result (λ made. made ≡ self.now) }
    {
        match self {
            Bodies::AtOnce => Ok(Bodies::AtOnce),
            Bodies::LeftOut => Ok(Bodies::LeftOut),
            Bodies::Late(names) => Ok(Bodies::Late(names.copy()?)),
        }
    }
}

/// The same name in a value of its own.
fn copied(alloc: Global, name: &Option<Bytes>) -> Result<Option<Bytes>, Memory>
    ensures { IfOk result (λ made. made ≡ name.now) }
{
    match name {
        Some(bytes) => Ok(Some(Bytes::from_slice(alloc, bytes.as_slice())?)),
        None => Ok(None),
    }
}

impl Known {
    /// The same in a value of its own.
    pub fn copy(&self, alloc: Global) -> Result<Known, Memory>
        ensures { IfOk result (λ made. made ≡ self.now) }
    {
        Ok(Known {
            names: self.names.copy()?,
            bodies: self.bodies.copy()?,
            own: copied(alloc, &self.own)?,
        })
    }

    /// How many scopes are open inside the file's.
    pub fn open_scopes(&self) -> usize
        ensures { result ≡ open_scopes self.now.names }
    {
        self.names.open_scopes()
    }

    /// Opens a scope.
    pub fn enter(&mut self) -> Result<(), Memory>
        ensures { OnOk result (self.new ≡ with_names self.old (with_block self.old.names)) }
    {
        self.names.enter()
    }

    /// Closes scopes until so many are open inside the file's.
    pub fn close_to(&mut self, count: usize)
        ensures { self.new ≡ with_names self.old (closed_to count self.old.names) }
    {
        self.names.leave_to(count);
    }
}

/// Expressions with commas between them, or one (5.18).
pub fn commas(alloc: Global, known: &Known, c: &mut Cursor<'_>) -> Result<Boxed<Expr>, Stop>
    ensures { Reads (commas_at known.now.names c.old) result c.new }
{
    let scopes = Scopes::new(alloc, &known.names);
    whole::commas(alloc, &scopes, c)
}

/// An expression without commas outside brackets (5.17).
pub fn assign(alloc: Global, known: &Known, c: &mut Cursor<'_>) -> Result<Boxed<Expr>, Stop>
    ensures { Reads (assign_at known.now.names c.old) result c.new }
{
    let scopes = Scopes::new(alloc, &known.names);
    whole::assign(alloc, &scopes, c)
}

/// An expression that assigns nothing outside brackets (5.16).
pub fn condition(alloc: Global, known: &Known, c: &mut Cursor<'_>) -> Result<Boxed<Expr>, Stop>
    ensures { Reads (condition_at known.now.names c.old) result c.new }
{
    let scopes = Scopes::new(alloc, &known.names);
    whole::condition(alloc, &scopes, c)
}
