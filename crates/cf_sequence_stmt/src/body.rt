//! The body of a function while it is sequenced.

ghost use Rattle.std.specs.Prelude.{◌≡◌, ◌++◌, take, drop, IfOk, OnOk};
ghost use Rattle.cf_sequence_stmt.specs.Bodies as spec;

use cf_base::{Items, Memory};
use cf_plain::{Action, Plain};
use cf_sequence_expr::Writing;
use cf_types::TyId;
use std::mem::replace;

/// A local whose scope is open.
#[derive(Clone, Copy, Debug, PartialEq, Eq)]
pub struct Open {
    pub number: u32,
    pub ty: TyId,
}

/// How many of the locals that are open stay so where `break` and `continue` lead.
#[derive(Clone, Copy, Debug, PartialEq, Eq)]
pub struct Ways {
    pub breaks: usize,
    pub continues: usize,
}

/// What is written of a function's body, and the locals whose scopes are open, the newest last.
#[derive(Drop)]
pub struct Body {
    pub writing: Writing,
    pub scope: Items<Open>,
}

/// The locals behind so many.
fn beyond(scope: &[Open], mark: usize) -> &[Open]
    ensures { result.now ≡ drop mark scope.now }
{
    if mark <= scope.len() {
        &scope[mark..]
    } else {
        &[]
    }
}

/// Writes the ends of these locals, the newest first (6.6).
fn end_all(scope: &[Open], w: &mut Writing) -> Result<(), Memory>
    ensures { OnOk result (w.new ≡ spec.ended scope.now w.old) }
{
    match scope.split_first() {
        None => Ok(()),
        Some((oldest, newer)) => {
            end_all(newer, w)?;
            w.act(Action::Finish {
                ty: oldest.ty,
                local: oldest.number,
            })
        }
    }
}

impl Body {
    /// Writes a statement.
    #[tactic(auto, unfolding(crate::specs::Bodies::stated))]
    pub fn put(&mut self, statement: Plain) -> Result<(), Memory>
        ensures { OnOk result (self.new ≡ spec.stated statement self.old) }
    {
        self.writing.put(statement)
    }

    /// What is written next begins a list of its own; the statements so far are handed out.
    #[tactic(auto, unfolding(crate::specs::Bodies::begun))]
    pub fn begin(&mut self) -> Items<Plain>
        ensures written { self.new ≡ spec.begun self.old }
        ensures before { result ≡ self.old.writing.code }
    {
        self.writing.begin()
    }

    /// These statements stand for those that were written last.
    #[tactic(auto, unfolding(crate::specs::Bodies::with_code))]
    pub fn resume(&mut self, code: Items<Plain>)
        ensures { self.new ≡ spec.with_code code self.old }
    {
        self.writing.code = code;
    }

    /// Writes a branch behind these statements: what was written last is done where the number in a register is 0.
    #[tactic(auto, unfolding(crate::specs::Bodies::chosen))]
    pub fn branch(
        &mut self,
        register: u32,
        before: Items<Plain>,
        first: Items<Plain>,
    ) -> Result<(), Memory>
        ensures { OnOk result (self.new ≡ spec.chosen register before first self.old) }
    {
        self.writing.branch(register, before, first)
    }

    /// Writes a loop behind these statements, whose body was written last.
    #[tactic(auto, unfolding(crate::specs::Bodies::turned))]
    pub fn turn(&mut self, before: Items<Plain>, next: Items<Plain>) -> Result<(), Memory>
        ensures { OnOk result (self.new ≡ spec.turned before next self.old) }
    {
        let body = replace(&mut self.writing.code, before);
        self.writing.code.push(Plain::Loop { body, next })
    }

    /// Writes a switch behind these statements, whose body was written last.
    #[tactic(auto, unfolding(crate::specs::Bodies::switched))]
    pub fn switch(&mut self, register: u32, before: Items<Plain>) -> Result<(), Memory>
        ensures { OnOk result (self.new ≡ spec.switched register before self.old) }
    {
        let body = replace(&mut self.writing.code, before);
        self.writing.code.push(Plain::Switch { register, body })
    }

    /// A local is there.
    #[tactic(auto, unfolding(crate::specs::Bodies::opened))]
    pub fn declare(&mut self, number: u32, ty: TyId) -> Result<(), Memory>
        ensures { OnOk result (self.new ≡ spec.opened number ty self.old) }
    {
        self.scope.push(Open { number, ty })
    }

    /// Writes the ends of the locals behind so many, which stay open in what follows.
    #[tactic(auto, unfolding(crate::specs::Bodies::left_to))]
    pub fn leave(&mut self, mark: usize) -> Result<(), Memory>
        ensures { OnOk result (self.new ≡ spec.left_to mark self.old) }
    {
        end_all(beyond(self.scope.as_slice(), mark), &mut self.writing)
    }

    /// Writes the ends of the locals behind so many, with which their scope is closed.
    #[tactic(auto, unfolding(crate::specs::Bodies::closed_to))]
    pub fn close(&mut self, mark: usize) -> Result<(), Memory>
        ensures { OnOk result (self.new ≡ spec.closed_to mark self.old) }
    {
        self.leave(mark)?;
        self.scope = Items::from_slice(self.writing.alloc, first(self.scope.as_slice(), mark))?;
        Ok(())
    }

    /// The locals behind so many are put aside, while others are declared in their place.
    #[tactic(auto, unfolding(crate::specs::Bodies::set_aside))]
    pub fn set_aside(&mut self, mark: usize) -> Result<Items<Open>, Memory>
        ensures rest { OnOk result (self.new ≡ spec.set_aside mark self.old) }
        ensures aside { IfOk result (λ aside. aside ≡ drop mark self.old.scope) }
    {
        let aside = Items::from_slice(self.writing.alloc, beyond(self.scope.as_slice(), mark))?;
        self.scope = Items::from_slice(self.writing.alloc, first(self.scope.as_slice(), mark))?;
        Ok(aside)
    }

    /// They are there again, before those that were declared since.
    #[tactic(auto, unfolding(crate::specs::Bodies::taken_back))]
    pub fn take_back(&mut self, mark: usize, aside: Items<Open>) -> Result<(), Memory>
        ensures { OnOk result (self.new ≡ spec.taken_back mark aside self.old) }
    {
        let since = Items::from_slice(self.writing.alloc, beyond(self.scope.as_slice(), mark))?;
        let mut scope = Items::from_slice(self.writing.alloc, first(self.scope.as_slice(), mark))?;
        put_all(aside.as_slice(), &mut scope)?;
        put_all(since.as_slice(), &mut scope)?;
        self.scope = scope;
        Ok(())
    }
}

/// So many locals, the oldest.
fn first(scope: &[Open], mark: usize) -> &[Open]
    ensures { result.now ≡ take mark scope.now }
{
    if mark <= scope.len() {
        &scope[..mark]
    } else {
        scope
    }
}

/// Puts these locals behind others.
fn put_all(locals: &[Open], scope: &mut Items<Open>) -> Result<(), Memory>
    ensures { OnOk result (scope.new ≡ scope.old ++ locals.now) }
{
    for x in locals {
        scope.push(*x)?;
    }
    Ok(())
}
