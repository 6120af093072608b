//! All nodes of a core, each before its parts.

ghost use Rattle.std.specs.Prelude.{◌≡◌, ◌++◌, IfOk, OnOk};
ghost use Rattle.std.specs.Option.{option_map};
ghost use Rattle.cf_core.specs.FromTypes.{Tables};
ghost use Rattle.cf_core.specs.Nodes.{nodes, nodes_all, nodes_maybe, nodes_parts};
ghost use Rattle.cf_core.specs.View.{maybe};
ghost use Rattle.cf_core_nodes.specs.Views.{view, viewed, in_parts, shown, inside};

use cf_base::{Boxed, Memory};
use cf_core::{Core, PartStart};
use std::alloc::Global;

/// The nodes of a function's body or of an initialiser, in the order of the text.
pub fn nodes_of<'a>(alloc: Global, e: &'a Core) -> Result<Vec<&'a Core>, Memory>
    ensures { (tables : Tables) → IfOk result (λ all. shown tables all.items ≡ nodes (view tables e.now)) }
{
    let mut all = Vec::new(alloc);
    node(e, &mut all)?;
    Ok(all)
}

/// Puts a node, and all that is in it, behind others.
#[cycle(walk)]
fn node<'a>(e: &'a Core, all: &mut Vec<&'a Core>) -> Result<(), Memory>
    ensures { (tables : Tables) → OnOk result (shown tables all.new.items ≡ shown tables all.old.items ++ nodes (view tables e.now)) }
{
    all.push(e)?;
    parts(e, all)?;
    Ok(())
}

/// Puts what is in a node behind others.
#[cycle(walk)]
fn parts<'a>(e: &'a Core, all: &mut Vec<&'a Core>) -> Result<(), Memory>
    ensures { (tables : Tables) → OnOk result (shown tables all.new.items ≡ shown tables all.old.items ++ inside (view tables e.now)) }
{
    match e {
        Core::Number { .. }
        | Core::Text { .. }
        | Core::This { .. }
        | Core::Local { .. }
        | Core::Static { .. }
        | Core::Function { .. }
        | Core::DataPointer { .. }
        | Core::FunctionPointer { .. }
        | Core::Characters { .. }
        | Core::Zeros { .. }
        | Core::Blank { .. }
        | Core::Case { .. }
        | Core::Default { .. }
        | Core::Break { .. }
        | Core::Continue { .. } => Ok(()),
        Core::Member { object: a, .. }
        | Core::Read { place: a, .. }
        | Core::Address { place: a, .. }
        | Core::Dereference { pointer: a, .. }
        | Core::Decay { array: a, .. }
        | Core::Convert { operand: a, .. }
        | Core::Up { operand: a, .. }
        | Core::Down { operand: a, .. }
        | Core::FromVoid { operand: a, .. }
        | Core::ToMember { operand: a, .. }
        | Core::Unary { operand: a, .. }
        | Core::Not { operand: a, .. }
        | Core::Increment { place: a, .. }
        | Core::Temporary { start: a, .. }
        | Core::New { start: a, .. }
        | Core::Delete { pointer: a, .. }
        | Core::DeleteArray { pointer: a, .. }
        | Core::Each { start: a, .. }
        | Core::Bind { operand: a, .. }
        | Core::Full { expression: a, .. }
        | Core::Declare { start: a, .. }
        | Core::Once { start: a, .. } => {
            node(a.get(), all)?;
            Ok(())
        }
        Core::Index {
            left: a,
            right: b,
            ..
        }
        | Core::Through {
            object: a,
            pointer: b,
            ..
        }
        | Core::Operate {
            left: a,
            right: b,
            ..
        }
        | Core::And {
            left: a,
            right: b,
            ..
        }
        | Core::Or {
            left: a,
            right: b,
            ..
        }
        | Core::PointerOperate {
            left: a,
            right: b,
            ..
        }
        | Core::Store {
            place: a,
            value: b,
            ..
        }
        | Core::Update {
            place: a,
            value: b,
            ..
        }
        | Core::NewArray {
            count: a,
            start: b,
            ..
        } => {
            node(a.get(), all)?;
            node(b.get(), all)?;
            Ok(())
        }
        Core::Conditional {
            condition,
            yes,
            no,
            ..
        } => {
            node(condition.get(), all)?;
            node(yes.get(), all)?;
            node(no.get(), all)?;
            Ok(())
        }
        Core::Comma { operands: es, .. }
        | Core::Build { arguments: es, .. }
        | Core::Block { statements: es, .. }
        | Core::Sequence { statements: es, .. } => {
            each(es.as_slice(), all)?;
            Ok(())
        }
        Core::Assign {
            to,
            from,
            further,
            ..
        } => {
            node(to.get(), all)?;
            node(from.get(), all)?;
            each(further.as_slice(), all)?;
            Ok(())
        }
        Core::Call {
            object,
            arguments,
            ..
        } => {
            optional(object, all)?;
            each(arguments.as_slice(), all)?;
            Ok(())
        }
        Core::VirtualCall {
            object: a,
            arguments: es,
            ..
        }
        | Core::Copy {
            from: a,
            further: es,
            ..
        }
        | Core::Switch {
            operand: a,
            body: es,
            ..
        } => {
            node(a.get(), all)?;
            each(es.as_slice(), all)?;
            Ok(())
        }
        Core::PointerCall {
            object,
            pointer,
            arguments,
            ..
        } => {
            optional(object, all)?;
            node(pointer.get(), all)?;
            each(arguments.as_slice(), all)?;
            Ok(())
        }
        Core::List { starts, rest, .. } => {
            each(starts.as_slice(), all)?;
            node(rest.get(), all)?;
            Ok(())
        }
        Core::If {
            condition,
            yes,
            no,
            ..
        } => {
            node(condition.get(), all)?;
            node(yes.get(), all)?;
            optional(no, all)?;
            Ok(())
        }
        Core::Loop {
            condition,
            step,
            body,
            ..
        } => {
            optional(condition, all)?;
            optional(step, all)?;
            node(body.get(), all)?;
            Ok(())
        }
        Core::Return { value, .. } => {
            optional(value, all)?;
            Ok(())
        }
        Core::Parts { parts, body, .. } => {
            each_part(parts.as_slice(), all)?;
            node(body.get(), all)?;
            Ok(())
        }
    }
}

/// One that may be there.
#[cycle(walk)]
fn optional<'a>(e: &'a Option<Boxed<Core>>, all: &mut Vec<&'a Core>) -> Result<(), Memory>
    ensures { (tables : Tables) → OnOk result (shown tables all.new.items ≡ shown tables all.old.items ++ nodes_maybe (maybe (option_map (view tables) e.now))) }
{
    match e {
        None => Ok(()),
        Some(e) => {
            node(e.get(), all)?;
            Ok(())
        }
    }
}

/// Some in order.
#[cycle(walk)]
fn each<'a>(es: &'a [Core], all: &mut Vec<&'a Core>) -> Result<(), Memory>
    ensures { (tables : Tables) → OnOk result (shown tables all.new.items ≡ shown tables all.old.items ++ nodes_all (viewed tables es.now)) }
{
    for e in es {
        node(e, all)?;
    }
    Ok(())
}

/// The parts of a constructor, in order.
#[cycle(walk)]
fn each_part<'a>(ps: &'a [PartStart], all: &mut Vec<&'a Core>) -> Result<(), Memory>
    ensures { (tables : Tables) → OnOk result (shown tables all.new.items ≡ shown tables all.old.items ++ nodes_parts (in_parts tables ps.now)) }
{
    for p in ps {
        node(&p.start, all)?;
    }
    Ok(())
}
