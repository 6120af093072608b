ghost use Rattle.std.specs.Prelude.{◌≡◌, IfOk, map};
ghost use Rattle.std.specs.List.{list_any};
ghost use Rattle.cf_elab.specs.Answer.{Made as Elaborated};
ghost use Rattle.cf_elab.specs.Objects as objects;
ghost use Rattle.cf_elab.specs.Statement as row;
ghost use Rattle.cf_elab_env.specs.Holds.{IsType};
ghost use Rattle.cf_elab_statement.specs.Shut as shut;

use cf_base::{Boxed, Items, Memory};
use cf_core::Core;
use cf_elab_env::{Env, Value};
use cf_elab_made::{Label, Made, Reached};
use std::alloc::Global;

/// An expression as a statement. Its value is not taken (6.2).
#[tactic(auto, using(crate::proofs::SimpleLaws::expression_is))]
pub fn expression_statement(env: &Env, at: u32, value: Value) -> Result<Made, Memory>
    requires { IsType env.now.types value.type }
    ensures { IfOk result (λ m. shut.expression at value env.now ≡ Elaborated m env.now) }
{
    env.holds();
    let expression = value.into_node();
    let node = Boxed::new(env.alloc(), Core::Full { at, expression })?;
    Ok(Made::new(at, node))
}

/// `;` alone.
pub fn empty_statement(alloc: Global, at: u32) -> Result<Made, Memory>
    ensures { IfOk result (λ m. m ≡ row.made at (Core.Full at (Core.Blank at))) }
{
    let expression = Boxed::new(alloc, Core::Blank { at })?;
    let node = Boxed::new(alloc, Core::Full { at, expression })?;
    Ok(Made::new(at, node))
}

/// Statements in braces (6.3).
pub fn block(alloc: Global, at: u32, statements: Items<Made>) -> Result<Made, Memory>
    ensures { IfOk result (λ m. m ≡ row.made at (Core.Block at (row.nodes_of statements))) }
{
    let statements = nodes(alloc, statements)?;
    let node = Boxed::new(alloc, Core::Block { at, statements })?;
    Ok(Made::new(at, node))
}

/// The nodes of statements, in order.
fn nodes(alloc: Global, statements: Items<Made>) -> Result<Items<Core>, Memory>
    ensures { IfOk result (λ nodes. nodes ≡ row.nodes_of statements) }
{
    let nodes: Vec<Core> = statements
        .into_vec()
        .into_iter()
        .map(|made| made.into_node().into_inner())
        .collect(alloc)?;
    Ok(Items::from_vec(nodes))
}

/// What a declaration in a block makes: the statement itself where it is one, and else all in order (6.7).
pub fn declaration(alloc: Global, at: u32, reached: Items<Reached>) -> Result<Made, Memory>
    ensures { IfOk result (λ m. m ≡ row.declaration_made at reached) }
{
    let initialises = any_initialises(reached.as_slice());
    let node = one_or_all(alloc, at, reached)?;
    Ok(Made::new(at, node).with_initialises(initialises))
}

fn any_initialises(reached: &[Reached]) -> bool
    ensures { result ≡ list_any (λ (r : objects.Reached). r.initialises) reached.now }
{
    reached.iter().any(|each| each.initialises())
}

fn one_or_all(alloc: Global, at: u32, reached: Items<Reached>) -> Result<Boxed<Core>, Memory>
    ensures { IfOk result (λ node. node ≡ row.one_or_all at reached) }
{
    let is_one = reached.len() == 1;
    let mut nodes = reached_nodes(alloc, reached)?.into_vec();
    if is_one {
        if let Some(node) = nodes.pop() {
            let node = Boxed::new(alloc, node)?;
            return Ok(node);
        }
    }
    let statements = Items::from_vec(nodes);
    let node = Boxed::new(alloc, Core::Sequence { at, statements })?;
    Ok(node)
}

fn reached_nodes(alloc: Global, reached: Items<Reached>) -> Result<Items<Core>, Memory>
    ensures { IfOk result (λ nodes. nodes ≡ map (λ (r : objects.Reached). r.node) reached) }
{
    let nodes: Vec<Core> = reached
        .into_vec()
        .into_iter()
        .map(|each| each.into_node().into_inner())
        .collect(alloc)?;
    Ok(Items::from_vec(nodes))
}

/// `case` with its value (6.1).
pub fn case_label(alloc: Global, at: u32, value: Value) -> Result<Made, Memory>
    ensures { IfOk result (λ m. m ≡ record (row.made at (Core.Blank at)) { label = row.case_label value }) }
{
    let node = Boxed::new(alloc, Core::Blank { at })?;
    Ok(Made::new(at, node).with_label(Label::Case(value)))
}

/// `default` (6.1).
pub fn default_label(alloc: Global, at: u32) -> Result<Made, Memory>
    ensures { IfOk result (λ m. m ≡ record (row.made at (Core.Default at)) { label = row.default_label }) }
{
    let node = Boxed::new(alloc, Core::Default { at })?;
    Ok(Made::new(at, node).with_label(Label::Default))
}
