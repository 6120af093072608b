ghost use Rattle.std.specs.Prelude.{◌≡◌};
ghost use Rattle.cf_frame.specs.Costed as spec;

use cf_core::LoopForm;

/// What a part of a core adds to the bound of its function's frame. Sums end at the greatest `u64`.
#[derive(Clone, Copy, Debug, PartialEq, Eq)]
pub(crate) struct Costs {
    /// How many nodes it has.
    pub nodes: u64,
    /// 8 bytes for each `for`, `do` and `switch`.
    pub loops: u64,
    /// The bytes of the costliest full expression in it.
    pub dearest: u64,
    /// Its bytes as one full expression.
    pub whole: u64,
    /// The bytes of its costliest full expression as an initialiser: each element of a list is one by itself.
    pub start: u64,
}

/// The costs of nothing.
#[tactic(auto, unfolding(crate::specs::Costed::nothing))]
pub(crate) fn nothing() -> Costs
    ensures { result ≡ spec.nothing }
{
    Costs {
        nodes: 0,
        loops: 0,
        dearest: 0,
        whole: 0,
        start: 0,
    }
}

/// Two parts together.
#[tactic(auto, unfolding(crate::specs::Costed::both))]
pub(crate) fn both(first: Costs, second: Costs) -> Costs
    ensures { result ≡ spec.both first second }
{
    Costs {
        nodes: first.nodes.saturating_add(second.nodes),
        loops: first.loops.saturating_add(second.loops),
        dearest: first.dearest.max(second.dearest),
        whole: 0,
        start: first.start.max(second.start),
    }
}

/// A node over its parts: 32 bytes for each node.
#[tactic(auto, unfolding(crate::specs::Costed::around))]
pub(crate) fn around(parts: Costs) -> Costs
    ensures { result ≡ spec.around parts }
{
    let nodes = parts.nodes.saturating_add(1);
    let whole = nodes.saturating_mul(32);
    Costs {
        nodes,
        loops: parts.loops,
        dearest: parts.dearest,
        whole,
        start: whole,
    }
}

/// A statement with a full expression of so many bytes.
#[tactic(auto, unfolding(crate::specs::Costed::with_expression))]
fn with_expression(bytes: u64, statement: Costs) -> Costs
    ensures { result ≡ spec.with_expression bytes statement }
{
    Costs {
        dearest: bytes.max(statement.dearest),
        ..statement
    }
}

/// A `for`, `do` or `switch`.
#[tactic(auto, unfolding(crate::specs::Costed::with_loop))]
fn with_loop(statement: Costs) -> Costs
    ensures { result ≡ spec.with_loop statement }
{
    Costs {
        loops: statement.loops.saturating_add(8),
        ..statement
    }
}

/// An initialiser whose elements are full expressions, of so many bytes at most.
#[tactic(auto, unfolding(crate::specs::Costed::with_start))]
fn with_start(bytes: u64, initialiser: Costs) -> Costs
    ensures { result ≡ spec.with_start bytes initialiser }
{
    Costs {
        start: bytes,
        ..initialiser
    }
}

/// An initialiser that does nothing.
#[tactic(auto, unfolding(crate::specs::Costed::blank))]
pub(crate) fn blank() -> Costs
    ensures { result ≡ spec.blank }
{
    Costs {
        whole: 0,
        start: 0,
        ..around(nothing())
    }
}

/// An array, every element by one initialiser.
#[tactic(auto, unfolding(crate::specs::Costed::each))]
pub(crate) fn each(start: Costs) -> Costs
    ensures { result ≡ spec.each start }
{
    with_start(start.start, around(start))
}

/// A list of initialisers, and the one of all further elements.
#[tactic(auto, unfolding(crate::specs::Costed::list))]
pub(crate) fn list(starts: Costs, rest: Costs) -> Costs
    ensures { result ≡ spec.list starts rest }
{
    let parts = both(starts, rest);
    with_start(parts.start, around(parts))
}

/// An expression statement.
#[tactic(auto, unfolding(crate::specs::Costed::expression))]
pub(crate) fn expression(inner: Costs) -> Costs
    ensures { result ≡ spec.expression inner }
{
    with_expression(inner.whole, around(inner))
}

/// A declaration or `return` with its initialiser.
#[tactic(auto, unfolding(crate::specs::Costed::initialiser))]
pub(crate) fn initialiser(start: Costs) -> Costs
    ensures { result ≡ spec.initialiser start }
{
    with_expression(start.start, around(start))
}

/// An `if`.
#[tactic(auto, unfolding(crate::specs::Costed::choice))]
pub(crate) fn choice(condition: Costs, yes: Costs, no: Costs) -> Costs
    ensures { result ≡ spec.choice condition yes no }
{
    with_expression(condition.whole, around(both(condition, both(yes, no))))
}

/// A loop.
#[tactic(auto, unfolding(crate::specs::Costed::turns))]
pub(crate) fn turns(form: LoopForm, condition: Costs, step: Costs, body: Costs) -> Costs
    ensures { result ≡ spec.turns form condition step body }
{
    let bytes = condition.whole.max(step.whole);
    let statement = with_expression(bytes, around(both(condition, both(step, body))));
    match form {
        LoopForm::While => statement,
        LoopForm::Do => with_loop(statement),
        LoopForm::For => with_loop(statement),
    }
}

/// A `switch`.
#[tactic(auto, unfolding(crate::specs::Costed::selection))]
pub(crate) fn selection(operand: Costs, body: Costs) -> Costs
    ensures { result ≡ spec.selection operand body }
{
    with_loop(with_expression(operand.whole, around(both(operand, body))))
}

/// A constructor's initialisers and its body.
#[tactic(auto, unfolding(crate::specs::Costed::building))]
pub(crate) fn building(starts: Costs, body: Costs) -> Costs
    ensures { result ≡ spec.building starts body }
{
    with_expression(starts.start, around(both(starts, body)))
}
