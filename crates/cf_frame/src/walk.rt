ghost use Rattle.std.specs.Prelude.{◌≡◌, map};
ghost use Rattle.std.specs.Option.{option_map};
ghost use Rattle.cf_frame.specs.Costed.{costed, costed_part};
ghost use Rattle.cf_frame.specs.Costed as spec;

use crate::costs::{
    Costs, around, blank, both, building, choice, each, expression, initialiser, list, nothing,
    selection, turns,
};
use cf_base::Boxed;
use cf_core::{Core, PartStart};

/// The costs of a node and all that is in it.
#[cycle(costs)]
pub(crate) fn costs(core: &Core) -> Costs
    ensures { result ≡ costed core.now }
{
    match core {
        Core::Number { .. } => around(nothing()),
        Core::Text { .. } => around(nothing()),
        Core::This { .. } => around(nothing()),
        Core::Local { .. } => around(nothing()),
        Core::Static { .. } => around(nothing()),
        Core::Function { .. } => around(nothing()),
        Core::Member { object, .. } => around(costs(object.get())),
        Core::Read { place, .. } => around(costs(place.get())),
        Core::Address { place, .. } => around(costs(place.get())),
        Core::Dereference { pointer, .. } => around(costs(pointer.get())),
        Core::Decay { array, .. } => around(costs(array.get())),
        Core::Index { left, right, .. } => around(both(costs(left.get()), costs(right.get()))),
        Core::Convert { operand, .. } => around(costs(operand.get())),
        Core::Up { operand, .. } => around(costs(operand.get())),
        Core::Down { operand, .. } => around(costs(operand.get())),
        Core::FromVoid { operand, .. } => around(costs(operand.get())),
        Core::ToMember { operand, .. } => around(costs(operand.get())),
        Core::DataPointer { .. } => around(nothing()),
        Core::FunctionPointer { .. } => around(nothing()),
        Core::Through {
            object,
            pointer,
            ..
        } => { around(both(costs(object.get()), costs(pointer.get()))) }
        Core::Operate { left, right, .. } => around(both(costs(left.get()), costs(right.get()))),
        Core::Unary { operand, .. } => around(costs(operand.get())),
        Core::Not { operand, .. } => around(costs(operand.get())),
        Core::And { left, right, .. } => around(both(costs(left.get()), costs(right.get()))),
        Core::Or { left, right, .. } => around(both(costs(left.get()), costs(right.get()))),
        Core::PointerOperate { left, right, .. } => {
            around(both(costs(left.get()), costs(right.get())))
        }
        Core::Conditional {
            condition,
            yes,
            no,
            ..
        } => around(both(
            costs(condition.get()),
            both(costs(yes.get()), costs(no.get())),
        )),
        Core::Comma { operands, .. } => around(costs_of_all(operands.as_slice())),
        Core::Store { place, value, .. } => around(both(costs(place.get()), costs(value.get()))),
        Core::Update { place, value, .. } => around(both(costs(place.get()), costs(value.get()))),
        Core::Increment { place, .. } => around(costs(place.get())),
        Core::Assign {
            to,
            from,
            further,
            ..
        } => around(both(
            costs(to.get()),
            both(costs(from.get()), costs_of_all(further.as_slice())),
        )),
        Core::Temporary { start, .. } => around(costs(start.get())),
        Core::Call {
            object,
            arguments,
            ..
        } => around(both(costs_of_maybe(object), costs_of_all(arguments.as_slice()))),
        Core::VirtualCall {
            object,
            arguments,
            ..
        } => around(both(costs(object.get()), costs_of_all(arguments.as_slice()))),
        Core::PointerCall {
            object,
            pointer,
            arguments,
            ..
        } => around(both(
            costs_of_maybe(object),
            both(costs(pointer.get()), costs_of_all(arguments.as_slice())),
        )),
        Core::New { start, .. } => around(costs(start.get())),
        Core::NewArray { count, start, .. } => around(both(costs(count.get()), costs(start.get()))),
        Core::Delete { pointer, .. } => around(costs(pointer.get())),
        Core::DeleteArray { pointer, .. } => around(costs(pointer.get())),
        Core::Build { arguments, .. } => around(costs_of_all(arguments.as_slice())),
        Core::Copy { from, further, .. } => {
            around(both(costs(from.get()), costs_of_all(further.as_slice())))
        }
        Core::Each { start, .. } => each(costs(start.get())),
        Core::List { starts, rest, .. } => {
            list(costs_of_all(starts.as_slice()), costs(rest.get()))
        },
        Core::Characters { .. } => around(nothing()),
        Core::Bind { operand, .. } => around(costs(operand.get())),
        Core::Zeros { .. } => around(nothing()),
        Core::Blank { .. } => blank(),
        Core::Full {
            expression: inner,
            ..
        } => expression(costs(inner.get())),
        Core::Block { statements, .. } => around(costs_of_all(statements.as_slice())),
        Core::Sequence { statements, .. } => around(costs_of_all(statements.as_slice())),
        Core::Declare { start, .. } => initialiser(costs(start.get())),
        Core::Once { start, .. } => initialiser(costs(start.get())),
        Core::If {
            condition,
            yes,
            no,
            ..
        } => choice(costs(condition.get()), costs(yes.get()), costs_of_maybe(no)),
        Core::Loop {
            form,
            condition,
            step,
            body,
            ..
        } => turns(
            *form,
            costs_of_maybe(condition),
            costs_of_maybe(step),
            costs(body.get()),
        ),
        Core::Switch { operand, body, .. } => {
            selection(costs(operand.get()), costs_of_all(body.as_slice()))
        },
        Core::Case { .. } => around(nothing()),
        Core::Default { .. } => around(nothing()),
        Core::Break { .. } => around(nothing()),
        Core::Continue { .. } => around(nothing()),
        Core::Return { value, .. } => initialiser(costs_of_maybe(value)),
        Core::Parts { parts, body, .. } => {
            building(costs_of_starts(parts.as_slice()), costs(body.get()))
        },
    }
}

/// The costs of nodes one after another.
#[cycle(costs)]
fn costs_of_all(cores: &[Core]) -> Costs
    ensures { result ≡ spec.all (map costed cores.now) }
{
    let mut total = nothing();
    for core in cores {
        total = both(total, costs(core));
    }
    total
}

#[cycle(costs)]
fn costs_of_maybe(core: &Option<Boxed<Core>>) -> Costs
    ensures { result ≡ spec.maybe (option_map costed core.now) }
{
    match core {
        Some(core) => costs(core.get()),
        None => nothing(),
    }
}

/// The costs of the initialisers of bases and data members.
#[cycle(costs)]
fn costs_of_starts(parts: &[PartStart]) -> Costs
    ensures { result ≡ spec.all (map costed_part parts.now) }
{
    let mut total = nothing();
    for part in parts {
        total = both(total, costs(&part.start));
    }
    total
}
