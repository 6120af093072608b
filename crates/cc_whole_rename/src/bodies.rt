ghost use Rattle.std.specs.Prelude.{◌≡◌, ◌++◌, map, IfOk, OnOk};
ghost use Rattle.cc_whole.specs.Uses.{local_names};
ghost use Rattle.cc_whole.specs.declared.statement.CStatement.TheVariants as statement;
ghost use Rattle.cc_whole_link.specs.Rename.{all_renamed, body_renamed};
ghost use Rattle.cc_whole_rename.specs.Renamed.{renaming, statement_renamed, part_renamed};

use crate::copies::copied_locals;
use crate::expressions::{boxed, callee, expressions, given, place, target};
use crate::names::Statics;
use cc_whole::{CBody, CCallee, CExpression, CLocal, CPlace, CStatement, CSwitchItem};
use cf_base::{Boxed, Items, Memory};
use cf_name_list::Names;
use std::alloc::Global;

/// `place = expression;` with the names of the program.
fn assignment(
    alloc: Global,
    statics: &Statics<'_>,
    hidden: &Names<'_>,
    to: &CPlace,
    e: &Boxed<CExpression>,
) -> Result<CStatement, Memory>
    ensures { IfOk result (λ made. made ≡ statement_renamed (statement.Assign to.now e.now) (renaming statics.now.unit statics.now.names hidden.now)) }
{
    let to = place(alloc, statics, hidden, to)?;
    let e = boxed(alloc, statics, hidden, e)?;
    Ok(CStatement::Assign(to, e))
}

/// A call with the names of the program.
fn call(
    alloc: Global,
    statics: &Statics<'_>,
    hidden: &Names<'_>,
    to: &Option<CPlace>,
    called: &CCallee,
    arguments: &[CExpression],
) -> Result<CStatement, Memory>
    ensures { IfOk result (λ made. made ≡ statement_renamed (statement.Call to.now called.now arguments.now) (renaming statics.now.unit statics.now.names hidden.now)) }
{
    let to = target(alloc, statics, hidden, to)?;
    let called = callee(alloc, statics, hidden, called)?;
    let arguments = expressions(alloc, statics, hidden, arguments)?;
    Ok(CStatement::Call(to, called, arguments))
}

/// A statement with the names of the program. What is hidden stays.
#[cycle(bodies)]
fn statement<'a>(
    of: &'a CStatement,
    alloc: Global,
    statics: &Statics<'_>,
    hidden: &mut Names<'a>,
) -> Result<CStatement, Memory>
    ensures made { IfOk result (λ made. made ≡ statement_renamed of.now (renaming statics.now.unit statics.now.names hidden.old)) }
    ensures kept { OnOk result (hidden.new ≡ hidden.old) }
{
    match of {
        CStatement::Assign(to, e) => assignment(alloc, statics, hidden, to, e),
        CStatement::Call(to, called, arguments) => {
            call(alloc, statics, hidden, to, called, arguments.as_slice())
        }
        CStatement::Block(inner) => {
            let inner = boxed_body(inner, alloc, statics, hidden)?;
            Ok(CStatement::Block(inner))
        }
        CStatement::Break => Ok(CStatement::Break),
        CStatement::Continue => Ok(CStatement::Continue),
        CStatement::If(e, inner, other) => {
            let e = boxed(alloc, statics, hidden, e)?;
            let inner = boxed_body(inner, alloc, statics, hidden)?;
            match other {
                None => Ok(CStatement::If(e, inner, None)),
                Some(other) => {
                    let other = boxed_body(other, alloc, statics, hidden)?;
                    Ok(CStatement::If(e, inner, Some(other)))
                }
            }
        }
        CStatement::Loop(inner) => {
            let inner = boxed_body(inner, alloc, statics, hidden)?;
            Ok(CStatement::Loop(inner))
        }
        CStatement::Switch(e, items) => {
            let e = boxed(alloc, statics, hidden, e)?;
            let items = parts(items, alloc, statics, hidden)?;
            Ok(CStatement::Switch(e, items))
        }
        CStatement::Return(e) => {
            let e = given(alloc, statics, hidden, e)?;
            Ok(CStatement::Return(e))
        }
    }
}

/// The same of a body on the heap.
#[cycle(bodies)]
fn boxed_body<'a>(
    of: &'a Boxed<CBody>,
    alloc: Global,
    statics: &Statics<'_>,
    hidden: &mut Names<'a>,
) -> Result<Boxed<CBody>, Memory>
    ensures made { IfOk result (λ made. made ≡ body_renamed of.now (renaming statics.now.unit statics.now.names hidden.old)) }
    ensures kept { OnOk result (hidden.new ≡ hidden.old) }
{
    let made = body(of.get(), alloc, statics, hidden)?;
    Boxed::new(alloc, made)
}

/// Puts the names of locals in front of others, in their order.
fn hide_locals<'a>(hidden: &mut Names<'a>, locals: &'a [CLocal]) -> Result<(), Memory>
    ensures { OnOk result (hidden.new ≡ local_names locals.now ++ hidden.old) }
{
    let mut left = locals.len();
    while left > 0 {
        left -= 1;
        let local = &locals[left];
        hidden.add(local.name.as_slice())?;
    }
    Ok(())
}

/// A body with the names of the program. What is hidden stays.
#[cycle(bodies)]
#[tactic(auto, using(crate::proofs::HiddenInside::hides_more))]
pub(crate) fn body<'a>(
    of: &'a CBody,
    alloc: Global,
    statics: &Statics<'_>,
    hidden: &mut Names<'a>,
) -> Result<CBody, Memory>
    ensures made { IfOk result (λ made. made ≡ body_renamed of.now (renaming statics.now.unit statics.now.names hidden.old)) }
    ensures kept { OnOk result (hidden.new ≡ hidden.old) }
{
    let outside = hidden.len();
    hide_locals(hidden, of.locals.as_slice())?;
    let statements = statements(&of.statements, alloc, statics, hidden)?;
    hidden.cut(outside);
    Ok(CBody {
        locals: copied_locals(alloc, of.locals.as_slice())?,
        statements,
    })
}

/// Statements in order.
#[cycle(bodies)]
fn statements<'a>(
    all: &'a Items<CStatement>,
    alloc: Global,
    statics: &Statics<'_>,
    hidden: &mut Names<'a>,
) -> Result<Items<CStatement>, Memory>
    ensures made { IfOk result (λ made. made ≡ all_renamed (map statement_renamed all.now) (renaming statics.now.unit statics.now.names hidden.old)) }
    ensures kept { OnOk result (hidden.new ≡ hidden.old) }
{
    let mut made = Items::new(alloc);
    for one in all.as_slice() {
        made.push(statement(one, alloc, statics, hidden)?)?;
    }
    Ok(made)
}

/// What stands in the braces of a `switch`.
#[cycle(bodies)]
fn parts<'a>(
    all: &'a Items<CSwitchItem>,
    alloc: Global,
    statics: &Statics<'_>,
    hidden: &mut Names<'a>,
) -> Result<Items<CSwitchItem>, Memory>
    ensures made { IfOk result (λ made. made ≡ all_renamed (map part_renamed all.now) (renaming statics.now.unit statics.now.names hidden.old)) }
    ensures kept { OnOk result (hidden.new ≡ hidden.old) }
{
    let mut made = Items::new(alloc);
    for one in all.as_slice() {
        made.push(part(one, alloc, statics, hidden)?)?;
    }
    Ok(made)
}

/// One label or statement of a `switch`.
#[cycle(bodies)]
fn part<'a>(
    of: &'a CSwitchItem,
    alloc: Global,
    statics: &Statics<'_>,
    hidden: &mut Names<'a>,
) -> Result<CSwitchItem, Memory>
    ensures made { IfOk result (λ made. made ≡ part_renamed of.now (renaming statics.now.unit statics.now.names hidden.old)) }
    ensures kept { OnOk result (hidden.new ≡ hidden.old) }
{
    match of {
        CSwitchItem::Case(constant) => Ok(CSwitchItem::Case(*constant)),
        CSwitchItem::Default => Ok(CSwitchItem::Default),
        CSwitchItem::Statement(inner) => {
            let inner = statement(inner, alloc, statics, hidden)?;
            Ok(CSwitchItem::Statement(inner))
        }
    }
}
