//! The `main` that the linker adds.

ghost use Rattle.std.specs.Prelude.{◌≡◌, ◌++◌, codes, IfOk, OnOk};
ghost use Rattle.cc_whole_link.specs.Link as rules;
ghost use Rattle.cc_whole_linker.specs.Rules.{seen};
ghost use Rattle.cc_whole_linker.specs.Start as spec;

use cc_whole::{
    CBody, CCallee, CExpression, CFunction, CItem, CLocal, CLocalType, CPlace, CPrototype,
    CStatement, CType,
};
use cc_whole_placed::{PlacedItem, is_definition, name_of};
use cf_base::{Boxed, Items, Memory, Name};
use std::alloc::Global;

fn named(alloc: Global, text: &[u8]) -> Result<Name, Memory>
    ensures { IfOk result (λ made. made ≡ text.now) }
{
    Items::from_slice(alloc, text)
}

/// `name();`
fn plain_call(alloc: Global, name: &[u8]) -> Result<CStatement, Memory>
    ensures { IfOk result (λ made. made ≡ spec.plain_call name.now) }
{
    Ok(CStatement::Call(None, CCallee::Name(named(alloc, name)?), Items::new(alloc)))
}

/// Whether it was a static function of this name.
fn is_static_one(placed: &PlacedItem<'_>, name: &[u8]) -> bool
    ensures { result ≡ spec.is_static_one name.now placed.entry.now }
{
    is_definition(&placed.now) && (placed.is_static && name_of(placed.was) == name)
}

/// Puts calls of those that were static functions of this name, in order.
fn add_calls(
    alloc: Global,
    name: &[u8],
    all: &[PlacedItem<'_>],
    out: &mut Items<CStatement>,
) -> Result<(), Memory>
    ensures { OnOk result (out.new ≡ out.old ++ rules.calls_of name.now (seen all.now)) }
{
    for placed in all {
        if is_static_one(placed, name) {
            out.push(plain_call(alloc, name_of(&placed.now))?)?;
        }
    }
    Ok(())
}

/// `status = __main();`
fn status_call(alloc: Global) -> Result<CStatement, Memory>
    ensures { IfOk result (λ made. made ≡ spec.status_call) }
{
    let status = named(alloc, b"status")?;
    let main = named(alloc, b"__main")?;
    Ok(CStatement::Call(
        Some(CPlace::Name(status)),
        CCallee::Name(main),
        Items::new(alloc),
    ))
}

/// `return status;`
fn status_return(alloc: Global) -> Result<CStatement, Memory>
    ensures { IfOk result (λ made. made ≡ spec.status_return) }
{
    let status = named(alloc, b"status")?;
    let load = Boxed::new(alloc, CExpression::Load(CPlace::Name(status)))?;
    Ok(CStatement::Return(Some(load)))
}

/// What stands in it.
fn main_statements(alloc: Global, all: &[PlacedItem<'_>]) -> Result<Items<CStatement>, Memory>
    ensures { IfOk result (λ made. made ≡ spec.main_statements (seen all.now)) }
{
    let mut out = Items::new(alloc);
    add_calls(alloc, b"__hci", all, &mut out)?;
    add_calls(alloc, b"__sti", all, &mut out)?;
    out.push(status_call(alloc)?)?;
    out.push(status_return(alloc)?)?;
    Ok(out)
}

/// `int status;`
fn status_local(alloc: Global) -> Result<Items<CLocal>, Memory>
    ensures { IfOk result (λ made. made ≡ spec.status_local) }
{
    let mut locals = Items::new(alloc);
    locals.push(CLocal {
        ty: CLocalType::Scalar(CType::Int),
        name: named(alloc, b"status")?,
    })?;
    Ok(locals)
}

/// `int main(void)`
fn main_head(alloc: Global) -> Result<CPrototype, Memory>
    ensures { IfOk result (λ made. made ≡ spec.main_head) }
{
    Ok(CPrototype {
        is_static: false,
        result: Some(CType::Int),
        name: named(alloc, b"main")?,
        parameters: Items::new(alloc),
    })
}

/// The `main` that is added where no unit defines one: it calls each `__hci` and then each `__sti`, and returns what `__main` returns.
pub(crate) fn added_main(alloc: Global, all: &[PlacedItem<'_>]) -> Result<CItem, Memory>
    ensures { IfOk result (λ made. made ≡ rules.added_main (seen all.now)) }
{
    let locals = status_local(alloc)?;
    let statements = main_statements(alloc, all)?;
    let prototype = main_head(alloc)?;
    Ok(CItem::Function(CFunction {
        is_shared: false,
        prototype,
        body: CBody { locals, statements },
    }))
}
