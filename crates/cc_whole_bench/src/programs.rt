//! The two programs, by hand.

use cc_whole::{
    CBody, CCallee, CConstant, CExpression, CFunction, CItem, CLocal, CLocalType, CParameter,
    CPlace, CProgram, CPrototype, CStatement, CType,
};
use cf_base::{Arith, Boxed, Items, Memory, Name};
use std::alloc::Global;

fn name(alloc: Global, text: &str) -> Result<Name, Memory> {
    Name::from_slice(alloc, text.as_bytes())
}

fn load(alloc: Global, variable: &str) -> Result<CExpression, Memory> {
    Ok(CExpression::Load(CPlace::Name(name(alloc, variable)?)))
}

fn constant(alloc: Global, value: i32) -> Result<Boxed<CExpression>, Memory> {
    Boxed::new(alloc, CExpression::Constant(CConstant::Signed(value)))
}

/// `VARIABLE + 1`
fn one_more(alloc: Global, variable: &str) -> Result<Boxed<CExpression>, Memory> {
    let left = Boxed::new(alloc, load(alloc, variable)?)?;
    let right = constant(alloc, 1)?;
    Boxed::new(alloc, CExpression::Binary(Arith::Add, left, right))
}

/// `x = VALUE;`
fn assign(alloc: Global, value: Boxed<CExpression>) -> Result<CStatement, Memory> {
    Ok(CStatement::Assign(CPlace::Name(name(alloc, "x")?), value))
}

fn only<T: Drop>(alloc: Global, item: T) -> Result<Items<T>, Memory> {
    let mut items = Items::new(alloc);
    items.push(item)?;
    Ok(items)
}

/// `for (;;) { STATEMENT }`
fn forever(alloc: Global, statement: CStatement) -> Result<CStatement, Memory> {
    let body = CBody {
        locals: Items::new(alloc),
        statements: only(alloc, statement)?,
    };
    Ok(CStatement::Loop(Boxed::new(alloc, body)?))
}

/// `int NAME(..) { .. }`
fn function(name: Name, parameters: Items<CParameter>, body: CBody) -> CItem {
    let prototype = CPrototype {
        is_static: false,
        result: Some(CType::Int),
        name,
        parameters,
    };
    CItem::Function(CFunction {
        is_shared: false,
        prototype,
        body,
    })
}

/// `int step(int n) { return n + 1; }`
fn step(alloc: Global) -> Result<CItem, Memory> {
    let parameter = CParameter {
        ty: CType::Int,
        name: name(alloc, "n")?,
    };
    let value = one_more(alloc, "n")?;
    let body = CBody {
        locals: Items::new(alloc),
        statements: only(alloc, CStatement::Return(Some(value)))?,
    };
    Ok(function(name(alloc, "step")?, only(alloc, parameter)?, body))
}

/// `int main(void) { int x; x = 0; for (;;) { STATEMENT } }`
fn main_of(alloc: Global, statement: CStatement) -> Result<CItem, Memory> {
    let local = CLocal {
        ty: CLocalType::Scalar(CType::Int),
        name: name(alloc, "x")?,
    };
    let mut statements = only(alloc, assign(alloc, constant(alloc, 0)?)?)?;
    statements.push(forever(alloc, statement)?)?;
    let body = CBody {
        locals: only(alloc, local)?,
        statements,
    };
    Ok(function(name(alloc, "main")?, Items::new(alloc), body))
}

/// `x = step(x);`
fn call(alloc: Global) -> Result<CStatement, Memory> {
    let place = CPlace::Name(name(alloc, "x")?);
    let callee = CCallee::Name(name(alloc, "step")?);
    let arguments = only(alloc, load(alloc, "x")?)?;
    Ok(CStatement::Call(Some(place), callee, arguments))
}

/// A loop that calls a function in each turn, which makes two ticks.
pub fn calls_in_turns(alloc: Global) -> Result<CProgram, Memory> {
    let mut items = only(alloc, step(alloc)?)?;
    items.push(main_of(alloc, call(alloc)?)?)?;
    Ok(CProgram { items })
}

/// A loop that adds in each turn.
pub fn only_turns(alloc: Global) -> Result<CProgram, Memory> {
    let addition = assign(alloc, one_more(alloc, "x")?)?;
    let items = only(alloc, main_of(alloc, addition)?)?;
    Ok(CProgram { items })
}
