use crate::is_valid_program;
use cc_whole::{
    CBody, CConstant, CExpression, CFunction, CItem, CProgram, CPrototype, CStatement, CType,
};
use cf_base::{Boxed, Items, Memory};
use std::alloc::Global;
use std::test::Fail;

/// `int NAME(void) { return e; }`, alone.
fn returning(alloc: Global, name: &[u8], e: Boxed<CExpression>) -> Result<CProgram, Memory> {
    let mut statements = Items::new(alloc);
    statements.push(CStatement::Return(Some(e)))?;
    let prototype = CPrototype {
        is_static: false,
        result: Some(CType::Int),
        name: Items::from_slice(alloc, name)?,
        parameters: Items::new(alloc),
    };
    let body = CBody {
        locals: Items::new(alloc),
        statements,
    };
    let mut items = Items::new(alloc);
    items.push(CItem::Function(CFunction {
        is_shared: false,
        prototype,
        body,
    }))?;
    Ok(CProgram { items })
}

fn three(alloc: Global) -> Result<Boxed<CExpression>, Memory> {
    Boxed::new(alloc, CExpression::Constant(CConstant::Signed(3)))
}

/// Whether it is a program that a function of this name alone returns a three, which is cast or not.
fn is_program(alloc: Global, name: &[u8], cast: bool) -> Result<bool, Memory> {
    let e = three(alloc)?;
    let e = if cast {
        Boxed::new(alloc, CExpression::Cast(CType::Char, e))?
    } else {
        e
    };
    let program = returning(alloc, name, e)?;
    is_valid_program(alloc, &program)
}

#[test]
fn main_that_returns_an_int_is_a_program(rt: HostRuntime) -> Result<(), Fail> {
    let ok = is_program(rt.alloc(), b"main", false).ok().ok_or("memory")?;
    assert!(rt; ok);
    Ok(())
}

#[test]
fn a_char_is_no_int_to_return(rt: HostRuntime) -> Result<(), Fail> {
    let ok = is_program(rt.alloc(), b"main", true).ok().ok_or("memory")?;
    assert!(rt; !ok);
    Ok(())
}

#[test]
fn a_program_has_a_main(rt: HostRuntime) -> Result<(), Fail> {
    let ok = is_program(rt.alloc(), b"f", false).ok().ok_or("memory")?;
    assert!(rt; !ok);
    Ok(())
}
