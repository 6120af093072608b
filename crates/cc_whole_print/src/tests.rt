//! Texts of a few trees.

use crate::expression::whole;
use crate::print;
use cc_whole::{
    CConstant, CExpression, CInitialiser, CItem, CPlace, CType, CUnit, CVariable, CVariableType,
    Prefix,
};
use cf_base::{Arith, Boxed, Items, Memory, Name};
use std::alloc::Global;
use std::test::Fail;

fn constant(alloc: Global, value: CConstant) -> Result<Boxed<CExpression>, Memory> {
    Boxed::new(alloc, CExpression::Constant(value))
}

fn named(alloc: Global, name: &str) -> Result<Name, Memory> {
    Items::from_slice(alloc, name.as_bytes())
}

fn load(alloc: Global, name: &str) -> Result<Boxed<CExpression>, Memory> {
    let name = named(alloc, name)?;
    Boxed::new(alloc, CExpression::Load(CPlace::Name(name)))
}

#[test]
fn constants_have_their_sign_before_them(rt: HostRuntime) -> Result<(), Fail> {
    let alloc = rt.alloc();
    for (value, want) in [
        (CConstant::Signed(0), "0 "),
        (CConstant::Signed(-2147483648), "-2147483648 "),
        (CConstant::Unsigned(4294967295), "4294967295u "),
    ] {
        let mut out = Vec::new(alloc);
        whole(&mut out, constant(alloc, value)?.get())?;
        assert!(rt; out.as_slice() == want.as_bytes(), "{want}");
    }
    Ok(())
}

/// `-(a - 1)`
fn negated(alloc: Global) -> Result<Boxed<CExpression>, Memory> {
    let one = constant(alloc, CConstant::Signed(1))?;
    let a = load(alloc, "a")?;
    let inner = Boxed::new(alloc, CExpression::Binary(Arith::Subtract, a, one))?;
    Boxed::new(alloc, CExpression::Unary(Prefix::Negate, inner))
}

/// What stands at `p`, as an unsigned short.
fn pointed(alloc: Global) -> Result<Boxed<CExpression>, Memory> {
    let p = load(alloc, "p")?;
    Boxed::new(alloc, CExpression::Load(CPlace::At(CType::UShort, p)))
}

#[test]
fn brackets_stand_where_they_are_needed(rt: HostRuntime) -> Result<(), Fail> {
    let alloc = rt.alloc();
    let mut out = Vec::new(alloc);
    whole(&mut out, negated(alloc)?.get())?;
    whole(&mut out, pointed(alloc)?.get())?;
    let want = "- ( a - 1 ) * ( unsigned short * ) ( p ) ";
    assert!(rt; out.as_slice() == want.as_bytes());
    Ok(())
}

/// A shared array of 9 bytes that begins with a word, a quote and a newline.
fn word(alloc: Global) -> Result<CVariable, Memory> {
    let bytes = Items::from_slice(alloc, b"it \"\n")?;
    let name = named(alloc, "s")?;
    Ok(CVariable {
        is_shared: true,
        is_static: false,
        ty: CVariableType::Chars(CConstant::Signed(9)),
        name,
        initialiser: Some(CInitialiser::Text(bytes)),
    })
}

#[test]
fn a_shared_string_in_a_unit(rt: HostRuntime) -> Result<(), Fail> {
    let alloc = rt.alloc();
    let mut items = Items::new(alloc);
    items.push(CItem::Variable(word(alloc)?))?;
    let text = print(alloc, &CUnit { version: 7, items })?;
    let want = "#pragma cfront 7\n#pragma cf_shared\nchar s [ 9 ] = \"it \\042\\012\" ;\n";
    assert!(rt; text.as_slice() == want.as_bytes());
    Ok(())
}
