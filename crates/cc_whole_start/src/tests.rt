//! A program with one variable, by hand.

use crate::{Start, passes_static};
use cc_whole::{CConstant, CInitialiser, CItem, CProgram, CVariable, CVariableType};
use cc_whole_eval::Names;
use cc_whole_mean::{Named, Shape};
use cc_whole_memory::{Pointer, Scalar, Value};
use cf_base::{Items, Kind, Memory, Name};
use std::alloc::Global;
use std::test::Fail;

/// `char s[COUNT] = "hi";`
fn with_text(alloc: Global, count: i32) -> Result<CProgram, Memory> {
    let text = Items::from_slice(alloc, b"hi".as_slice())?;
    let mut items = Items::new(alloc);
    items.push(CItem::Variable(CVariable {
        is_shared: false,
        is_static: false,
        ty: CVariableType::Chars(CConstant::Signed(count)),
        name: Name::from_slice(alloc, b"s".as_slice())?,
        initialiser: Some(CInitialiser::Text(text)),
    }))?;
    Ok(CProgram { items })
}

#[test]
fn a_string_begins_in_its_block(rt: HostRuntime) -> Result<(), Fail> {
    let program = with_text(rt.alloc(), 3).ok().ok_or("memory")?;
    let start = Start::new(rt.alloc(), &program).ok().ok_or("memory")?;
    let second = Pointer::At {
        block: 0,
        offset: 1,
    };
    let third = Pointer::At {
        block: 0,
        offset: 2,
    };
    let char = Scalar::Integer(Kind::Char);
    assert_eq!(rt; start.next, 1);
    assert_eq!(rt;
        start.names.named(b"s"),
        Some(Named::Variable(0, Shape::Array))
    );
    assert_eq!(rt; start.names.named(b"putchar"), Some(Named::Function(1)));
    assert_eq!(rt; start.names.named(b"t"), None);
    assert_eq!(rt;
        start.store.read(second, char),
        Ok(Value::Number(Kind::Char, 105))
    );
    assert_eq!(rt;
        start.store.read(third, char),
        Ok(Value::Number(Kind::Char, 0))
    );
    Ok(())
}

#[test]
fn the_limit_is_on_rounded_bytes(rt: HostRuntime) -> Result<(), Fail> {
    let most = with_text(rt.alloc(), 4_194_304).ok().ok_or("memory")?;
    let more = with_text(rt.alloc(), 4_194_305).ok().ok_or("memory")?;
    assert!(rt; !passes_static(&most));
    assert!(rt; passes_static(&more));
    Ok(())
}
