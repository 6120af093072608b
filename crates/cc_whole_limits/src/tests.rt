//! `int main(void) { char *p; int a[COUNT]; }`, by hand.

use crate::{StartLimit, may_start};
use cc_whole::{
    CBody, CConstant, CFunction, CItem, CLocal, CLocalType, CProgram, CPrototype, CType,
};
use cf_base::{Items, Memory, Name};
use std::alloc::Global;
use std::test::Fail;

fn with_array(alloc: Global, count: i32) -> Result<CProgram, Memory> {
    let mut locals = Items::new(alloc);
    locals.push(CLocal {
        ty: CLocalType::Scalar(CType::Pointer),
        name: Name::from_slice(alloc, b"p".as_slice())?,
    })?;
    locals.push(CLocal {
        ty: CLocalType::Ints(CConstant::Signed(count)),
        name: Name::from_slice(alloc, b"a".as_slice())?,
    })?;
    let mut items = Items::new(alloc);
    items.push(CItem::Function(CFunction {
        is_shared: false,
        prototype: CPrototype {
            is_static: false,
            result: Some(CType::Int),
            name: Name::from_slice(alloc, b"main".as_slice())?,
            parameters: Items::new(alloc),
        },
        body: CBody {
            locals,
            statements: Items::new(alloc),
        },
    }))?;
    Ok(CProgram { items })
}

#[test]
fn a_frame_counts_once_for_each_level(rt: HostRuntime) -> Result<(), Fail> {
    let program = with_array(rt.alloc(), 2047).ok().ok_or("memory")?;
    assert_eq!(rt; may_start(&program, 1023), Ok(()));
    assert_eq!(rt;
        may_start(&program, 1024),
        Err(StartLimit::Frames { product: 8_396_800 })
    );
    Ok(())
}
