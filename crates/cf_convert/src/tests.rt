use crate::types::is_const;
use crate::{Val, standard};
use cf_base::Kind;
use cf_classes::Classes;
use cf_types::{Ty, Types};
use std::test::Fail;

#[test]
fn object_is_read(rt: HostRuntime) -> Result<(), Fail> {
    let alloc = rt.alloc();
    let classes = Classes::new(alloc);
    let mut types = Types::new(alloc);
    let char = types.intern(Ty::Int(Kind::Char)).ok().ok_or("memory")?;
    let from = Val {
        ty: char,
        lvalue: true,
        zero: false,
    };
    let conv = standard(alloc, &types, &classes, &from, char)
        .ok()
        .ok_or("memory")?
        .ok_or("none")?;
    assert_eq!(rt; conv.rank, 1);
    assert_eq!(rt; conv.steps.len(), 1);
    Ok(())
}

#[test]
fn const_of_an_array_is_that_of_its_elements(rt: HostRuntime) -> Result<(), Fail> {
    let mut types = Types::new(rt.alloc());
    let int = types.intern(Ty::Int(Kind::Int)).ok().ok_or("memory")?;
    assert!(rt; types.takes_const(int) && !is_const(&types, int));
    let constant = types.intern(Ty::Const(int)).ok().ok_or("memory")?;
    let array = types.intern(Ty::Array(constant, 3)).ok().ok_or("memory")?;
    assert!(rt; is_const(&types, array));
    Ok(())
}
