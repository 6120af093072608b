use crate::{Fun, Ty, Types, convert_int, int_op, promote, usual};
use cf_base::{Arith, Items, Kind};
use std::test::Fail;

#[test]
fn arithmetic_of_mixed_types(rt: HostRuntime) -> Result<(), Fail> {
    assert_eq!(rt; promote(Kind::UShort), Kind::Int);
    assert_eq!(rt; usual(Kind::Long, Kind::UInt), Kind::ULong);
    assert_eq!(rt; convert_int(-1, Kind::ULong), 4294967295);
    assert_eq!(rt; convert_int(200, Kind::Char), -56);
    assert_eq!(rt; int_op(Arith::Subtract, Kind::UInt, 0, 1), Some(4294967295));
    assert_eq!(rt; int_op(Arith::Add, Kind::Int, 2147483647, 1), None);
    Ok(())
}

#[test]
fn equal_types_have_equal_numbers(rt: HostRuntime) -> Result<(), Fail> {
    let mut types = Types::new(rt.alloc());
    let int = types.intern(Ty::Int(Kind::Int)).ok().ok_or("memory")?;
    let again = types.intern(Ty::Int(Kind::Int)).ok().ok_or("memory")?;
    assert_eq!(rt; again, int);
    Ok(())
}

#[test]
fn function_types_are_kept(rt: HostRuntime) -> Result<(), Fail> {
    let mut types = Types::new(rt.alloc());
    let result = types.intern(Ty::Void).ok().ok_or("memory")?;
    let fun = Fun {
        result,
        params: Items::new(rt.alloc()),
        is_const: false,
    };
    let id = types.intern_fun(fun).ok().ok_or("memory")?;
    assert_eq!(rt; types.get_fun(id).result, result);
    Ok(())
}

#[test]
fn const_stands_where_it_may(rt: HostRuntime) -> Result<(), Fail> {
    let mut types = Types::new(rt.alloc());
    let int = types.intern(Ty::Int(Kind::Int)).ok().ok_or("memory")?;
    assert!(rt; types.takes_const(int) && types.is_parameter(int));
    let constant = types.intern(Ty::Const(int)).ok().ok_or("memory")?;
    assert!(rt; !types.takes_const(constant) && !types.is_parameter(constant));
    let array = types.intern(Ty::Array(constant, 3)).ok().ok_or("memory")?;
    assert!(rt; !types.takes_const(array) && !types.is_parameter(array));
    Ok(())
}
