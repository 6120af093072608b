use crate::{both_true, complement, negative, operated, operator_kind, result_kind};
use cf_base::{Arith, Kind};
use std::test::Fail;

#[test]
fn known_numbers(rt: HostRuntime) -> Result<(), Fail> {
    assert!(rt; operated(Arith::Add, Kind::Int, Some(2), Some(3)) == Some(5));
    assert!(rt; operated(Arith::Divide, Kind::Int, Some(2), Some(0)).is_none());
    assert!(rt; operated(Arith::Add, Kind::Int, Some(2), None).is_none());
    assert!(rt; negative(Kind::UInt, Some(1)) == Some(4294967295));
    assert!(rt; complement(Kind::Int, Some(0)) == Some(-1));
    assert!(rt; both_true(Some(2), Some(0)) == Some(0));
    Ok(())
}

#[test]
fn types_of_operators(rt: HostRuntime) -> Result<(), Fail> {
    assert!(rt; operator_kind(Arith::ShiftLeft, Kind::Int, Kind::ULong) == Kind::Int);
    assert!(rt; operator_kind(Arith::Add, Kind::Int, Kind::ULong) == Kind::ULong);
    assert!(rt; result_kind(Arith::Less, Kind::ULong) == Kind::Int);
    Ok(())
}
