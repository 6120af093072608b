use crate::frame;
use cf_base::Items;
use cf_classes::Classes;
use cf_core::CoreUnit;
use cf_types::Types;
use std::test::Fail;

/// A file without objects has the least bound for its initialising function.
#[test]
fn empty_file(rt: HostRuntime) -> Result<(), Fail> {
    let alloc = rt.alloc();
    let unit = CoreUnit::new(
        Types::new(alloc),
        Classes::new(alloc),
        Items::new(alloc),
        Items::new(alloc),
    );
    assert!(rt; frame(&unit, 0) == 64);
    Ok(())
}
