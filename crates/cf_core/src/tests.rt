use crate::unit::CoreUnit;
use cf_base::Items;
use cf_classes::Classes;
use cf_types::Types;
use std::test::Fail;

/// A file without functions and objects has a valid core.
#[test]
fn empty_core(rt: HostRuntime) -> Result<(), Fail> {
    let alloc = rt.alloc();
    let unit = CoreUnit::new(
        Types::new(alloc),
        Classes::new(alloc),
        Items::new(alloc),
        Items::new(alloc),
    );
    assert!(rt; unit.functions().len() == 0);
    assert!(rt; unit.statics().len() == 0);
    Ok(())
}
