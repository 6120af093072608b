use crate::PlainUnit;
use cf_base::Items;
use cf_classes::Classes;
use cf_types::Types;
use std::test::Fail;

/// A file without functions and objects has valid plain statements, with the bound of its initialising function alone.
#[test]
fn empty_unit(rt: HostRuntime) -> Result<(), Fail> {
    let alloc = rt.alloc();
    let frames = Items::from_slice(alloc, &[64]).ok().ok_or("memory")?;
    let unit = PlainUnit::new(
        Types::new(alloc),
        Classes::new(alloc),
        Items::new(alloc),
        Items::new(alloc),
        frames,
    );
    assert!(rt; unit.functions().len() == 0);
    assert!(rt; unit.frames().len() == 1);
    Ok(())
}
