use crate::{Classes, Label};
use cf_base::Items;
use std::test::Fail;

#[test]
fn labels_are_kept_in_order(rt: HostRuntime) -> Result<(), Fail> {
    let alloc = rt.alloc();
    let mut classes = Classes::new(alloc);
    let name = Items::from_slice(alloc, b"A").ok().ok_or("memory")?;
    let outer = classes
        .declare(Label { name, outer: None })
        .ok()
        .ok_or("memory")?;
    assert_eq!(rt; classes.label(outer).name.as_slice(), b"A".as_slice());
    assert!(rt; !classes.is_defined(outer));
    assert_eq!(rt; classes.count(), 0);
    let name = Items::from_slice(alloc, b"E").ok().ok_or("memory")?;
    let number = classes
        .declare_enum(Label {
            name,
            outer: Some(outer),
        })
        .ok()
        .ok_or("memory")?;
    assert_eq!(rt; classes.enum_label(number).outer, Some(outer));
    Ok(())
}
