use crate::NameTable;
use cf_base::Items;
use std::test::Fail;

#[test]
fn names_are_found(rt: HostRuntime) -> Result<(), Fail> {
    let mut names = Items::new(rt.alloc());
    for name in [b"x".as_slice(), b"y".as_slice(), b"x".as_slice()] {
        let name = Items::from_slice(rt.alloc(), name).ok().ok_or("memory")?;
        names.push(name).ok().ok_or("memory")?;
    }
    let table = NameTable::of(rt.alloc(), names).ok().ok_or("memory")?;
    assert!(rt; table.has(b"x"));
    assert!(rt; table.has(b"y"));
    assert!(rt; !table.has(b"z"));
    assert_eq!(rt; table.as_slice().len(), 3);
    Ok(())
}
