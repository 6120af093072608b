use crate::Names;
use std::test::Fail;

#[test]
fn names_are_found_until_they_are_cut_off(rt: HostRuntime) -> Result<(), Fail> {
    let mut names = Names::new(rt.alloc());
    for name in [b"x".as_slice(), b"y".as_slice(), b"x".as_slice()] {
        names.add(name).ok().ok_or("memory")?;
    }
    assert!(rt; names.has(b"y"));
    names.cut(1);
    assert!(rt; names.has(b"x"));
    assert!(rt; !names.has(b"y"));
    assert_eq!(rt; names.len(), 1);
    Ok(())
}
