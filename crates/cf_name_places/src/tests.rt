use crate::Places;
use std::test::Fail;

#[test]
fn the_last_place_of_a_name_is_found(rt: HostRuntime) -> Result<(), Fail> {
    let mut places = Places::new(rt.alloc());
    places.add(b"x").ok().ok_or("memory")?;
    places.add(b"y").ok().ok_or("memory")?;
    places.add(b"x").ok().ok_or("memory")?;
    assert_eq!(rt; places.find(b"x"), Some(2));
    assert_eq!(rt; places.find(b"y"), Some(1));
    places.cut(2);
    assert_eq!(rt; places.find(b"x"), Some(0));
    places.cut(1);
    assert_eq!(rt; places.find(b"y"), None);
    assert_eq!(rt; places.find(b"x"), Some(0));
    Ok(())
}
