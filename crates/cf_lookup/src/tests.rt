use crate::{EntityId, Scopes};
use std::test::Fail;

#[test]
fn inner_name_hides_the_outer_one(rt: HostRuntime) -> Result<(), Fail> {
    let mut scopes = Scopes::new(rt.alloc());
    assert!(rt; scopes.declare(b"x", EntityId::new(1)).ok().ok_or("memory")?);
    scopes.enter().ok().ok_or("memory")?;
    assert_eq!(rt; scopes.find(b"x"), Some(EntityId::new(1)));
    assert!(rt; scopes.declare(b"x", EntityId::new(2)).ok().ok_or("memory")?);
    assert!(rt; !scopes.declare(b"x", EntityId::new(3)).ok().ok_or("memory")?);
    assert_eq!(rt; scopes.find(b"x"), Some(EntityId::new(2)));
    assert_eq!(rt; scopes.find(b"y"), None);
    Ok(())
}

#[test]
fn names_end_with_their_scope(rt: HostRuntime) -> Result<(), Fail> {
    let mut scopes = Scopes::new(rt.alloc());
    scopes.enter().ok().ok_or("memory")?;
    scopes.leave();
    assert_eq!(rt; scopes.find(b"x"), None);
    Ok(())
}

#[test]
fn file_scope_is_found_from_a_block(rt: HostRuntime) -> Result<(), Fail> {
    let mut scopes = Scopes::new(rt.alloc());
    assert!(rt; scopes.declare(b"x", EntityId::new(1)).ok().ok_or("memory")?);
    scopes.enter().ok().ok_or("memory")?;
    assert!(rt; scopes.declare(b"x", EntityId::new(2)).ok().ok_or("memory")?);
    assert_eq!(rt; scopes.find_in_file(b"x"), Some(EntityId::new(1)));
    assert_eq!(rt; scopes.find_here(b"x"), Some(EntityId::new(2)));
    assert!(rt; !scopes.is_file_scope());
    Ok(())
}
