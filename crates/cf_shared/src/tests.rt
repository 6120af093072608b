use crate::SharedVec;
use std::alloc::Global;
use std::test::Fail;

/// The numbers below this one.
fn numbers(alloc: Global, count: u32) -> Option<SharedVec<u32>> {
    let mut made = SharedVec::new(alloc);
    for number in 0..count {
        made.push(number).ok()?;
    }
    Some(made)
}

/// Whether the list has these numbers.
fn has(list: &SharedVec<u32>, want: &[u32]) -> bool {
    if list.len() != want.len() {
        return false;
    }
    for index in 0..want.len() {
        if list.get(index).copied() != Some(want[index]) {
            return false;
        }
    }
    true
}

#[test]
fn items_stand_in_order(rt: HostRuntime) -> Result<(), Fail> {
    let list = numbers(rt.alloc(), 9).ok_or("memory")?;
    assert!(rt; has(&list, &[0, 1, 2, 3, 4, 5, 6, 7, 8]));
    assert!(rt; list.get(9).is_none());
    Ok(())
}

#[test]
fn a_write_leaves_the_older_list(rt: HostRuntime) -> Result<(), Fail> {
    let older = numbers(rt.alloc(), 5).ok_or("memory")?;
    let mut newer = older.copy().ok().ok_or("memory")?;
    newer.set(3, 7).ok().ok_or("memory")?;
    newer.set(5, 8).ok().ok_or("memory")?;
    newer.push(9).ok().ok_or("memory")?;
    assert!(rt; has(&older, &[0, 1, 2, 3, 4]));
    assert!(rt; has(&newer, &[0, 1, 2, 7, 4, 9]));
    Ok(())
}
