//! Numbers that are taken, given and copied.
use free_list::FreeList;
use std::test::Fail;

#[test]
fn the_last_free_number_is_taken(rt: HostRuntime) -> Result<(), Fail> {
    let mut list = FreeList::new(rt.alloc(), 86, 4, &[89, 86])?;
    assert_eq!(rt; list.take(), 86);
    assert!(rt; list.is_free(89));
    assert!(rt; list.is_live(86));
    assert!(rt; !list.is_live(90));
    assert_eq!(rt; list.len(), 1);
    Ok(())
}
