use answer_lists::{Pairs, Ranks, arrange, arrange_ids};
use std::test::Fail;

#[test]
fn rows_grow_and_are_emptied(rt: HostRuntime) -> Result<(), Fail> {
    let mut ranks = Ranks::of(rt.alloc(), &[(4, 7)])?;
    ranks.append(&[(2, 9), (2, 3)])?;
    assert!(rt; ranks.as_slice() == [(4, 7), (2, 9), (2, 3)].as_slice());
    ranks.clear();
    assert!(rt; ranks.as_slice().is_empty());
    let mut pairs = Pairs::of(rt.alloc(), &[(1, 1)])?;
    pairs.append(&[(2, 9)])?;
    assert!(rt; pairs.as_slice() == [(1, 1), (2, 9)].as_slice());
    pairs.clear();
    assert!(rt; pairs.as_slice().is_empty());
    Ok(())
}

#[test]
fn pairs_in_order(rt: HostRuntime) -> Result<(), Fail> {
    let mut pairs = Vec::from_slice(
        rt.alloc(),
        &[(4, 7), (2, 9), (4, 7), (2, 3), (0, 4294967295)],
    )?;
    arrange(&mut pairs);
    assert!(rt; pairs.as_slice() == [(0, 4294967295), (2, 3), (2, 9), (4, 7), (4, 7)].as_slice());
    Ok(())
}

#[test]
fn ids_in_order(rt: HostRuntime) -> Result<(), Fail> {
    let mut ids = Vec::from_slice(rt.alloc(), &[9, 4294967295, 3, 9, 0])?;
    arrange_ids(&mut ids);
    assert!(rt; ids.as_slice() == [0, 3, 9, 9, 4294967295].as_slice());
    Ok(())
}
