use row_chains::RowChains;
use std::test::Fail;

#[test]
fn rows_of_a_group_follow_each_other(rt: HostRuntime) -> Result<(), Fail> {
    let mut chains = RowChains::new(rt.alloc());
    chains.ready(4)?;
    chains.push(5);
    chains.push(9);
    chains.push(5);
    assert_eq!(rt; chains.first(5), Some(0));
    assert_eq!(rt; chains.next(0), Some(2));
    assert_eq!(rt; chains.next(1), None);
    assert_eq!(rt; chains.first(6), None);
    chains.remove_last();
    assert_eq!(rt; chains.next(0), None);
    chains.push(9);
    assert_eq!(rt; chains.next(1), Some(2));
    Ok(())
}
