//! Loops and roots as devices change one by one.
use sd_replay::watch::parent_table::{ParentRow, ParentTable};
use std::test::Fail;

fn follows(parent: u32) -> ParentRow {
    ParentRow {
        parent: Some(parent),
        acts: false,
    }
}

const NOBODY: ParentRow = ParentRow {
    parent: None,
    acts: false,
};

const ACTS: ParentRow = ParentRow {
    parent: None,
    acts: true,
};

#[test]
fn a_loop_is_known_from_the_change_that_closes_it_until_the_one_that_opens_it(
    rt: HostRuntime,
) -> Result<(), Fail> {
    let mut parent_table = ParentTable::new(rt.alloc(), 5)?;
    assert_eq!(rt; parent_table.first_loop(), None);
    parent_table.set(3, follows(4));
    parent_table.set(4, follows(2));
    assert_eq!(rt; parent_table.first_loop(), None);
    parent_table.set(2, follows(3));
    assert_eq!(rt; parent_table.first_loop(), Some(2));
    parent_table.set(1, follows(1));
    assert_eq!(rt; parent_table.first_loop(), Some(1));
    parent_table.set(1, follows(2));
    assert_eq!(rt; parent_table.first_loop(), Some(2));
    parent_table.set(4, NOBODY);
    assert_eq!(rt; parent_table.first_loop(), None);
    Ok(())
}

#[test]
fn the_two_least_that_act_are_known_while_two_act(rt: HostRuntime) -> Result<(), Fail> {
    let mut parent_table = ParentTable::new(rt.alloc(), 4)?;
    parent_table.set(2, ACTS);
    assert_eq!(rt; parent_table.two_acting(), None);
    parent_table.set(3, ACTS);
    assert_eq!(rt; parent_table.two_acting(), Some((2, 3)));
    parent_table.set(0, ACTS);
    assert_eq!(rt; parent_table.two_acting(), Some((0, 2)));
    parent_table.set(2, follows(0));
    assert_eq!(rt; parent_table.two_acting(), Some((0, 3)));
    parent_table.set(3, NOBODY);
    assert_eq!(rt; parent_table.two_acting(), None);
    Ok(())
}
