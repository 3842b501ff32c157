//! A set of numbers.
ghost use Rattle.std.specs.Prelude.{◌≡◌, ◌<◌};

use crate::same::assert_same;
use sd_plan::domain::NumberSet;
use std::process::Abort;
use std::test::Fail;

/// Adds a number, and whether it is new. That is compared, so no more is promised than the bound.
fn insert(set: &mut NumberSet, number: u32) -> bool
    requires { number < set.old.bound }
    ensures { set.new.bound ≡ set.old.bound }
{
    set.insert(number)
}

/// Which of the numbers below 5 are in the set.
fn held(set: &NumberSet) -> [bool; 5] {
    [
        set.contains(0),
        set.contains(1),
        set.contains(2),
        set.contains(3),
        set.contains(4),
    ]
}

/// The numbers in the set, in the order in which they came.
fn listed(set: &NumberSet) -> &[u32] {
    set.as_slice()
}

/// Numbers below 4 come and go.
fn assert_comes_and_goes(rt: &impl Abort, set: &mut NumberSet)
    requires { 3 < set.old.bound }
{
    assert_same(rt, insert(set, 3), true);
    assert_same(rt, insert(set, 1), true);
    assert_same(rt, insert(set, 3), false);
    assert_same(rt, listed(set), [3, 1].as_slice());
    assert_same(rt, held(set), [false, true, false, true, false]);
    set.clear();
    assert_same(rt, held(set), [false; 5]);
    assert_same(rt, insert(set, 0), true);
    assert_same(rt, listed(set), [0].as_slice());
}

#[test]
fn numbers_come_and_go(rt: HostRuntime) -> Result<(), Fail> {
    let mut set = NumberSet::new(rt.alloc(), 4)?;
    assert_comes_and_goes(&rt, &mut set);
    Ok(())
}
