//! Loops beside a plain slow search, acting devices and intervals worked out by hand.
use sd_num::clock::Report;
use sd_replay::watch::{first_loop, loop_at, outside, two_acting};

/// Whether going along parents comes back to `d`, by as many steps as there are devices.
fn comes_back(d: u32, parents: &[Option<u32>]) -> bool {
    let mut here = Some(d);
    for _ in 0..parents.len() {
        here = match here {
            Some(device) => parents.get(device as usize).copied().flatten(),
            None => None,
        };
        if here == Some(d) {
            return true;
        }
    }
    false
}

/// The least device below the count that comes back.
fn first_back(parents: &[Option<u32>], count: u32) -> Option<u32> {
    for d in 0..count {
        if comes_back(d, parents) {
            return Some(d);
        }
    }
    None
}

/// The parent that a list numbered by its digits gives: none for the digit 0, one past the end for
/// the last.
fn digit(number: u32, place: u32, base: u32) -> Option<u32> {
    let mut rest = number;
    for _ in 0..place {
        rest /= base.max(1);
    }
    (rest % base.max(1)).checked_sub(1)
}

#[test]
fn every_list_of_four_devices_is_answered_as_by_a_slow_search(rt: HostRuntime) {
    for number in 0..1296u32 {
        let parents = [
            digit(number, 0, 6),
            digit(number, 1, 6),
            digit(number, 2, 6),
            digit(number, 3, 6),
        ];
        for d in 0..6 {
            assert_eq!(rt;
                loop_at(d, &parents),
                comes_back(d, &parents),
                "{d} of {parents:?}"
            );
        }
        assert_eq!(rt;
            first_loop(&parents),
            first_back(&parents, 4),
            "{parents:?}"
        );
    }
}

#[test]
fn a_loop_is_found_in_lists_longer_than_the_marks(rt: HostRuntime) {
    let mut parents = [None; 5000];
    assert_eq!(rt; first_loop(&parents), None);
    parents[4999] = Some(4998);
    assert_eq!(rt; first_loop(&parents), None);
    parents[4998] = Some(4999);
    assert_eq!(rt; first_loop(&parents), Some(4998));
    parents[4097] = Some(4097);
    assert_eq!(rt; first_loop(&parents), Some(4097));
    assert_eq!(rt; loop_at(4998, &parents), true);
    assert_eq!(rt; loop_at(4096, &parents), false);
    assert_eq!(rt; loop_at(5000, &parents), false);
}

#[test]
fn a_long_chain_that_ends_in_a_loop(rt: HostRuntime) {
    let mut parents = [None; 4096];
    for d in 0..4095u32 {
        parents[d as usize] = Some(d + 1);
    }
    assert_eq!(rt; first_loop(&parents), None);
    parents[4095] = Some(4000);
    assert_eq!(rt; first_loop(&parents), Some(4000));
    assert_eq!(rt; loop_at(3999, &parents), false);
    parents[4095] = Some(0);
    assert_eq!(rt; first_loop(&parents), Some(0));
    assert_eq!(rt; loop_at(4095, &parents), true);
}

#[test]
fn no_devices_have_no_loop(rt: HostRuntime) {
    assert_eq!(rt; first_loop(&[]), None);
    assert_eq!(rt; loop_at(0, &[]), false);
}

#[test]
fn the_two_least_that_act(rt: HostRuntime) {
    let cases: [(&[bool], Option<(u32, u32)>); 6] = [
        (&[], None),
        (&[false, false], None),
        (&[false, true], None),
        (&[true, true], Some((0, 1))),
        (&[false, true, false, true, true], Some((1, 3))),
        (&[true, false, false, false, true], Some((0, 4))),
    ];
    for (acting, wanted) in cases {
        assert_eq!(rt; two_acting(acting), wanted, "{acting:?}");
    }
}

#[test]
fn the_ends_of_an_interval_lie_inside(rt: HostRuntime) {
    for (clock, eps, reference, wanted) in [
        (1_000, 10, 990, false),
        (1_000, 10, 989, true),
        (1_000, 10, 1_010, false),
        (1_000, 10, 1_011, true),
        (5, 10, 0, false),
        (0, 0, 0, false),
        (0, 0, 1, true),
        (u128::MAX, u128::MAX, 0, false),
        (u128::MAX, 0, u64::MAX, true),
    ] {
        let report = Report { clock, eps };
        assert_eq!(rt;
            outside(report, reference),
            wanted,
            "{report:?} at {reference}"
        );
    }
}
