//! Which of two stamps is newer.
use sd_device::msg::Stamp;

#[test]
fn a_later_term_is_newer_and_then_a_later_round(rt: HostRuntime) {
    for (term, round, other_term, other_round, newer) in [
        (1, 0, 0, 9, true),
        (0, 9, 1, 0, false),
        (1, 2, 1, 1, true),
        (1, 1, 1, 1, false),
        (1, 0, 1, 1, false),
    ] {
        let stamp = Stamp { term, round };
        let other = Stamp {
            term: other_term,
            round: other_round,
        };
        assert_eq!(rt;
            stamp.is_newer(other),
            newer,
            "{term} {round} against {other_term} {other_round}"
        );
    }
}
