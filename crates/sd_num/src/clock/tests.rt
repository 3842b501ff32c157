//! Reports and corrections worked out by hand.
use super::*;

#[test]
fn reports_as_worked_out_by_hand(rt: HostRuntime) {
    let rates = Rates {
        ppm: 200,
        grain: 1_000,
    };
    let estimate = Estimate::set(1_000_000, 500, 0);
    for (counter, clock, eps) in [
        (0, 1_000_000, 1_500),
        (1, 1_000_001, 1_501),
        (5_001, 1_005_001, 1_502),
        (5_000_000, 6_000_000, 2_500),
    ] {
        assert_eq!(rt;
            estimate.report(rates, counter),
            Report { clock, eps },
            "at {counter}"
        );
    }
}

#[test]
fn corrects_by_the_middle_and_its_half(rt: HostRuntime) {
    let sent = Report {
        clock: 7_000,
        eps: 20,
    };
    let bounds = Bounds {
        mid: 500,
        half: 101,
    };
    let wanted = Estimate {
        clock: 7_500,
        base: 121,
        at: 9,
    };
    assert_eq!(rt; corrected(sent, bounds, 9), wanted);
}
