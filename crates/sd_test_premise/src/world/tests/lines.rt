//! The lines of events, written out by hand.
use sd_history::BrokenSet;
use sd_num::clock::Report;
use sd_replay::lines::{EventLines, Findings, print_findings};
use sd_test_examples::fabric;
use std::test::Fail;

const NOTHING: Findings = Findings {
    broken: BrokenSet {
        start: false,
        drift: false,
        delay: false,
        tick: false,
        loss: false,
        domain: false,
        renew: false,
    },
    looped: None,
    roots: None,
    report: None,
    reference: 1_011,
};

#[test]
fn all_that_an_event_can_bring_is_printed_in_order(rt: HostRuntime) -> Result<(), Fail> {
    let topo = fabric(rt.alloc())?;
    let mut out = EventLines::new(rt.alloc())?;
    let findings = Findings {
        broken: BrokenSet {
            start: true,
            drift: true,
            delay: true,
            tick: true,
            loss: true,
            domain: true,
            renew: true,
        },
        looped: Some(2),
        roots: Some((0, 1)),
        report: Some((
            4,
            Report {
                clock: 1_000,
                eps: 10,
            },
        )),
        reference: 1_011,
    };
    print_findings(&mut out, &topo, 7, &findings);
    let wanted =
        "broken 7 start\nbroken 7 drift\nbroken 7 delay\nbroken 7 tick\nbroken 7 loss\nbroken 7 domain\nbroken 7 renew\nalarm 7 loop l1\nalarm 7 roots s1 s2\nreport 7 l3 1000 10\nalarm 7 interval l3 1011\n";
    assert_eq!(rt; out.as_bytes(), wanted.as_bytes());
    Ok(())
}

#[test]
fn an_event_of_which_nothing_is_found_has_no_lines(rt: HostRuntime) -> Result<(), Fail> {
    let topo = fabric(rt.alloc())?;
    let mut out = EventLines::new(rt.alloc())?;
    let findings = Findings {
        looped: Some(0),
        ..NOTHING
    };
    print_findings(&mut out, &topo, 7, &findings);
    print_findings(&mut out, &topo, 8, &NOTHING);
    assert_eq!(rt; out.as_bytes(), b"".as_slice());
    assert_eq!(rt; NOTHING.misses(), false);
    Ok(())
}

#[test]
fn an_end_of_the_interval_is_no_miss(rt: HostRuntime) -> Result<(), Fail> {
    let topo = fabric(rt.alloc())?;
    let mut out = EventLines::new(rt.alloc())?;
    let findings = Findings {
        report: Some((
            0,
            Report {
                clock: 1_000,
                eps: 11,
            },
        )),
        ..NOTHING
    };
    print_findings(&mut out, &topo, 67_108_864, &findings);
    assert_eq!(rt; out.as_bytes(), b"report 67108864 s1 1000 11\n".as_slice());
    assert_eq!(rt; findings.misses(), false);
    Ok(())
}
