//! Each premise at its bound and just past it, over the fabric with two plans that are alike: two
//! spines (0 and 1), three leaves (2 to 4), links from 0 to each leaf (0 to 2) and from 1 (3 to 5).
ghost use Rattle.std.specs.Prelude.{◌≤◌, length, IsTrue};
ghost use Rattle.sd_monitors.specs.clocks.Sights.{sight_of};
ghost use Rattle.sd_premise.specs.Standing.{CanObserve, room_of};

use sd_device::msg::{Flight, Message, Stamp};
use sd_num::NoMemory;
use sd_premise::{BrokenSet, NONE_BROKEN, Premises, Seen};
use sd_sched::Event;
use sd_test_examples::{fabric, fabric_plan};
use sd_world::world::link_of;
use std::alloc::Global;
use std::process::Abort;
use std::test::Fail;

/// What is seen of an event of which there is nothing else to see.
fn only(event: Event) -> Seen<'static> {
    Seen {
        event,
        taken: None,
        sent: &[],
        activated: None,
        acted: false,
        closed: false,
    }
}

/// A device starts, with this uncertainty and a clock that is 500 ahead.
fn start_within(eps: u64, reference: u64, device: u32) -> Seen<'static> {
    only(Event::Start {
        reference,
        device,
        counter: reference,
        clock: reference.saturating_add(500),
        eps,
    })
}

fn start(reference: u64, device: u32) -> Seen<'static> {
    start_within(500, reference, device)
}

fn join(reference: u64, device: u32) -> Seen<'static> {
    only(Event::Join {
        reference,
        device,
        counter: reference,
        clock: reference,
        eps: 0,
    })
}

fn read(reference: u64, device: u32, counter: u64) -> Seen<'static> {
    only(Event::Ask {
        reference,
        device,
        counter,
    })
}

fn fail_device(reference: u64, device: u32) -> Seen<'static> {
    only(Event::FailDevice { reference, device })
}

fn fail_link(reference: u64, link: u32) -> Seen<'static> {
    only(Event::FailLink { reference, link })
}

fn mend_link(reference: u64, link: u32) -> Seen<'static> {
    only(Event::MendLink { reference, link })
}

fn stage(reference: u64) -> Seen<'static> {
    only(Event::Stage { reference })
}

fn give(reference: u64, device: u32) -> Seen<'static> {
    only(Event::Give { reference, device })
}

/// The root commits the staged plan.
fn commit(reference: u64) -> Seen<'static> {
    Seen {
        activated: Some(0),
        acted: true,
        ..only(Event::Commit {
            reference,
            device: 0,
            counter: reference,
        })
    }
}

/// A device enters the staged plan with a tick, for which a message stands here.
fn enter(reference: u64, device: u32) -> Seen<'static> {
    Seen {
        activated: Some(device),
        ..only(Event::Tick {
            reference,
            device,
            counter: reference,
        })
    }
}

fn seal(reference: u64, device: u32) -> Seen<'static> {
    only(Event::Seal { reference, device })
}

/// A device is sealed, and the window closes.
fn close(reference: u64, device: u32) -> Seen<'static> {
    Seen {
        closed: true,
        ..seal(reference, device)
    }
}

/// Nothing but that time goes on.
fn pass(reference: u64) -> Seen<'static> {
    only(Event::Lose {
        reference,
        message: 9,
    })
}

/// A flight from the first spine to the first leaf, of this round.
fn flight(number: u64, sent_at: u64, round: u64) -> Flight {
    Flight {
        number,
        link: 0,
        sender: 0,
        receiver: 2,
        sent_at,
        due: sent_at.saturating_add(1_000_000),
        last: sent_at.saturating_add(2_000_000),
        reaches: true,
        message: Message {
            epoch: 1,
            stamp: Stamp { term: 0, round },
            clock: 0,
            eps: 0,
        },
    }
}

/// The first spine sends these flights.
fn send(reference: u64, sent: &[Flight]) -> Seen<'_> {
    Seen {
        event: Event::Tick {
            reference,
            device: 0,
            counter: reference,
        },
        taken: None,
        sent,
        activated: None,
        acted: true,
        closed: false,
    }
}

/// The first leaf receives a flight.
fn receive(reference: u64, flight: Flight) -> Seen<'static> {
    Seen {
        taken: Some(flight),
        ..only(Event::Recv {
            reference,
            device: 2,
            counter: reference,
            message: flight.number,
        })
    }
}

/// Whether the monitors can be shown the event, given room: it names what there is.
fn is_known(premises: &Premises, seen: &Seen<'_>) -> bool
    ensures { IsTrue result → length seen.now.sent.now ≤ room_of premises.now
        → CanObserve premises.now (sight_of seen.now) }
{
    let devices = premises.topology().devices();
    let links = premises.topology().links();
    let over = match &seen.taken {
        Some(flight) => flight.link,
        None => 0,
    };
    seen.event.device().unwrap_or(0) < devices
        && link_of(&seen.event).unwrap_or(0) < links
        && seen.activated.unwrap_or(0) < devices
        && over < links
        && premises.world().events() < 1000
        && premises.world().epoch() < 1000
}

/// What breaks with an event, for which room is made; nothing where it names what there is not.
fn watch(alloc: Global, premises: &mut Premises, seen: &Seen<'_>) -> Result<BrokenSet, NoMemory> {
    premises.ready(alloc, seen.sent.len())?;
    if is_known(premises, seen) {
        Ok(premises.observe(seen))
    } else {
        Ok(NONE_BROKEN)
    }
}

/// The monitors of the fabric, with two plans.
fn begun(rt: &impl AllocGlobal) -> Result<Premises, Fail> {
    let topo = fabric(rt.alloc())?;
    let plans = [fabric_plan(rt.alloc())?, fabric_plan(rt.alloc())?];
    Ok(Premises::new(rt.alloc(), &topo, &plans)?)
}

/// These premises break with the event at this place, none with another, and no other is broken at
/// the end.
fn assert_breaks(
    rt: &(impl AllocGlobal + Abort),
    premises: &mut Premises,
    events: &[Seen<'_>],
    due: (usize, BrokenSet),
) -> Result<(), Fail> {
    let (at, wanted) = due;
    for (i, seen) in events.iter().enumerate() {
        let breaks = watch(rt.alloc(), premises, seen)?;
        let expected = if i == at { wanted } else { NONE_BROKEN };
        assert_eq!(rt; breaks, expected, "{i}");
    }
    assert_eq!(rt; premises.broken(), wanted);
    Ok(())
}

/// The same of events from the beginning on.
fn check(
    rt: &(impl AllocGlobal + Abort),
    events: &[Seen<'_>],
    at: usize,
    wanted: BrokenSet,
) -> Result<(), Fail> {
    let mut premises = begun(rt)?;
    assert_breaks(rt, &mut premises, events, (at, wanted))
}

#[test]
fn a_clock_set_beyond_its_uncertainty_breaks_start(rt: HostRuntime) -> Result<(), Fail> {
    let start_only = BrokenSet {
        start: true,
        ..NONE_BROKEN
    };
    check(&rt, &[start_within(500, 9, 0), pass(10)], 1, NONE_BROKEN)?;
    check(
        &rt,
        &[
            start(8, 1),
            start_within(499, 9, 0),
            start_within(499, 9, 2),
        ],
        1,
        start_only,
    )
}

#[test]
fn a_reading_too_far_off_breaks_drift(rt: HostRuntime) -> Result<(), Fail> {
    let drift = BrokenSet {
        drift: true,
        ..NONE_BROKEN
    };
    check(
        &rt,
        &[start(0, 0), read(5_002_000, 0, 5_000_000)],
        1,
        NONE_BROKEN,
    )?;
    check(
        &rt,
        &[
            start(0, 0),
            read(5_002_001, 0, 5_000_000),
            read(5_002_002, 0, 5_000_000),
        ],
        1,
        drift,
    )?;
    check(
        &rt,
        &[
            start(0, 0),
            read(1_001_200, 0, 1_000_000),
            read(2_002_400, 0, 2_000_000),
        ],
        2,
        drift,
    )
}

#[test]
fn a_message_too_old_breaks_delay(rt: HostRuntime) -> Result<(), Fail> {
    let sent = [flight(1, 1000, 1)];
    let delay = BrokenSet {
        delay: true,
        ..NONE_BROKEN
    };
    let before = [start(0, 0), start(0, 2), send(1000, &sent)];
    let [one, two, three] = before;
    check(
        &rt,
        &[one, two, three, receive(1_001_000, flight(1, 1000, 1))],
        3,
        NONE_BROKEN,
    )?;
    check(
        &rt,
        &[one, two, three, receive(1_001_001, flight(1, 1000, 1))],
        3,
        delay,
    )
}

#[test]
fn a_device_too_long_silent_breaks_tick(rt: HostRuntime) -> Result<(), Fail> {
    let tick = BrokenSet {
        tick: true,
        ..NONE_BROKEN
    };
    check(&rt, &[start(0, 0), pass(10_000_000)], 1, NONE_BROKEN)?;
    check(
        &rt,
        &[start(0, 0), pass(10_000_001), pass(10_000_002)],
        1,
        tick,
    )
}

#[test]
fn two_spoiled_rounds_in_a_row_break_loss(rt: HostRuntime) -> Result<(), Fail> {
    let sent = [flight(1, 0, 1), flight(2, 0, 2)];
    let loss = BrokenSet {
        loss: true,
        ..NONE_BROKEN
    };
    let [one, two, three] = [start(0, 0), start(0, 2), send(0, &sent)];
    check(&rt, &[one, two, three, pass(1_000_000)], 3, NONE_BROKEN)?;
    check(
        &rt,
        &[
            one,
            two,
            three,
            receive(500_000, flight(1, 0, 1)),
            pass(1_000_001),
        ],
        4,
        NONE_BROKEN,
    )?;
    check(
        &rt,
        &[one, two, three, pass(1_000_001), pass(1_000_002)],
        3,
        loss,
    )
}

#[test]
fn a_second_failure_elsewhere_breaks_domain(rt: HostRuntime) -> Result<(), Fail> {
    let domain = BrokenSet {
        domain: true,
        ..NONE_BROKEN
    };
    check(&rt, &[fail_device(0, 4), pass(1)], 1, NONE_BROKEN)?;
    check(
        &rt,
        &[fail_device(0, 4), fail_link(0, 2), fail_link(0, 1)],
        1,
        domain,
    )?;
    // what is mended counts too, and this failure comes after a mend
    let both = BrokenSet {
        renew: true,
        ..domain
    };
    check(
        &rt,
        &[fail_link(0, 2), stage(0), mend_link(0, 2), fail_link(0, 1)],
        3,
        both,
    )
}

/// All devices start, and the staged plan is given to all of them.
fn prepared() -> [Seen<'static>; 11] {
    [
        start(0, 0),
        start(0, 1),
        start(0, 2),
        start(0, 3),
        start(0, 4),
        stage(1),
        give(1, 0),
        give(1, 1),
        give(1, 2),
        give(1, 3),
        give(1, 4),
    ]
}

/// Watches some events.
fn watch_all(alloc: Global, premises: &mut Premises, events: &[Seen<'_>]) -> Result<(), NoMemory> {
    for seen in events {
        let _: BrokenSet = watch(alloc, premises, seen)?;
    }
    Ok(())
}

/// Whether the premise of renewals is kept with the last of these events. It is with those before.
fn goes_on(
    rt: &(impl AllocGlobal + Abort),
    premises: &mut Premises,
    events: &[Seen<'_>],
) -> Result<bool, Fail> {
    let [before @ .., last] = events else {
        return Ok(true);
    };
    watch_all(rt.alloc(), premises, before)?;
    assert!(rt; !premises.broken().renew);
    let _: BrokenSet = watch(rt.alloc(), premises, last)?;
    Ok(!premises.broken().renew)
}

/// Whether a renewal that goes on so keeps its premise with the last event. It does before.
fn renews(rt: &(impl AllocGlobal + Abort), given: usize, then: &[Seen<'_>]) -> Result<bool, Fail> {
    let mut premises = begun(rt)?;
    let prepared = prepared();
    watch_all(
        rt.alloc(),
        &mut premises,
        prepared.get(..given).unwrap_or(&[]),
    )?;
    goes_on(rt, &mut premises, then)
}

#[test]
fn a_renewal_in_order_keeps_renew(rt: HostRuntime) -> Result<(), Fail> {
    let end = [
        commit(2),
        enter(3, 1),
        enter(3, 2),
        enter(3, 3),
        enter(3, 4),
        seal(4, 0),
        close(4, 1),
        fail_device(5, 4),
    ];
    assert!(rt; renews(&rt, 11, &end)?);
    Ok(())
}

#[test]
fn a_commit_too_early_breaks_renew(rt: HostRuntime) -> Result<(), Fail> {
    let unready = Seen {
        acted: false,
        ..commit(2)
    };
    assert!(rt; renews(&rt, 11, &[commit(2)])?);
    assert!(rt; !renews(&rt, 11, &[unready])?);
    assert!(rt; !renews(&rt, 10, &[commit(2)])?);
    assert!(rt; !renews(&rt, 11, &[fail_device(2, 3), commit(2)])?);
    assert!(rt; !renews(&rt, 11, &[fail_link(2, 5), commit(2)])?);
    assert!(rt; !renews(&rt, 11, &[fail_device(2, 3), join(2, 3), commit(2)])?);
    assert!(rt;
        renews(
            &rt,
            11,
            &[fail_device(2, 3), join(2, 3), give(2, 3), commit(2)]
        )?
    );
    Ok(())
}

#[test]
fn a_seal_before_all_have_entered_breaks_renew(rt: HostRuntime) -> Result<(), Fail> {
    let [one, two, three, four] = [commit(2), enter(3, 1), enter(3, 2), enter(3, 3)];
    assert!(rt;
        renews(
            &rt,
            11,
            &[one, two, three, four, enter(3, 4), seal(4, 0), seal(4, 4)]
        )?
    );
    assert!(rt; !renews(&rt, 11, &[one, two, three, four, seal(4, 0)])?);
    Ok(())
}

#[test]
fn a_failure_after_a_mend_or_a_commit_breaks_renew(rt: HostRuntime) -> Result<(), Fail> {
    assert!(rt; renews(&rt, 5, &[fail_link(1, 0), stage(1), fail_link(1, 1)])?);
    assert!(rt; renews(&rt, 5, &[fail_link(1, 0), stage(1), mend_link(1, 0)])?);
    assert!(rt;
        !renews(
            &rt,
            5,
            &[fail_link(1, 0), stage(1), mend_link(1, 0), fail_link(1, 0)]
        )?
    );
    assert!(rt; !renews(&rt, 11, &[commit(2), fail_link(2, 1)])?);
    Ok(())
}

#[test]
fn a_late_start_or_a_first_join_breaks_renew(rt: HostRuntime) -> Result<(), Fail> {
    assert!(rt; renews(&rt, 4, &[start(1, 4), stage(1)])?);
    assert!(rt; !renews(&rt, 4, &[stage(1), start(1, 4)])?);
    assert!(rt; !renews(&rt, 4, &[stage(1), join(1, 4)])?);
    assert!(rt; renews(&rt, 4, &[fail_device(1, 4), stage(1), join(1, 4)])?);
    Ok(())
}
