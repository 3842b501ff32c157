//! A replay beside a plain slow one, on histories drawn by lot over four networks: each line of each
//! event is compared. It is of devices, and of nodes that seal themselves or fall back at a message.

mod accepted;
mod changes;
mod course;
mod drawn;
mod events;
mod networks;
mod tally;
mod tempers;

use crate::plain::{PlainReplay, Site};
use accepted::accepted_plans;
use course::Course;
use networks::{FABRIC, NETWORKS, Network, SQUARE};
use sd_device::msg::NoObserver;
use sd_device::{Device, Node};
use sd_plan::Plan;
use sd_plan::topo::{Thing, Topology};
use sd_replay::{PlanList, Replay, ReplayFault};
use sd_sched::{Event, line_text, read_line};
use sd_test_fleet_kit::kinds::{FallingBack, SelfSealing};
use sd_test_fleet_kit::plain::{NodeKind, Numbers};
use sd_topotext::read_topology;
use std::alloc::Global;
use std::process::Abort;
use std::test::Fail;
use tally::{Seen, Tally};
use tempers::{RASH, RENEWED, TEMPERS, Temper};

/// This many histories of each temper are drawn over each network.
const HISTORIES: u32 = 4;

/// In this many histories each premise breaks and each alarm comes, and in as many it does not.
const LEAST: u64 = 8;

/// What a history is drawn for.
#[derive(Clone, Copy)]
struct Kind<'a> {
    temper: &'a Temper,
    failures: &'a [Option<Thing>],
    seed: u64,
    /// Whether the replay is given lines, and not events.
    by_lines: bool,
    /// What its nodes are.
    nodes: NodeKind,
}

/// What is compared, and what was seen.
#[derive(Drop)]
struct Trial<'a, N: Node> {
    replay: Replay<N, NoObserver>,
    plain: PlainReplay<'a>,
    seen: Seen,
}

/// A line without its newline.
fn without_newline(text: &[u8]) -> &[u8] {
    match text {
        [line @ .., _] => line,
        [] => text,
    }
}

/// Whether the replay has printed this text.
fn prints<N: Node>(replay: &Replay<N, NoObserver>, text: &str) -> bool {
    replay.lines() == text.as_bytes()
}

/// An event that the replay accepts happens in the plain program too, which finds the same of it.
fn compare<N: Node>(
    rt: &(impl AllocGlobal + Abort),
    trial: &mut Trial<'_, N>,
    kind: Kind<'_>,
    event: Event,
) -> Result<(), Fail> {
    let seed = kind.seed;
    let found = trial.plain.happen(event)?;
    let text = found.text(rt.alloc(), trial.plain.site)?;
    assert!(rt;
        prints(&trial.replay, text.as_str()),
        "history {seed}: {event:?} {text}"
    );
    let closed = trial.plain.plain.has_just_closed();
    trial.seen.accept(&found, closed);
    Ok(())
}

/// An event that was drawn, which the fleet may refuse.
fn happen<N: Node>(
    rt: &(impl AllocGlobal + Abort),
    trial: &mut Trial<'_, N>,
    kind: Kind<'_>,
    drawn: &Event,
) -> Result<(), Fail> {
    let text = line_text(rt.alloc(), drawn)?;
    let line = without_newline(text.as_slice());
    let event = read_line(line)?;
    let came = if kind.by_lines {
        trial.replay.step(rt.alloc(), line)
    } else {
        trial.replay.step_event(rt.alloc(), &event)
    };
    if let Err(ReplayFault::Apply(_)) = came {
        trial.seen.refuse();
        return Ok(());
    }
    came?;
    compare(rt, trial, kind, event)
}

/// One history up to its end.
fn run_history<N: Node>(
    rt: &(impl AllocGlobal + Abort),
    trial: &mut Trial<'_, N>,
    kind: Kind<'_>,
) -> Result<(), Fail> {
    let mut numbers = Numbers { state: kind.seed };
    for _ in 0..kind.temper.events {
        let drawn = Course {
            replay: &trial.plain,
            temper: kind.temper,
            failures: kind.failures,
            seed: kind.seed,
        }
        .draw(&mut numbers);
        happen(rt, trial, kind, &drawn)?;
    }
    let reference = trial.plain.plain.latest_reference();
    happen(rt, trial, kind, &Event::End { reference })
}

/// The replay has counted what was seen.
fn compare_tallies<N: Node>(rt: &impl Abort, trial: &Trial<'_, N>) {
    let tally = trial.replay.tally();
    assert!(rt; trial.replay.ended());
    assert_eq!(rt; tally.events, trial.seen.events);
    assert_eq!(rt; tally.reports, trial.seen.reports);
    assert_eq!(rt; tally.broken, trial.seen.broken);
    assert_eq!(rt; tally.alarms, trial.seen.alarms());
}

/// One history over a network, in a replay and in the plain program.
fn run_over<N: Node>(
    rt: &(impl AllocGlobal + Abort),
    replay: Replay<N, NoObserver>,
    site: &Site<'_>,
    kind: Kind<'_>,
    tally: &mut Tally,
) -> Result<(), Fail> {
    let mut trial = Trial {
        replay,
        plain: PlainReplay::of_kind(rt.alloc(), site, kind.nodes),
        seen: Seen::new(),
    };
    let ran = run_history(rt, &mut trial, kind);
    if ran.is_ok() {
        compare_tallies(rt, &trial);
        tally.add(&trial.seen, trial.plain.broken.as_slice());
    }
    drop(trial);
    ran
}

/// A replay of a network before any event.
fn replay_of<N: Node>(alloc: Global, network: &Network) -> Result<Replay<N, NoObserver>, Fail> {
    let topo = read_topology(alloc, network.topology.as_bytes())?;
    let plans = accepted_plans(alloc, &topo, network.plans)?;
    Ok(Replay::new(alloc, topo, PlanList::from_vec(plans), NoObserver)?)
}

/// A topology with its plans.
#[derive(Clone, Copy)]
struct PlannedTopology<'a> {
    topo: &'a Topology,
    plans: &'a [Plan],
}

/// One history over a topology and its plans.
fn run_on<N: Node>(
    rt: &(impl AllocGlobal + Abort),
    replay: Replay<N, NoObserver>,
    planned: PlannedTopology<'_>,
    kind: Kind<'_>,
    tally: &mut Tally,
) -> Result<(), Fail> {
    let site = Site::of(rt.alloc(), planned.topo, planned.plans)?;
    run_over(rt, replay, &site, kind, tally)
}

/// One history over a network, in this replay of it.
fn run_in<N: Node>(
    rt: &(impl AllocGlobal + Abort),
    replay: Replay<N, NoObserver>,
    network: &Network,
    kind: Kind<'_>,
    tally: &mut Tally,
) -> Result<(), Fail> {
    let topo = read_topology(rt.alloc(), network.topology.as_bytes())?;
    let plans = accepted_plans(rt.alloc(), &topo, network.plans)?;
    let planned = PlannedTopology {
        topo: &topo,
        plans: plans.as_slice(),
    };
    run_on(rt, replay, planned, kind, tally)
}

/// One history over a network.
fn run_network<N: Node>(
    rt: &(impl AllocGlobal + Abort),
    network: &Network,
    kind: Kind<'_>,
    tally: &mut Tally,
) -> Result<(), Fail> {
    let replay = replay_of::<N>(rt.alloc(), network)?;
    run_in(rt, replay, network, kind, tally)
}

/// One history of a temper, of devices that are given events.
fn kind_of<'a>(network: &'a Network, temper: &'a Temper, seed: u64) -> Kind<'a> {
    Kind {
        temper,
        failures: network.failures,
        seed,
        by_lines: false,
        nodes: NodeKind::Device,
    }
}

/// A history of each temper over a network.
fn run_tempers<N: Node>(
    rt: &(impl AllocGlobal + Abort),
    network: Network,
    nodes: NodeKind,
    tally: &mut Tally,
) -> Result<(), Fail> {
    for temper in TEMPERS {
        let kind = Kind {
            nodes,
            ..kind_of(&network, &temper, tally.events)
        };
        run_network::<N>(rt, &network, kind, tally)?;
    }
    Ok(())
}

#[test]
fn a_replay_prints_what_a_plain_program_finds(rt: HostRuntime) -> Result<(), Fail> {
    let mut tally = Tally::new();
    for _ in 0..HISTORIES {
        for network in NETWORKS {
            run_tempers::<Device>(&rt, network, NodeKind::Device, &mut tally)?;
        }
    }
    assert!(rt; tally.is_ample(LEAST), "{tally:?}");
    Ok(())
}

#[test]
fn a_replay_of_nodes_that_seal_themselves_prints_the_same(rt: HostRuntime) -> Result<(), Fail> {
    let mut tally = Tally::new();
    run_tempers::<SelfSealing>(&rt, FABRIC, NodeKind::SelfSealing, &mut tally)?;
    run_tempers::<SelfSealing>(&rt, SQUARE, NodeKind::SelfSealing, &mut tally)
}

#[test]
fn a_replay_of_nodes_that_fall_back_prints_the_same(rt: HostRuntime) -> Result<(), Fail> {
    let mut tally = Tally::new();
    run_tempers::<FallingBack>(&rt, FABRIC, NodeKind::FallingBack, &mut tally)?;
    run_tempers::<FallingBack>(&rt, SQUARE, NodeKind::FallingBack, &mut tally)
}

#[test]
fn a_replay_that_is_given_lines_prints_the_same(rt: HostRuntime) -> Result<(), Fail> {
    let mut tally = Tally::new();
    let renewed = Kind {
        by_lines: true,
        ..kind_of(&FABRIC, &RENEWED, 1)
    };
    run_network::<Device>(&rt, &FABRIC, renewed, &mut tally)?;
    let rash = Kind {
        by_lines: true,
        ..kind_of(&SQUARE, &RASH, 2)
    };
    run_network::<Device>(&rt, &SQUARE, rash, &mut tally)
}
