//! A fleet beside a plain slow program, on histories drawn by lot over four networks: of devices,
//! bare and wrapped, and of nodes that seal themselves or fall back at a message. At every other
//! event a quick way is tried first.
ghost use Rattle.std.specs.Prelude.{◌≤◌, ◌<◌, ◌^◌, length, IsTrue};
ghost use Rattle.sd_sched.specs.Spelled.{is_within};
ghost use Rattle.sd_plan.specs.topo.Topologies.{network};
ghost use Rattle.sd_world.specs.membership.Plans.{AreSound};
ghost use Rattle.sd_fleet.specs.Devices.{NodesKeepChronicle};

mod causes;
mod drawn;
mod outcomes;
mod tally;
mod ways;

use crate::same::assert_same_at;
use causes::refusal;
use drawn::{draw, line_of};
use outcomes::{happen, look};
use sd_device::{Device, Node};
use sd_fleet::{ApplyFault, Fleet, Outcome, keeps_chronicle};
use sd_plan::Plan;
use sd_plan::topo::Topology;
use sd_sched::{Event, read_line};
use sd_test_fleet_kit::examples::{Example, FABRIC, PAIR, SQUARE, TRIANGLE, plans_of};
use sd_test_fleet_kit::kinds::{FallingBack, SelfSealing, Wrapped};
use sd_test_fleet_kit::plain::{Net, NodeKind, Numbers, Plain};
use sd_topotext::read_topology;
use std::alloc::Global;
use std::process::Abort;
use std::test::Fail;
use tally::Tally;
use ways::happen_quickly;

/// This many events are drawn for each history.
const LINES: u32 = 120;

/// This many histories are drawn over each network.
const HISTORIES: u64 = 12;

/// Whether the fleet says of each device what the plain program says.
fn is_as<N: Node>(fleet: &Fleet<N>, plain: &Plain<'_>) -> bool {
    for d in 0..fleet.devices() {
        if fleet.is_up(d) != plain.is_up(d)
            || fleet.is_counted(d) != plain.is_counted(d)
            || fleet.parent(d) != plain.parent(d)
            || fleet.acts(d) != plain.acts(d)
        {
            return false;
        }
    }
    true
}

/// Whether the fleet finds what the plain program finds under each number of a message.
fn finds_as<N: Node>(fleet: &Fleet<N>, plain: &Plain<'_>) -> bool {
    for number in 0..(plain.sent.len() as u64).saturating_add(2) {
        if fleet.flight(number) != look(plain, number) {
            return false;
        }
    }
    true
}

/// What is compared.
#[derive(Drop)]
struct Trial<'a, N: Node> {
    fleet: Fleet<N>,
    plain: Plain<'a>,
    /// Whether a quick way was tried at the latest event.
    is_quick: bool,
}

/// A line, and the word that it begins with.
#[derive(Clone, Copy)]
struct Line<'a> {
    word: &'a str,
    text: &'a str,
}

/// The event happens in the fleet, at every other event by a quick way where there is one.
fn apply<N: Node>(
    alloc: Global,
    trial: &mut Trial<'_, N>,
    tally: &mut Tally,
    event: &Event,
) -> Result<Result<Outcome, ApplyFault>, Fail>
    requires { IsTrue (is_within event.now) }
{
    trial.is_quick = !trial.is_quick;
    if trial.is_quick
        && let Some(outcome) = happen_quickly(alloc, &mut trial.fleet, event)?
    {
        tally.accept_quickly(&outcome);
        return Ok(Ok(outcome));
    }
    Ok(trial.fleet.apply(alloc, event))
}

/// An event that is not refused happens in the plain program, and comes to what it came to in the
/// fleet, which sent no more messages than this.
fn accept(
    rt: &impl Abort,
    plain: &mut Plain<'_>,
    tally: &mut Tally,
    (line, event): (Line<'_>, Event),
    (came, most): (Result<Outcome, ApplyFault>, usize),
) -> Result<(), Fail> {
    if plain.sweeps(&event) {
        tally.sweep();
    }
    let outcome = happen(plain, event)?;
    assert_same_at(rt, line.text, came, Ok(outcome));
    assert_same_at(rt, line.text, outcome.sent as usize <= most, true);
    tally.accept(line.word, plain.newest_transition(), &outcome);
    Ok(())
}

/// A line that happens in both, each of which says the same of it.
fn compare<N: Node>(
    rt: &(impl AllocGlobal + Abort),
    trial: &mut Trial<'_, N>,
    tally: &mut Tally,
    line: Line<'_>,
) -> Result<(), Fail> {
    let event = read_line(line.text.as_bytes())?;
    let refused = refusal(&trial.plain, &event);
    let most = trial.fleet.most_sent(&event);
    assert_same_at(rt, line.text, trial.fleet.refusal(&event), refused);
    let came = apply(rt.alloc(), trial, tally, &event)?;
    match refused {
        Some(fault) => {
            assert_same_at(rt, line.text, came, Err(fault));
            tally.refuse(fault);
            Ok(())
        }
        None => accept(rt, &mut trial.plain, tally, (line, event), (came, most)),
    }
}

/// After a line of a history the fleet says what the plain program says.
fn assert_same<N: Node>(rt: &impl Abort, trial: &Trial<'_, N>, number: u64, line: &str) {
    assert!(rt;
        is_as(&trial.fleet, &trial.plain),
        "history {number}: {line}"
    );
    assert!(rt;
        finds_as(&trial.fleet, &trial.plain),
        "history {number}: {line}"
    );
}

/// The lines of one history.
fn follow<N: Node>(
    rt: &(impl AllocGlobal + Abort),
    trial: &mut Trial<'_, N>,
    tally: &mut Tally,
    number: u64,
) -> Result<(), Fail> {
    let mut numbers = Numbers { state: number };
    for _ in 0..LINES {
        let draft = draw(&mut numbers, &trial.plain);
        let text = line_of(rt.alloc(), &mut numbers, &trial.plain, draft)?;
        let line = Line {
            word: draft.word,
            text: text.as_str(),
        };
        compare(rt, trial, tally, line)?;
        assert_same(rt, trial, number, text.as_str());
    }
    Ok(())
}

/// One history over a network.
fn run_history<N: Node>(
    rt: &(impl AllocGlobal + Abort),
    planned: (&Topology, &[Plan]),
    net: &Net<'_>,
    kind: NodeKind,
    tally: &mut Tally,
    number: u64,
) -> Result<(), Fail>
    requires some { 1 ≤ length planned.1.now }
    requires count { length planned.1.now < 2 ^ 32 }
    requires sound { AreSound (network planned.0.now) planned.1.now }
{
    let fleet = Fleet::<N>::new(rt.alloc(), planned.0, planned.1)?;
    let mut trial = Trial {
        fleet,
        plain: Plain::of_kind(rt.alloc(), net, kind),
        is_quick: false,
    };
    let followed = follow(rt, &mut trial, tally, number);
    drop(trial);
    followed
}

/// Some histories over a network.
fn run_histories<N: Node>(
    rt: &(impl AllocGlobal + Abort),
    topo: &Topology,
    plans: &[Plan],
    kind: NodeKind,
    tally: &mut Tally,
) -> Result<(), Fail>
    requires some { 1 ≤ length plans.now }
    requires count { length plans.now < 2 ^ 32 }
    requires sound { AreSound (network topo.now) plans.now }
{
    let net = Net::of(rt.alloc(), topo, plans)?;
    for number in 0..HISTORIES {
        run_history::<N>(rt, (topo, plans), &net, kind, tally, number)?;
    }
    Ok(())
}

/// Some histories over a network with the plans of some texts.
fn run_planned<N: Node>(
    rt: &(impl AllocGlobal + Abort),
    topo: &Topology,
    texts: &[&str],
    kind: NodeKind,
    tally: &mut Tally,
) -> Result<(), Fail> {
    let plans = plans_of(rt.alloc(), topo, texts)?;
    let ran = run_histories::<N>(rt, topo, plans.as_slice(), kind, tally);
    drop(plans);
    ran
}

/// The network of a text. It promises nothing, so that no proof looks into the text.
fn network_of(alloc: Global, text: &str) -> Result<Topology, Fail> {
    Ok(read_topology(alloc, text.as_bytes())?)
}

/// Some histories over an example.
fn run_example<N: Node>(
    rt: &(impl AllocGlobal + Abort),
    example: &Example,
    kind: NodeKind,
    tally: &mut Tally,
) -> Result<(), Fail> {
    let topo = network_of(rt.alloc(), example.topology)?;
    let ran = run_planned::<N>(rt, &topo, example.plans, kind, tally);
    drop(topo);
    ran
}

/// Some histories over each example, with what came in them.
fn run_examples<N: Node>(rt: &(impl AllocGlobal + Abort), kind: NodeKind) -> Result<Tally, Fail> {
    let mut tally = Tally::new();
    for example in [PAIR, TRIANGLE, SQUARE, FABRIC] {
        run_example::<N>(rt, &example, kind, &mut tally)?;
    }
    Ok(tally)
}

#[test]
fn a_fleet_does_as_a_plain_program_that_keeps_all_events(rt: HostRuntime) -> Result<(), Fail> {
    let tally = run_examples::<Device>(&rt, NodeKind::Device)?;
    assert!(rt; tally.is_ample(), "{tally:?}");
    Ok(())
}

/// What is promised of fleets of exact nodes is promised of these.
fn wrapped_devices_keep_chronicle()
    ensures { NodesKeepChronicle ⟦<Wrapped<Device> as Node>⟧ }
{
    keeps_chronicle::<Wrapped<Device>>();
}

#[test]
fn a_fleet_of_wrapped_devices_does_as_the_plain_program(rt: HostRuntime) -> Result<(), Fail> {
    wrapped_devices_keep_chronicle();
    let tally = run_examples::<Wrapped<Device>>(&rt, NodeKind::Device)?;
    assert!(rt; tally.is_ample(), "{tally:?}");
    Ok(())
}

#[test]
fn a_fleet_of_nodes_that_seal_themselves_at_a_message_does_as_the_plain_program(
    rt: HostRuntime,
) -> Result<(), Fail> {
    let tally = run_examples::<SelfSealing>(&rt, NodeKind::SelfSealing)?;
    assert!(rt; tally.has_sealed_itself(), "{tally:?}");
    Ok(())
}

#[test]
fn a_fleet_of_nodes_that_fall_back_at_a_message_does_as_the_plain_program(
    rt: HostRuntime,
) -> Result<(), Fail> {
    let tally = run_examples::<FallingBack>(&rt, NodeKind::FallingBack)?;
    assert!(rt; tally.has_fallen_back(), "{tally:?}");
    Ok(())
}
