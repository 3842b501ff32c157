//! Each monitor at its bound and just past it.
ghost use Rattle.std.specs.Prelude.{◌≡◌, ◌<◌, ◌^◌, Some, length};
ghost use Rattle.sd_sched.specs.Events.{device_of};
ghost use Rattle.sd_plan.specs.topo.Topologies.{network};

use sd_device::msg::{Flight, Message, Stamp};
use sd_monitors::clocks::{
    DelayMonitor, DriftMonitor, PresentRows, Seen, StartMonitor, TickMonitor,
};
use sd_plan::topo::Topology;
use sd_sched::Event;
use sd_test_examples::{TRIANGLE, topology_of};
use sd_world::world::World;
use std::process::Abort;
use std::test::Fail;

/// What is seen of an event that receives and sends nothing.
fn seen(event: Event) -> Seen<'static>
    ensures { result.event ≡ event }
{
    Seen {
        event,
        taken: None,
        sent: &[],
        activated: None,
        acted: false,
        closed: false,
    }
}

/// Whether the premise on starts holds of a clock that is set, and of what comes then.
fn stays_true(reference: u64, clock: u64, eps: u64) -> (bool, bool) {
    let mut monitor = StartMonitor::new();
    let set = Event::Fix {
        reference,
        device: 0,
        counter: 0,
        clock,
        eps,
    };
    let holds = monitor.observe(&seen(set));
    (holds, monitor.observe(&seen(Event::End { reference })))
}

#[test]
fn clocks_set_within_their_uncertainty(rt: HostRuntime) -> Result<(), Fail> {
    assert_eq!(rt; stays_true(1000, 1500, 500), (true, true));
    assert_eq!(rt; stays_true(1000, 500, 500), (true, true));
    assert_eq!(rt; stays_true(1000, 1501, 500), (false, false));
    assert_eq!(rt; stays_true(1000, 499, 500), (false, false));
    Ok(())
}

/// What device 0 does; its counter is 0 when it starts or joins.
#[derive(Clone, Copy)]
enum Transition {
    Start,
    Join,
    /// It reads its counter.
    Read(u64),
}

/// What device 0 does at a reference, as an event.
fn event_of(transition: Transition, reference: u64) -> Event
    ensures { device_of result ≡ Some 0 }
{
    let (device, clock) = (0, reference);
    match transition {
        Transition::Start => Event::Start {
            reference,
            device,
            counter: 0,
            clock,
            eps: 0,
        },
        Transition::Join => Event::Join {
            reference,
            device,
            counter: 0,
            clock,
            eps: 0,
        },
        Transition::Read(counter) => Event::Ask {
            reference,
            device,
            counter,
        },
    }
}

/// Whether the premise on drift holds still when device 0 does this.
fn does(monitor: &mut DriftMonitor, transition: Transition, reference: u64) -> bool
    requires { 0 < length monitor.old.lives }
    ensures { length monitor.new.lives ≡ length monitor.old.lives }
{
    let seen = seen(event_of(transition, reference));
    monitor.observe(&seen)
}

/// A reference, what device 0 does then, and whether the premise on drift holds.
type Moment = (u64, Transition, bool);

fn assert_moments_of(
    rt: &impl Abort,
    monitor: &mut DriftMonitor,
    topo: &Topology,
    moments: &[Moment],
)
    requires { length monitor.old.lives ≡ length (network topo.now).devices }
{
    assert!(rt; topo.devices() == 3);
    for moment in moments {
        let (reference, transition, holds) = *moment;
        let held = does(monitor, transition, reference);
        assert_eq!(rt; held, holds, "{reference}");
    }
}

/// The monitor sees these moments of the triangle, one after another.
fn assert_moments(rt: &(impl Abort + AllocGlobal), moments: &[Moment]) -> Result<(), Fail> {
    let topo = topology_of(rt.alloc(), TRIANGLE)?;
    let mut monitor = DriftMonitor::new(rt.alloc(), &topo)?;
    assert_moments_of(rt, &mut monitor, &topo, moments);
    Ok(())
}

#[test]
fn drift_at_the_bound(rt: HostRuntime) -> Result<(), Fail> {
    for (reference, holds) in [
        (50_011_000, true),
        (50_011_001, false),
        (49_989_000, true),
        (49_988_999, false),
    ] {
        let reading = (reference, Transition::Read(50_000_000), holds);
        assert_moments(&rt, &[(0, Transition::Start, true), reading])?;
    }
    Ok(())
}

#[test]
fn drift_of_the_outer_pair(rt: HostRuntime) -> Result<(), Fail> {
    let moments = [
        (0, Transition::Start, true),
        (1_001_200, Transition::Read(1_000_000), true),
        (2_002_400, Transition::Read(2_000_000), false),
    ];
    assert_moments(&rt, &moments)
}

#[test]
fn drift_is_judged_within_one_life(rt: HostRuntime) -> Result<(), Fail> {
    let moments = [
        (0, Transition::Start, true),
        (1_001_200, Transition::Read(1_000_000), true),
        (9_000_000, Transition::Join, true),
        (10_001_200, Transition::Read(1_000_000), true),
        (11_002_400, Transition::Read(2_000_000), false),
    ];
    assert_moments(&rt, &moments)
}

/// Two devices, and a link with its own bounds for each direction.
const TWO_WAYS: &str = r#"
version = 2
ppm = 200
grain = 1000
period = 100000000
tick = 90000000
loss = 1
depth = 2
roots = ["r", "b"]
device = [{ name = "r" }, { name = "b" }]
link = [
    { name = "rb", ends = ["r", "b"], min = 400000, max = 1000000, back_min = 7000, back_max = 9000 },
]
"#;

/// A message over link 0 to a receiver, which was sent at reference 1000.
fn flight(receiver: u32) -> Flight
    ensures { result.link ≡ 0 }
{
    Flight {
        number: 1,
        link: 0,
        sender: 0,
        receiver,
        sent_at: 1000,
        due: 0,
        last: 0,
        reaches: true,
        message: Message {
            epoch: 1,
            stamp: Stamp { term: 0, round: 1 },
            clock: 0,
            eps: 0,
        },
    }
}

/// Whether the premise on delays holds of that message, received at the reference.
fn comes_in_time(topo: &Topology, receiver: u32, reference: u64) -> bool
    requires { 0 < length (network topo.now).links }
{
    let mut monitor = DelayMonitor::new();
    let flight = flight(receiver);
    let seen = Seen {
        event: Event::Recv {
            reference,
            device: receiver,
            counter: reference,
            message: 1,
        },
        taken: Some(flight),
        sent: &[],
        activated: None,
        acted: false,
        closed: false,
    };
    monitor.observe(topo, &seen)
}

/// Messages from the first end to the second.
fn assert_forwards(rt: &impl Abort, topo: &Topology) {
    assert!(rt; topo.links() == 1);
    assert!(rt; comes_in_time(topo, 1, 401_000));
    assert!(rt; comes_in_time(topo, 1, 1_001_000));
    assert!(rt; !comes_in_time(topo, 1, 400_999));
    assert!(rt; !comes_in_time(topo, 1, 1_001_001));
}

/// Messages from the second end to the first.
fn assert_backwards(rt: &impl Abort, topo: &Topology) {
    assert!(rt; topo.links() == 1);
    assert!(rt; comes_in_time(topo, 0, 8000));
    assert!(rt; comes_in_time(topo, 0, 10_000));
    assert!(rt; !comes_in_time(topo, 0, 7999));
    assert!(rt; !comes_in_time(topo, 0, 10_001));
}

#[test]
fn messages_at_both_bounds_of_their_direction(rt: HostRuntime) -> Result<(), Fail> {
    let topo = topology_of(rt.alloc(), TWO_WAYS)?;
    assert_forwards(&rt, &topo);
    assert_backwards(&rt, &topo);
    Ok(())
}

/// The world sees that time goes on.
fn pass(world: &mut World, reference: u64)
    requires { world.old.events < 2 ^ 63 }
    ensures { length world.new.devices ≡ length world.old.devices }
{
    world.observe(&Event::End { reference });
}

/// Whether the premise on ticks holds when the monitor sees it too.
fn waits(monitor: &mut TickMonitor, members: &PresentRows, world: &World, reference: u64) -> bool
    requires { length world.now.devices ≡ length monitor.old.owed }
    ensures { length monitor.new.owed ≡ length monitor.old.owed }
{
    let seen = seen(Event::End { reference });
    monitor.observe(members, world, &seen)
}

/// Both see a moment, at which the premise on ticks holds or not.
fn assert_waits(
    rt: &impl Abort,
    monitor: &mut TickMonitor,
    members: &PresentRows,
    world: &mut World,
    due: (u64, bool),
)
    requires { length world.old.devices ≡ length monitor.old.owed }
    ensures { length world.new.devices ≡ length monitor.new.owed }
{
    let (reference, holds) = due;
    assert!(rt; world.events() < 100);
    pass(world, reference);
    assert_eq!(rt;
        waits(monitor, members, world, reference),
        holds,
        "{reference}"
    );
}

/// No member starts, and all are late then.
fn assert_late(rt: &impl Abort, monitor: &mut TickMonitor, members: &PresentRows, world: &mut World)
    requires { length world.old.devices ≡ length monitor.old.owed }
{
    assert_waits(rt, monitor, members, world, (5, true));
    assert_waits(rt, monitor, members, world, (90_000_005, true));
    assert_waits(rt, monitor, members, world, (90_000_006, false));
}

fn assert_late_in(rt: &(impl Abort + AllocGlobal), topo: &Topology) -> Result<(), Fail> {
    let members = PresentRows::of_devices(rt.alloc(), topo, &[])?;
    let mut world = World::new(rt.alloc(), topo.devices(), topo.links())?;
    let mut monitor = TickMonitor::new(rt.alloc(), topo, &members)?;
    assert_late(rt, &mut monitor, &members, &mut world);
    Ok(())
}

#[test]
fn members_that_never_start_are_late(rt: HostRuntime) -> Result<(), Fail> {
    let topo = topology_of(rt.alloc(), TRIANGLE)?;
    assert_late_in(&rt, &topo)
}
