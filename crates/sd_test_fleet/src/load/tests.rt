//! Rounds of a fleet of 4096 devices: in each of them all devices tick, and then all messages are
//! received in the order in which they were sent.

mod load;
mod network;

use load::Load;
use network::{plan_text, topology_text};
use sd_device::Device;
use sd_fleet::Fleet;
use sd_plan::topo::Topology;
use sd_test_fleet_kit::examples::fleet_over;
use sd_topotext::read_topology;
use std::alloc::Global;
use std::process::Abort;
use std::test::Fail;

/// A round is this many events: a tick of each device, and a receipt of each message. The root and
/// the backup root send to all leaves, and the first two leaves to the other spines.
const ROUND: u64 = 4096 + 2 * 4088 + 2 * 7;

/// The network.
fn read_network(alloc: Global) -> Result<Topology, Fail> {
    let text = topology_text(alloc)?;
    Ok(read_topology(alloc, text.as_bytes())?)
}

/// A fleet before any event. It promises nothing, so that no proof looks into its plan.
fn new_fleet(alloc: Global) -> Result<Fleet<Device>, Fail> {
    let plan = plan_text(alloc)?;
    let topo = read_network(alloc)?;
    let fleet = fleet_over(alloc, &topo, &[plan.as_str()]);
    drop(topo);
    Ok(fleet?)
}

/// All devices start, and then some rounds follow, of which each is as long as it ought to be.
fn drive(
    rt: &(impl AllocGlobal + Abort),
    fleet: &mut Fleet<Device>,
    rounds: u32,
) -> Result<(), Fail> {
    let mut load = Load::new(fleet);
    load.start_all(rt.alloc())?;
    for round in 1..=rounds {
        let before = load.events;
        load.tick_all(rt.alloc(), round)?;
        load.receive_all(rt.alloc())?;
        assert_eq!(rt; load.events.saturating_sub(before), ROUND);
    }
    Ok(())
}

/// This many rounds of a new fleet.
fn run(rt: &(impl AllocGlobal + Abort), rounds: u32) -> Result<(), Fail> {
    let mut fleet = new_fleet(rt.alloc())?;
    let driven = drive(rt, &mut fleet, rounds);
    drop(fleet);
    driven
}

/// What is made before any event, so that the time of the events alone can be told.
#[test]
fn all_devices_start(rt: HostRuntime) -> Result<(), Fail> {
    run(&rt, 0)
}

/// Some million events.
#[test]
fn eighty_rounds(rt: HostRuntime) -> Result<(), Fail> {
    run(&rt, 80)
}

/// Some ten million events.
#[test]
fn eight_hundred_rounds(rt: HostRuntime) -> Result<(), Fail> {
    run(&rt, 800)
}
