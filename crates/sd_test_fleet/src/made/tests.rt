//! The network of a case beside the text of it, and the schedule of `case 2 3 3`. The program prints
//! how many events and reports this has, which are counted here of its list.
ghost use Rattle.std.specs.Prelude.{◌≤◌, ◌<◌, ◌^◌, length};
ghost use Rattle.sd_gen.specs.Listed.{AreWithin};
ghost use Rattle.sd_plan.specs.topo.Topologies.{network};
ghost use Rattle.sd_world.specs.membership.Plans.{AreSound};

use sd_device::Device;
use sd_fleet::Fleet;
use sd_gen::{fabric_text, fabric_topology, make_schedule};
use sd_plan::Plan;
use sd_plan::topo::Topology;
use sd_sched::Event;
use sd_test_fleet_kit::examples::plans_of;
use sd_topotext::{read_topology, topology_text};
use std::alloc::Global;
use std::process::Abort;
use std::test::Fail;

/// The greedy plans over three leaves and three spines: from s0, and from s1 without s0.
const PLANS: [&str; 2] = [
    r#"{"version":1,"root":"s0","backup_root":"s1","wait_first":1112349470,"wait_second":1112349470,"wait":5562637408,"absent_devices":[],"absent_links":[],"rows":[{"device":"s1","parent":"l0","link":"k0-1","backup":"l1","backup_link":"k1-1"},{"device":"s2","parent":"l0","link":"k0-2","backup":"l1","backup_link":"k1-2"},{"device":"l0","parent":"s0","link":"k0-0","backup":"s1","backup_link":"k0-1"},{"device":"l1","parent":"s0","link":"k1-0","backup":"s1","backup_link":"k1-1"},{"device":"l2","parent":"s0","link":"k2-0","backup":"s1","backup_link":"k2-1"}]}"#,
    r#"{"version":1,"root":"s1","backup_root":"s2","wait_first":1112349470,"wait_second":1112349470,"wait":5562637408,"absent_devices":["s0"],"absent_links":[],"rows":[{"device":"s2","parent":"l0","link":"k0-2","backup":"l1","backup_link":"k1-2"},{"device":"l0","parent":"s1","link":"k0-1","backup":"s2","backup_link":"k0-2"},{"device":"l1","parent":"s1","link":"k1-1","backup":"s2","backup_link":"k1-2"},{"device":"l2","parent":"s1","link":"k2-1","backup":"s2","backup_link":"k2-2"}]}"#,
];

/// There are this many events, and a fleet accepts them one by one and makes this many reports.
fn assert_accepts(
    rt: &(impl AllocGlobal + Abort),
    fleet: &mut Fleet<Device>,
    events: &[Event],
    wanted: (usize, u64),
) -> Result<(), Fail>
    requires { AreWithin events.now }
{
    let (count, reports) = wanted;
    assert_eq!(rt; events.len(), count);
    let mut made = 0u64;
    for event in events {
        let outcome = fleet.apply(rt.alloc(), event)?;
        made = made.saturating_add(u64::from(outcome.report.is_some()));
    }
    assert_eq!(rt; made, reports);
    Ok(())
}

/// The schedule is listed, and a fleet accepts it.
fn assert_followed(
    rt: &(impl AllocGlobal + Abort),
    topo: &Topology,
    plans: &[Plan],
) -> Result<(), Fail>
    requires some { 1 ≤ length plans.now }
    requires count { length plans.now < 2 ^ 32 }
    requires sound { AreSound (network topo.now) plans.now }
{
    let schedule = make_schedule(rt.alloc(), topo, plans, 2)?;
    let mut fleet = Fleet::new(rt.alloc(), topo, plans)?;
    let accepted = assert_accepts(rt, &mut fleet, schedule.as_slice(), (1521, 20));
    drop(fleet);
    accepted
}

/// The same over a network, with the greedy plans.
fn assert_planned(rt: &(impl AllocGlobal + Abort), topo: &Topology) -> Result<(), Fail> {
    let plans = plans_of(rt.alloc(), topo, &PLANS)?;
    let followed = assert_followed(rt, topo, plans.as_slice());
    drop(plans);
    followed
}

/// The network of a case. It promises nothing, so that no proof looks into its tables.
fn made(alloc: Global, leaves: u32, spines: u32) -> Result<Topology, Fail>
    requires some_leaves { 2 ≤ leaves }
    requires few_leaves { leaves ≤ 256 }
    requires some_spines { 3 ≤ spines }
    requires few_spines { spines ≤ 32 }
{
    Ok(fabric_topology(alloc, leaves, spines)?)
}

#[test]
fn a_fleet_accepts_the_schedule_that_is_listed(rt: HostRuntime) -> Result<(), Fail> {
    let topo = made(rt.alloc(), 3, 3)?;
    let followed = assert_planned(&rt, &topo);
    drop(topo);
    followed
}

/// The text of the network of a case. It promises nothing, as above.
fn text_for(alloc: Global, leaves: u32, spines: u32) -> Result<Vec<u8>, Fail>
    requires some_leaves { 2 ≤ leaves }
    requires few_leaves { leaves ≤ 256 }
    requires some_spines { 3 ≤ spines }
    requires few_spines { spines ≤ 32 }
{
    Ok(fabric_text(alloc, leaves, spines)?)
}

/// The network of a text. It promises nothing, so that no proof looks into the text.
fn read(alloc: Global, text: &[u8]) -> Result<Topology, Fail> {
    Ok(read_topology(alloc, text)?)
}

/// The text of a topology, which is let go. It promises nothing, as above.
fn printed(alloc: Global, topo: Topology) -> Result<Vec<u8>, Fail> {
    let text = topology_text(alloc, &topo);
    drop(topo);
    Ok(text?)
}

/// The network of these sizes is printed as the one that is read from its text.
fn assert_read(rt: &(impl AllocGlobal + Abort), leaves: u32, spines: u32) -> Result<(), Fail>
    requires some_leaves { 2 ≤ leaves }
    requires few_leaves { leaves ≤ 256 }
    requires some_spines { 3 ≤ spines }
    requires few_spines { spines ≤ 32 }
{
    let made_text = printed(rt.alloc(), made(rt.alloc(), leaves, spines)?)?;
    let text = text_for(rt.alloc(), leaves, spines)?;
    let read_text = printed(rt.alloc(), read(rt.alloc(), text.as_slice())?)?;
    assert_eq!(rt; made_text.as_slice(), read_text.as_slice());
    Ok(())
}

#[test]
fn the_network_is_the_one_of_its_text(rt: HostRuntime) -> Result<(), Fail> {
    assert_read(&rt, 2, 3)?;
    assert_read(&rt, 12, 5)
}
