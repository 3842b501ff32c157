//! The domains of a network, and what lies in one of them.
ghost use Rattle.std.specs.Prelude.{◌<◌, length};
ghost use Rattle.sd_plan.specs.topo.Topologies.{network};
ghost use Rattle.sd_plan.specs.domain.Failing.{HasRoomFor};
ghost use Rattle.sd_plan.specs.domain.Lone.{IsDomain};

use crate::same::assert_same;
use sd_plan::domain::DomainId::{self, Device, Link, Listed};
use sd_plan::domain::{Failure, holds_device, holds_link, within_one};
use sd_plan::topo::{Thing, Topology};
use sd_topotext::read_topology;
use std::alloc::Global;
use std::process::Abort;
use std::test::Fail;

/// Three devices, two links, and two listed domains: a, b and ab; b and bc.
const TEXT: &str = r#"
    version = 1
    ppm = 200
    grain = 1000
    period = 100
    tick = 50
    loss = 1
    depth = 3
    roots = ["a"]
    device = [{ name = "a" }, { name = "b" }, { name = "c" }]
    link = [
        { name = "ab", ends = ["a", "b"], min = 1, max = 2 },
        { name = "bc", ends = ["b", "c"], min = 1, max = 2 },
    ]
    domain = [
        { name = "one", devices = ["b", "a"], links = ["ab"] },
        { name = "two", devices = ["b"], links = ["bc"] },
    ]
"#;

/// A device fails, if it was not there already. No more is promised than the room.
fn fail_device(topo: &Topology, failed: &mut Failure, d: u32)
    requires room { HasRoomFor (network topo.now) failed.old }
    requires device { d < length (network topo.now).devices }
    ensures { HasRoomFor (network topo.now) failed.new }
{
    failed.add(Thing::Device(d));
}

/// A link fails, in the same way.
fn fail_link(topo: &Topology, failed: &mut Failure, l: u32)
    requires room { HasRoomFor (network topo.now) failed.old }
    requires link { l < length (network topo.now).links }
    ensures { HasRoomFor (network topo.now) failed.new }
{
    failed.add(Thing::Link(l));
}

/// Nothing has failed any longer.
fn mend_all(topo: &Topology, failed: &mut Failure)
    requires { HasRoomFor (network topo.now) failed.old }
    ensures { HasRoomFor (network topo.now) failed.new }
{
    failed.clear();
}

/// The first domain of what has failed. It is compared, so nothing is promised.
fn first_domain(topo: &Topology, failed: &Failure) -> Option<DomainId> {
    within_one(topo, failed)
}

/// Device 0 and link 1 have failed, device 2 and link 0 have not.
fn assert_failed(rt: &impl Abort, failed: &Failure) {
    assert_same(
        rt,
        (failed.contains_device(0), failed.contains_device(2)),
        (true, false),
    );
    assert_same(
        rt,
        (failed.contains_link(1), failed.contains_link(0)),
        (true, false),
    );
}

/// Things of the network fail one after another, and are mended.
fn assert_first_domains(rt: &impl Abort, topo: &Topology, failed: &mut Failure)
    requires room { HasRoomFor (network topo.now) failed.old }
    requires devices { 2 < length (network topo.now).devices }
    requires links { 1 < length (network topo.now).links }
{
    assert_same(rt, first_domain(topo, failed), Some(Listed(0)));
    fail_device(topo, failed, 1);
    assert_same(rt, first_domain(topo, failed), Some(Listed(0)));
    fail_link(topo, failed, 1);
    assert_same(rt, first_domain(topo, failed), Some(Listed(1)));
    fail_device(topo, failed, 0);
    assert_same(rt, first_domain(topo, failed), None);
    assert_failed(rt, failed);
    mend_all(topo, failed);
    fail_device(topo, failed, 2);
    fail_device(topo, failed, 2);
    assert_same(rt, first_domain(topo, failed), Some(Device(2)));
}

/// The same, where the room for what fails is made.
fn assert_domains(rt: &(impl AllocGlobal + Abort), topo: &Topology) -> Result<(), Fail> {
    assert!(rt; topo.devices() == 3 && topo.links() == 2);
    let mut failed = Failure::new(rt.alloc(), topo)?;
    assert_first_domains(rt, topo, &mut failed);
    Ok(())
}

/// The network. It promises nothing, so that no proof looks into the text.
fn network_read(alloc: Global) -> Result<Topology, Fail> {
    Ok(read_topology(alloc, TEXT.as_bytes())?)
}

#[test]
fn things_lie_in_their_first_domain(rt: HostRuntime) -> Result<(), Fail> {
    let topo = network_read(rt.alloc())?;
    let asserted = assert_domains(&rt, &topo);
    drop(topo);
    asserted
}

/// Which of devices 0 to 2 lie in a domain. It is compared, so nothing is promised.
fn devices_in(topo: &Topology, domain: DomainId) -> [bool; 3]
    requires { IsDomain (network topo.now) domain }
{
    [
        holds_device(topo, domain, 0),
        holds_device(topo, domain, 1),
        holds_device(topo, domain, 2),
    ]
}

/// Which of links 0 and 1 do.
fn links_in(topo: &Topology, domain: DomainId) -> [bool; 2]
    requires { IsDomain (network topo.now) domain }
{
    [holds_link(topo, domain, 0), holds_link(topo, domain, 1)]
}

/// A domain has just these devices and links.
fn assert_held(
    rt: &impl Abort,
    topo: &Topology,
    domain: DomainId,
    devices: [bool; 3],
    links: [bool; 2],
)
    requires { IsDomain (network topo.now) domain }
{
    assert_same(rt, devices_in(topo, domain), devices);
    assert_same(rt, links_in(topo, domain), links);
}

/// Each domain that was asked has just its things.
fn assert_all_held(rt: &impl Abort, topo: &Topology) {
    assert!(rt; topo.devices() == 3 && topo.links() == 2 && topo.domains() == 2);
    assert_held(rt, topo, Listed(0), [true, true, false], [true, false]);
    assert_held(rt, topo, Listed(1), [false, true, false], [false, true]);
    assert_held(rt, topo, Device(2), [false, false, true], [false, false]);
    assert_held(rt, topo, Device(1), [false, true, false], [false, false]);
    assert_held(rt, topo, Link(1), [false, false, false], [false, true]);
}

#[test]
fn domains_hold_their_things(rt: HostRuntime) -> Result<(), Fail> {
    let topo = network_read(rt.alloc())?;
    assert_all_held(&rt, &topo);
    drop(topo);
    Ok(())
}
