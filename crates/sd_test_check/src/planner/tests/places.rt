//! Placing over topologies that are read.
ghost use Rattle.std.specs.Prelude.{IfOk};
ghost use Rattle.sd_plan.specs.topo.Topologies.{network};
ghost use Rattle.sd_planner.specs.Absences.{IsAbsentOf};

use sd_plan::topo::Topology;
use sd_plan::{Absent, DeviceList};
use sd_planner::{Neighbour, Placed, Present, backup_root_of, place};
use sd_test_examples::{FABRIC, topology_of};
use std::alloc::Global;
use std::process::Abort;
use std::test::Fail;

/// r, b, w, x, u (0 to 4), y and z of the backup side (5, 6), and far and off (7, 8), which no link
/// joins to the others.
const SIDES: &str =
    "version = 2\nppm = 200\ngrain = 1000\nperiod = 100000000\ntick = 10000000\nloss = 1\ndepth = 8\nroots = [\"r\", \"b\"]\n[[device]]\nname = \"r\"\nside = \"root\"\n[[device]]\nname = \"b\"\nside = \"root\"\n[[device]]\nname = \"w\"\nside = \"root\"\n[[device]]\nname = \"x\"\nside = \"root\"\n[[device]]\nname = \"u\"\nside = \"root\"\n[[device]]\nname = \"y\"\nside = \"backup\"\n[[device]]\nname = \"z\"\nside = \"backup\"\n[[device]]\nname = \"far\"\nside = \"root\"\n[[device]]\nname = \"off\"\nside = \"root\"\n[[link]]\nname = \"rx\"\nends = [\"r\", \"x\"]\nmin = 400000\nmax = 1000000\n[[link]]\nname = \"xw\"\nends = [\"x\", \"w\"]\nmin = 400000\nmax = 1000000\n[[link]]\nname = \"wb\"\nends = [\"w\", \"b\"]\nmin = 400000\nmax = 1000000\n[[link]]\nname = \"xb\"\nends = [\"x\", \"b\"]\nmin = 400000\nmax = 1000000\n[[link]]\nname = \"zu\"\nends = [\"z\", \"u\"]\nmin = 400000\nmax = 1000000\n[[link]]\nname = \"yu\"\nends = [\"y\", \"u\"]\nmin = 400000\nmax = 1000000\n[[link]]\nname = \"by\"\nends = [\"b\", \"y\"]\nmin = 400000\nmax = 1000000\n[[link]]\nname = \"by2\"\nends = [\"y\", \"b\"]\nmin = 400000\nmax = 1000000\n[[link]]\nname = \"yz\"\nends = [\"y\", \"z\"]\nmin = 400000\nmax = 1000000\n[[link]]\nname = \"ry\"\nends = [\"r\", \"y\"]\nmin = 400000\nmax = 1000000\n[[link]]\nname = \"pair\"\nends = [\"far\", \"off\"]\nmin = 400000\nmax = 1000000\n";

/// Nothing is absent.
pub(super) fn all_there(alloc: Global, topo: &Topology) -> Absent
    ensures { IsAbsentOf (network topo.now) result }
{
    let _ = topo.devices();
    Absent {
        devices: DeviceList::new(alloc),
        links: DeviceList::new(alloc),
    }
}

/// One device is absent.
fn all_but(rt: &(impl Abort + AllocGlobal), topo: &Topology, d: u32) -> Result<Absent, Fail>
    ensures { IfOk result (IsAbsentOf (network topo.now)) }
{
    assert!(rt; d < topo.devices());
    let mut devices = DeviceList::new(rt.alloc());
    devices.push(rt.alloc(), d)?;
    Ok(Absent {
        devices,
        links: DeviceList::new(rt.alloc()),
    })
}

/// The placed devices in their order, each as `DEVICE/DEPTH<PARENT:LINK`.
fn shown(alloc: Global, order: &[Placed]) -> Result<String, Fail> {
    let mut text = String::new(alloc);
    for placed in order {
        let (device, depth) = (placed.device, placed.depth);
        text.push_str(format!(in alloc; " {device}/{depth}")?.as_str())?;
        if let Some(hop) = placed.hop {
            let (parent, link) = (hop.parent, hop.link);
            text.push_str(format!(in alloc; "<{parent}:{link}")?.as_str())?;
        }
    }
    Ok(text)
}

/// The order from a root, shown.
fn order_of(rt: &(impl Abort + AllocGlobal), present: &Present, root: u32) -> Result<String, Fail> {
    assert!(rt; root < present.topo.devices());
    let placement = place(rt.alloc(), present, root)?;
    shown(rt.alloc(), placement.order())
}

/// A neighbour.
fn over(device: u32, link: u32) -> Neighbour {
    Neighbour { device, link }
}

fn assert_fabric(rt: &(impl Abort + AllocGlobal), present: &Present) -> Result<(), Fail> {
    assert_eq!(rt; backup_root_of(present, 0), 1);
    let order = order_of(rt, present, 0)?;
    assert_eq!(rt; order.as_str(), " 0/0 2/1<0:0 3/1<0:1 4/1<0:2 1/2<2:3");
    Ok(())
}

#[test]
fn the_fabric(rt: HostRuntime) -> Result<(), Fail> {
    let topo = topology_of(rt.alloc(), FABRIC)?;
    let absent = all_there(rt.alloc(), &topo);
    let present = Present::new(rt.alloc(), &topo, &absent)?;
    assert_fabric(&rt, &present)
}

fn assert_sides(rt: &(impl Abort + AllocGlobal), present: &Present) -> Result<(), Fail> {
    assert!(rt; present.topo.devices() == 9);
    assert!(rt; present.takes_part(1));
    let of_b = [over(2, 2), over(3, 3), over(5, 6), over(5, 7)];
    assert_eq!(rt; present.neighbours_of(1), of_b.as_slice());
    let order = order_of(rt, present, 0)?;
    assert_eq!(rt;
        order.as_str(),
        " 0/0 3/1<0:0 2/2<3:1 1/2<3:3 5/3<1:6 6/4<5:8 4/4<5:5"
    );
    Ok(())
}

#[test]
fn both_sides_and_what_is_left(rt: HostRuntime) -> Result<(), Fail> {
    let topo = topology_of(rt.alloc(), SIDES)?;
    let absent = all_there(rt.alloc(), &topo);
    let present = Present::new(rt.alloc(), &topo, &absent)?;
    assert_sides(&rt, &present)
}

/// The backup root and the order where one device is absent.
fn assert_without(
    rt: &(impl Abort + AllocGlobal),
    topo: &Topology,
    absent: u32,
    due: (u32, &str),
) -> Result<(), Fail> {
    let (backup_root, wanted) = due;
    let absent = all_but(rt, topo, absent)?;
    let present = Present::new(rt.alloc(), topo, &absent)?;
    assert_eq!(rt; backup_root_of(&present, 0), backup_root);
    let order = order_of(rt, &present, 0)?;
    assert_eq!(rt; order.as_str(), wanted);
    Ok(())
}

#[test]
fn what_is_absent(rt: HostRuntime) -> Result<(), Fail> {
    let topo = topology_of(rt.alloc(), SIDES)?;
    assert_without(&rt, &topo, 0, (1, ""))?;
    let without_backup_root = " 0/0 3/1<0:0 2/2<3:1 5/1<0:9 4/2<5:5 6/2<5:8";
    assert_without(&rt, &topo, 1, (0, without_backup_root))
}
