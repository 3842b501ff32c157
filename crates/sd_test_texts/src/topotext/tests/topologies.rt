//! A topology that is read, and faults in words.
use crate::same::assert_same;
use sd_plan::topo::{Side, Topology};
use sd_topotext::{Key, Kind, Place, TopoFault, read_topology};
use std::alloc::{AllocError, Global};
use std::process::Abort;
use std::test::Fail;

/// The numbers of a triangle.
const TOP_TWO: &str =
    "version = 2\nppm = 200\ngrain = 1000\nperiod = 100000000\ntick = 90000000\nloss = 1\ndepth = 2\n";

const ROOTS: &str = "roots = [\"r\", \"b\"]\n";

const R: &str = "[[device]]\nname = \"r\"\n";

const B: &str = "[[device]]\nname = \"b\"\n";

const X: &str = "[[device]]\nname = \"x\"\n";

const RB: &str = "[[link]]\nname = \"rb\"\nends = [\"r\", \"b\"]\nmin = 400000\nmax = 1000000\n";

const BX: &str = "[[link]]\nname = \"bx\"\nends = [\"b\", \"x\"]\nmin = 400000\nmax = 1000000\n";

/// The pieces one after another. It promises nothing, so that no proof looks into the text.
fn joined(alloc: Global, pieces: &[&str]) -> Result<String, AllocError> {
    pieces.concat(alloc)
}

/// A fault in words. It promises nothing, so that no proof looks into the text.
fn said(alloc: Global, fault: &TopoFault) -> Result<String, AllocError> {
    format!(in alloc; "{fault}")
}

/// A fault is said so.
fn assert_said(rt: &(impl Abort + AllocGlobal), fault: &TopoFault, want: &str) -> Result<(), Fail> {
    let said = said(rt.alloc(), fault)?;
    assert_same(rt, said.as_str(), want);
    Ok(())
}

#[test]
fn faults(rt: HostRuntime) -> Result<(), Fail> {
    let name = Place {
        key: Key::DeviceName,
        entry: 1,
    };
    assert_said(&rt, &TopoFault::NotToml, "the text is no TOML")?;
    assert_said(&rt, &TopoFault::Missing(name), "missing: device.name 1")?;
    assert_said(
        &rt,
        &TopoFault::WrongKind(name),
        "of the wrong kind: device.name 1",
    )?;
    assert_said(&rt, &TopoFault::Range(name), "out of range: device.name 1")?;
    assert_said(
        &rt,
        &TopoFault::TwiceNamed(name),
        "named twice: device.name 1",
    )?;
    let ends = Place {
        key: Key::LinkEnds,
        entry: 2,
    };
    assert_said(
        &rt,
        &TopoFault::UnknownName(ends),
        "unknown name: link.ends 2",
    )?;
    assert_said(
        &rt,
        &TopoFault::SelfLink(ends),
        "a link to itself: link.ends 2",
    )?;
    assert_said(&rt, &TopoFault::Limit(Kind::Device), "too many: device")
}

/// The text of a triangle of version 2 with an own oscillator, an own way back and a domain.
fn triangle_text(alloc: Global) -> Result<String, AllocError> {
    let own = "ppm = 100\ngrain = 1500\nside = \"backup\"\n";
    let back = "back_min = 300000\nback_max = 600000\n";
    let domain = "[[domain]]\nname = \"tray\"\ndevices = [\"x\", \"b\"]\nlinks = [\"bx\"]\n";
    joined(alloc, &[TOP_TWO, ROOTS, R, B, X, own, RB, BX, back, domain])
}

/// The triangle of that text.
fn triangle(alloc: Global) -> Result<Topology, Fail> {
    let text = triangle_text(alloc)?;
    Ok(read_topology(alloc, text.as_bytes())?)
}

/// A copy of the triangle.
fn copied(alloc: Global) -> Result<Topology, Fail> {
    let topo = triangle(alloc)?;
    let copy = topo.copy(alloc);
    drop(topo);
    Ok(copy?)
}

fn assert_params(rt: &impl Abort, topo: &Topology) {
    assert_same(rt, (topo.version(), topo.params().tick), (2, 90_000_000));
    assert_same(rt, topo.roots(), [0, 1].as_slice());
}

fn assert_devices(rt: &impl Abort, topo: &Topology) {
    assert!(rt; topo.devices() == 3);
    assert_same(
        rt,
        (topo.device_name(2), topo.number_of("x")),
        ("x", Some(2)),
    );
    assert_same(rt, (topo.side(2), topo.rates(2).ppm), (Side::Backup, 100));
}

#[test]
fn devices(rt: HostRuntime) -> Result<(), Fail> {
    let topo = copied(rt.alloc())?;
    assert_params(&rt, &topo);
    assert_devices(&rt, &topo);
    drop(topo);
    Ok(())
}

fn assert_links(rt: &impl Abort, topo: &Topology) {
    assert!(rt; topo.links() == 2);
    assert_same(rt, topo.greatest_delay(), 1_000_000);
    assert_same(
        rt,
        (topo.link_name(1), topo.link_number("bx")),
        ("bx", Some(1)),
    );
    assert!(rt; topo.link(1).end_a == 1);
    assert_same(
        rt,
        (topo.delay(1, 1).max, topo.bounds(1, 1).mid),
        (600_000, 450_000),
    );
}

#[test]
fn links(rt: HostRuntime) -> Result<(), Fail> {
    let topo = copied(rt.alloc())?;
    assert_links(&rt, &topo);
    drop(topo);
    Ok(())
}

fn assert_domains(rt: &impl Abort, topo: &Topology) {
    assert!(rt; topo.domains() == 1);
    assert_same(rt, topo.domain_name(0), "tray");
    assert_same(rt, topo.domain_devices(0), [1, 2].as_slice());
    assert_same(rt, topo.domain_links(0), [1].as_slice());
}

#[test]
fn domains(rt: HostRuntime) -> Result<(), Fail> {
    let topo = copied(rt.alloc())?;
    assert_domains(&rt, &topo);
    drop(topo);
    Ok(())
}

#[test]
fn words(rt: HostRuntime) {
    assert_same(&rt, Key::LinkBackMin.word(), "link.back_min");
    assert_same(&rt, Key::Ppm.word(), "ppm");
    assert_same(&rt, Kind::Item.word(), "item");
}
