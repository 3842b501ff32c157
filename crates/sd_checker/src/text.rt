//! How a verdict is printed.
ghost use Rattle.std.specs.Prelude.{◌≡◌, ◌++◌, ◌∷◌, [], IfOk, OnOk, string_bytes, flat_map, drop};
ghost use Rattle.sd_checker.specs.Text as text;
ghost use Rattle.sd_checker.specs.Named.{named};
ghost use Rattle.sd_checker.specs.Showing.{refused_by};
ghost use Rattle.sd_plan.specs.topo.Network as names;
ghost use Rattle.sd_plan.specs.topo.Topologies.{network};

use crate::Breach;
use crate::order::domain_count;
use sd_plan::domain::DomainId;
use sd_plan::topo::{Thing, Topology};
use std::alloc::{AllocError, Global};

/// The name of a device. A number past the last one has none.
fn device_name(topo: &Topology, d: u32) -> &str
    ensures { result.now ≡ names.device_name (network topo.now) d }
{
    if d < topo.devices() {
        topo.device_name(d)
    } else {
        ""
    }
}

/// The name of a link. A number past the last one has none.
fn link_name(topo: &Topology, l: u32) -> &str
    ensures { result.now ≡ names.link_name (network topo.now) l }
{
    if l < topo.links() {
        topo.link_name(l)
    } else {
        ""
    }
}

/// The name of a listed domain. A number past the last one has none.
fn listed_name(topo: &Topology, k: u32) -> &str
    ensures { result.now ≡ names.domain_name (network topo.now) k }
{
    if k < topo.domains() {
        topo.domain_name(k)
    } else {
        ""
    }
}

/// What a domain or thing is, and its name.
#[derive(Clone, Copy)]
struct Named<'a> {
    kind: &'static str,
    name: &'a str,
}

/// What shows how a domain breaks a condition.
#[derive(Clone, Copy)]
enum Shown<'a> {
    Thing(Thing),
    Cycle(&'a [u32]),
    Device(u32),
    Chain(&'a [u32]),
}

/// How a domain is named.
fn domain_named(topo: &Topology, domain: DomainId) -> Named<'_>
    ensures { text.domain_words (network topo.now) domain ≡ result.kind.now ∷ result.name.now ∷ [] }
{
    match domain {
        DomainId::Listed(k) => Named {
            kind: "listed",
            name: listed_name(topo, k),
        },
        DomainId::Device(d) => Named {
            kind: "device",
            name: device_name(topo, d),
        },
        DomainId::Link(l) => Named {
            kind: "link",
            name: link_name(topo, l),
        },
    }
}

/// How a device or link is named.
fn thing_named(topo: &Topology, thing: Thing) -> Named<'_>
    ensures { text.thing_words (network topo.now) thing ≡ result.kind.now ∷ result.name.now ∷ [] }
{
    match thing {
        Thing::Device(d) => Named {
            kind: "device",
            name: device_name(topo, d),
        },
        Thing::Link(l) => Named {
            kind: "link",
            name: link_name(topo, l),
        },
    }
}

/// Adds the names of devices to a line, each after a space.
fn add_names(line: &mut String, topo: &Topology, devices: &[u32]) -> Result<(), AllocError>
    ensures { OnOk result (string_bytes line.new ≡ string_bytes line.old
        ++ named (network topo.now) devices.now) }
{
    for d in devices {
        line.push(' ')?;
        line.push_str(device_name(topo, *d))?;
    }
    Ok(())
}

/// A line that begins so and ends with the names of devices.
fn line_of_names(mut line: String, topo: &Topology, devices: &[u32]) -> Result<String, AllocError>
    ensures { IfOk result (λ s. string_bytes s ≡ string_bytes line
        ++ (named (network topo.now) devices.now ++ 10 ∷ [])) }
{
    add_names(&mut line, topo, devices)?;
    line.push('\n')?;
    Ok(line)
}

/// The line of an accepted plan: how many devices, links and domains there are.
pub fn accepted_line(alloc: Global, topo: &Topology) -> Result<String, AllocError>
    ensures { IfOk result (λ s. string_bytes s ≡ text.accepted_line (network topo.now)) }
{
    let devices = topo.devices();
    let links = topo.links();
    let domains = domain_count(topo);
    let line = format!(in alloc; "accepted {devices} {links} {domains}\n")?;
    Ok(line)
}

/// The line of a plan that is refused for how one domain may fail.
fn refused_by_domain(
    alloc: Global,
    topo: &Topology,
    place: u32,
    domain: DomainId,
    shown: Shown<'_>,
) -> Result<String, AllocError>
    ensures { IfOk result (λ s. string_bytes s
        ≡ refused_by (network topo.now) place domain shown.entry) }
{
    let Named { kind, name } = domain_named(topo, domain);
    match shown {
        Shown::Thing(thing) => {
            let Named {
                kind: what,
                name: at,
            } = thing_named(topo, thing);
            let line = format!(in alloc;
                "refused plan {place} root {kind} {name} at {what} {at}\n"
            )?;
            Ok(line)
        }
        Shown::Cycle(cycle) => {
            let line = format!(in alloc; "refused plan {place} loop {kind} {name} cycle")?;
            line_of_names(line, topo, cycle)
        }
        Shown::Device(device) => {
            let at = device_name(topo, device);
            let line = format!(in alloc;
                "refused plan {place} domain {kind} {name} device {at}\n"
            )?;
            Ok(line)
        }
        Shown::Chain(chain) => {
            let line = format!(in alloc; "refused plan {place} reach {kind} {name} chain")?;
            line_of_names(line, topo, chain)
        }
    }
}

/// The line of a refused plan, with its place in the command, from 1.
pub fn refused_line(
    alloc: Global,
    topo: &Topology,
    place: u32,
    breach: &Breach,
) -> Result<String, AllocError>
    ensures { IfOk result (λ s. string_bytes s
        ≡ text.refused_line (network topo.now) place breach.now) }
{
    let (domain, shown) = match breach {
        Breach::Structure { rule, device } => {
            let name = device_name(topo, *device);
            let line = format!(in alloc; "refused plan {place} structure {rule} device {name}\n")?;
            return Ok(line);
        }
        Breach::Ancestor { device } => {
            let name = device_name(topo, *device);
            let line = format!(in alloc; "refused plan {place} ancestor device {name}\n")?;
            return Ok(line);
        }
        Breach::Timing(timing) => {
            let (rule, left, right) = (timing.rule, timing.left, timing.right);
            let line = format!(in alloc; "refused plan {place} timing {rule} {left} {right}\n")?;
            return Ok(line);
        }
        Breach::Root { domain, at } => (*domain, Shown::Thing(*at)),
        Breach::Loop { domain, cycle } => (*domain, Shown::Cycle(cycle.as_slice())),
        Breach::Domain { domain, device } => (*domain, Shown::Device(*device)),
        Breach::Reach { domain, chain } => (*domain, Shown::Chain(chain.as_slice())),
    };
    refused_by_domain(alloc, topo, place, domain, shown)
}
