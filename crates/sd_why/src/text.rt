//! How a reason is printed.
ghost use Rattle.std.specs.Prelude.{◌≡◌, IfOk, string_bytes};
ghost use Rattle.sd_plan.specs.topo.Network as names;
ghost use Rattle.sd_plan.specs.topo.Topologies.{network};
ghost use Rattle.sd_why.specs.Text as text;

use crate::few::needed_besides;
use crate::{Far, Reason};
use sd_plan::topo::Topology;
use std::alloc::{AllocError, Global};

/// The name of a device. A number past the last one has none.
fn device_name(topo: &Topology, d: u32) -> &str
    ensures { result.now ≡ names.device_name (network topo.now) d }
{
    if d < topo.devices() {
        topo.device_name(d)
    } else {
        ""
    }
}

/// The name of a listed domain. A number past the last one has none.
fn domain_name(topo: &Topology, k: u32) -> &str
    ensures { result.now ≡ names.domain_name (network topo.now) k }
{
    if k < topo.domains() {
        topo.domain_name(k)
    } else {
        ""
    }
}

/// The line of a device that is farther than the depth from a candidate.
fn deep_text(alloc: Global, topo: &Topology, far: Far) -> Result<String, AllocError>
    ensures { IfOk result (λ line. string_bytes line ≡ text.deep_text (network topo.now) far) }
{
    let candidate = device_name(topo, far.candidate);
    let device = device_name(topo, far.device);
    let hops = far.hops;
    let depth = topo.params().depth;
    let line = format!(in alloc; "impossible deep {candidate} {device} {hops} {depth}\n")?;
    Ok(line)
}

/// The line of a domain that has all candidates.
fn shared_text(alloc: Global, topo: &Topology, k: u32) -> Result<String, AllocError>
    ensures { IfOk result (λ line. string_bytes line ≡ text.shared_text (network topo.now) k) }
{
    let name = domain_name(topo, k);
    let line = format!(in alloc; "impossible shared {name}\n")?;
    Ok(line)
}

/// The line of a device that no links lead to.
fn apart_text(alloc: Global, topo: &Topology, d: u32) -> Result<String, AllocError>
    ensures { IfOk result (λ line. string_bytes line ≡ text.apart_text (network topo.now) d) }
{
    let name = device_name(topo, d);
    let line = format!(in alloc; "impossible apart {name}\n")?;
    Ok(line)
}

/// The line of links that are fewer than a plan needs.
fn few_text(alloc: Global, topo: &Topology, bridges: u32) -> Result<String, AllocError>
    ensures { IfOk result (λ line. string_bytes line ≡ text.few_text (network topo.now) bridges) }
{
    let links = topo.links();
    let devices = topo.devices();
    let needed = needed_besides(topo, bridges);
    let line = format!(in alloc; "impossible few {links} {bridges} {devices} {needed}\n")?;
    Ok(line)
}

/// The line of a reason.
fn reason_text(alloc: Global, topo: &Topology, reason: Reason) -> Result<String, AllocError>
    ensures { IfOk result (λ line. string_bytes line ≡ text.reason_text (network topo.now) reason) }
{
    match reason {
        Reason::Candidates(count) => format!(in alloc; "impossible candidates {count}\n"),
        Reason::Timing => format!(in alloc; "impossible timing\n"),
        Reason::Shared(k) => shared_text(alloc, topo, k),
        Reason::Apart(d) => apart_text(alloc, topo, d),
        Reason::Deep(far) => deep_text(alloc, topo, far),
        Reason::Few(bridges) => few_text(alloc, topo, bridges),
    }
}

/// The line of the first reason, or that no reason is known.
pub fn why_text(alloc: Global, topo: &Topology, why: Option<Reason>) -> Result<String, AllocError>
    ensures { IfOk result (λ line. string_bytes line ≡ text.why_text (network topo.now) why) }
{
    match why {
        Some(reason) => reason_text(alloc, topo, reason),
        None => format!(in alloc; "open\n"),
    }
}
