//! A listed domain that has all candidates.
ghost use Rattle.std.specs.Prelude.{◌≡◌, ◌<◌, IfSome, find, length};
ghost use Rattle.sd_num.specs.Lists.{below};
ghost use Rattle.sd_plan.specs.topo.Topologies.{network};
ghost use Rattle.sd_why.specs.Kinds as kind;
ghost use Rattle.sd_why.specs.Reasons.{Judges};
ghost use Rattle.sd_why.specs.Plans.{HasNoPlanOfCandidates};

use crate::Reason;
use sd_plan::domain::{DomainId, holds_device};
use sd_plan::topo::Topology;

/// Whether a listed domain has all candidates. It asks no more of them than the domain has devices,
/// and one.
fn has_all(topo: &Topology, k: u32) -> bool
    requires { k < length (network topo.now).domains }
    ensures { result ≡ kind.shares_all (network topo.now) k }
{
    for root in topo.roots() {
        if !holds_device(topo, DomainId::Listed(k), *root) {
            return false;
        }
    }
    true
}

/// The first listed domain that has all candidates.
fn first_shared(topo: &Topology) -> Option<u32>
    ensures { result ≡ find (kind.shares_all (network topo.now))
        (below (length (network topo.now).domains)) }
{
    for k in 0..topo.domains() {
        if has_all(topo, k) {
            return Some(k);
        }
    }
    None
}

/// The first listed domain that has all candidates, if there is one: it takes root and backup root.
pub fn shared_domain(topo: &Topology) -> Option<Reason>
    ensures judges { Judges (network topo.now) kind.shared result }
    ensures law { IfSome result (λ reason. HasNoPlanOfCandidates (network topo.now)) }
{
    match first_shared(topo) {
        Some(k) => Some(Reason::Shared(k)),
        None => None,
    }
}
