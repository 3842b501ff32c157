//! The fault domains in their order: the listed ones, each device alone, each link alone.
ghost use Rattle.std.specs.Prelude.{◌≡◌, ◌<◌, length, Some};
ghost use Rattle.std.specs.List.{slice_get};
ghost use Rattle.sd_plan.specs.domain.Domains.{domains};
ghost use Rattle.sd_plan.specs.domain.Lone.{IsDomain};
ghost use Rattle.sd_plan.specs.topo.Topologies.{network};

use sd_plan::domain::DomainId;
use sd_plan::topo::Topology;

/// How many domains there are.
pub fn domain_count(topo: &Topology) -> u32
    ensures { result ≡ length (domains (network topo.now)) }
{
    topo.domains() + topo.devices() + topo.links()
}

/// The domain at a place of their order, from 0.
pub fn domain_at(topo: &Topology, place: u32) -> DomainId
    requires { place < length (domains (network topo.now)) }
    ensures at { slice_get (domains (network topo.now)) place ≡ Some result }
    ensures domain { IsDomain (network topo.now) result }
{
    let listed = topo.domains();
    let devices = topo.devices();
    if place < listed {
        DomainId::Listed(place)
    } else if place - listed < devices {
        DomainId::Device(place - listed)
    } else {
        DomainId::Link(place - listed - devices)
    }
}
