//! What a domain has, as lists.
ghost use Rattle.std.specs.Prelude.{◌≡◌};
ghost use Rattle.sd_checker.specs.check_root.Parts as parts;
ghost use Rattle.sd_plan.specs.domain.Lone.{IsDomain};
ghost use Rattle.sd_plan.specs.topo.Topologies.{network};

use sd_plan::domain::DomainId;
use sd_plan::topo::Topology;
use std::slice;

/// The devices of a domain, ascending.
pub(crate) fn devices_in<'a>(topo: &'a Topology, domain: &'a DomainId) -> &'a [u32]
    requires { IsDomain (network topo.now) domain.now }
    ensures { result.now ≡ parts.devices_in (network topo.now) domain.now }
{
    match domain {
        DomainId::Listed(k) => topo.domain_devices(*k),
        DomainId::Device(d) => slice::from_ref(d),
        DomainId::Link(_) => &[],
    }
}

/// The links of a domain, ascending.
pub(crate) fn links_in<'a>(topo: &'a Topology, domain: &'a DomainId) -> &'a [u32]
    requires { IsDomain (network topo.now) domain.now }
    ensures { result.now ≡ parts.links_in (network topo.now) domain.now }
{
    match domain {
        DomainId::Listed(k) => topo.domain_links(*k),
        DomainId::Device(_) => &[],
        DomainId::Link(l) => slice::from_ref(l),
    }
}
