//! Which domain holds what.
ghost use Rattle.std.specs.Prelude.{◌≡◌, ◌<◌, length, IsTrue, IfSome, find};
ghost use Rattle.std.specs.List.{list_all};
ghost use Rattle.sd_num.specs.Lists.{ascends, has, below};
ghost use Rattle.sd_plan.specs.topo.Topologies.{network};
ghost use Rattle.sd_plan.specs.domain.Domains as domains;
ghost use Rattle.sd_plan.specs.domain.Lone.{IsDomain, alone};
ghost use Rattle.sd_plan.specs.domain.Failures.{things_of};
ghost use Rattle.sd_plan.specs.domain.Within.{has_all};

use crate::domain::{DomainId, Failure};
use crate::topo::Topology;
use sd_num::contains;

/// Whether the domain has the device.
pub fn holds_device(topo: &Topology, f: DomainId, d: u32) -> bool
    requires { IsDomain (network topo.now) f }
    ensures { result ≡ domains.holds_device (network topo.now) f d }
{
    match f {
        DomainId::Listed(k) => contains(topo.domain_devices(k), d),
        DomainId::Device(e) => e == d,
        DomainId::Link(_) => false,
    }
}

/// Whether the domain has the link.
pub fn holds_link(topo: &Topology, f: DomainId, l: u32) -> bool
    requires { IsDomain (network topo.now) f }
    ensures { result ≡ domains.holds_link (network topo.now) f l }
{
    match f {
        DomainId::Listed(k) => contains(topo.domain_links(k), l),
        DomainId::Device(_) => false,
        DomainId::Link(m) => m == l,
    }
}

/// Whether numbers, which ascend, have all of others among them.
fn lists_all(numbers: &[u32], others: &[u32]) -> bool
    requires { IsTrue (ascends numbers.now) }
    ensures { result ≡ list_all (has numbers.now) others.now }
{
    others.iter().all(|number| contains(numbers, *number))
}

/// Whether a listed domain has all that has failed.
fn is_within(topo: &Topology, k: u32, failed: &Failure) -> bool
    requires { k < length (network topo.now).domains }
    ensures { result ≡ has_all (network topo.now) failed.now (DomainId.Listed k) }
{
    lists_all(topo.domain_devices(k), failed.devices())
        && lists_all(topo.domain_links(k), failed.links())
}

/// The first listed domain that has all that has failed.
fn first_listed(topo: &Topology, failed: &Failure) -> Option<u32>
    ensures first { result ≡ find (λ k. has_all (network topo.now) failed.now (DomainId.Listed k))
        (below (length (network topo.now).domains)) }
    ensures listed { IfSome result (λ k. k < length (network topo.now).domains) }
{
    for k in 0..topo.domains() {
        if is_within(topo, k, failed) {
            return Some(k);
        }
    }
    None
}

/// The first domain of one thing alone that has all that has failed. Where nothing has failed,
/// this is the first device, since each topology has one.
fn first_alone(topo: &Topology, failed: &Failure) -> Option<DomainId>
    ensures first { result ≡ find (has_all (network topo.now) failed.now)
        (alone (network topo.now)) }
    ensures domain { IfSome result (IsDomain (network topo.now)) }
{
    let links = failed.links();
    match failed.devices() {
        [] => match links {
            [] => Some(DomainId::Device(0)),
            [l] => (*l < topo.links()).then_some(DomainId::Link(*l)),
            _ => None,
        },
        [d] if links.is_empty() => (*d < topo.devices()).then_some(DomainId::Device(*d)),
        _ => None,
    }
}

/// The first domain that has all that has failed; of nothing, the first of all.
pub fn within_one(topo: &Topology, failed: &Failure) -> Option<DomainId>
    ensures first { result ≡ domains.within_one (network topo.now) (things_of failed.now) }
    ensures domain { IfSome result (IsDomain (network topo.now)) }
{
    match first_listed(topo, failed) {
        Some(k) => Some(DomainId::Listed(k)),
        None => first_alone(topo, failed),
    }
}
