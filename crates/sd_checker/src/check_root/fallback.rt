//! Whether one domain may take root and backup root, or the backup root's path and what it falls
//! back on.
ghost use Rattle.std.specs.Prelude.{◌≡◌, ◌<◌, ◌&&◌, ◌||◌, not, nat_eq, find, length, None, IsTrue, IfOk};
ghost use Rattle.std.specs.List.{list_any};
ghost use Rattle.sd_checker.specs.check_root.Parts as parts;
ghost use Rattle.sd_checker.specs.check_root.Roots as roots;
ghost use Rattle.sd_plan.specs.domain.Domains as domains;
ghost use Rattle.sd_plan.specs.domain.Lone.{IsDomain};
ghost use Rattle.sd_plan.specs.IndexedPlan.{has_device, has_link};
ghost use Rattle.sd_plan.specs.Plans.{Fits, is_member, is_root};
ghost use Rattle.sd_plan.specs.Structure.{structure_breach};
ghost use Rattle.sd_plan.specs.Walks as walks;
ghost use Rattle.sd_plan.specs.topo.Topologies.{network};

use crate::check_root::things::{devices_in, links_in};
use sd_num::NoMemory;
use sd_plan::domain::{DomainId, holds_device};
use sd_plan::topo::{Thing, Topology};
use sd_plan::{Hop, IndexedPlan, Plan, WalkIndex, backup_of};
use std::alloc::Global;

/// Whether the backup root's path has a device.
fn path_has_device(planned: IndexedPlan<'_>, d: u32) -> bool
    requires { d < length (network planned.topo.now).devices }
    ensures { result
        ≡ has_device
        (walks.path (network planned.entry.topo.now) planned.entry.plan.now
        planned.entry.plan.now.backup_root) d }
{
    let backup_root = planned.plan.backup_root;
    d != backup_root && planned.index.on_walk(backup_root, d)
}

/// Whether the backup root's path has a link.
fn path_has_link(planned: IndexedPlan<'_>, l: u32) -> bool
    requires { l < length (network planned.topo.now).links }
    ensures { result
        ≡ has_link (walks.path (network planned.entry.topo.now) planned.entry.plan.now
        planned.entry.plan.now.backup_root) l }
{
    planned.index.walk_has_link(planned.plan.backup_root, l)
}

/// Whether the walk of a device has another, which is not the root.
fn needs_device(planned: IndexedPlan<'_>, from: u32, d: u32) -> bool
    requires device { d < length (network planned.topo.now).devices }
    requires from { from < length (network planned.topo.now).devices }
    requires member { IsTrue (is_member planned.plan.now from) }
    ensures { result
        ≡ (not (is_root planned.entry.plan.now d)
        && walks.on_walk (network planned.entry.topo.now) planned.entry.plan.now from d) }
{
    d != planned.plan.root && planned.index.on_walk(from, d)
}

/// Whether a link is a hop's, or on the walk behind it.
fn needs_link(planned: IndexedPlan<'_>, hop: Hop, l: u32) -> bool
    requires link { l < length (network planned.topo.now).links }
    requires from { hop.parent < length (network planned.topo.now).devices }
    requires member { IsTrue (is_member planned.plan.now hop.parent) }
    ensures { result
        ≡ (nat_eq l hop.link
        || has_link (walks.path (network planned.entry.topo.now) planned.entry.plan.now hop.parent)
        l) }
{
    l == hop.link || planned.index.walk_has_link(hop.parent, l)
}

/// Whether the backup root's path has a device of a domain.
fn hits_device(planned: IndexedPlan<'_>, domain: DomainId) -> bool
    requires { IsDomain (network planned.topo.now) domain }
    ensures { result
        ≡ list_any (has_device
        (walks.path (network planned.entry.topo.now) planned.entry.plan.now
        planned.entry.plan.now.backup_root))
        (parts.devices_in (network planned.entry.topo.now) domain) }
{
    for d in devices_in(planned.topo, &domain) {
        if path_has_device(planned, *d) {
            return true;
        }
    }
    false
}

/// Whether the backup root's path has a link of a domain.
fn hits_link(planned: IndexedPlan<'_>, domain: DomainId) -> bool
    requires { IsDomain (network planned.topo.now) domain }
    ensures { result
        ≡ list_any (has_link
        (walks.path (network planned.entry.topo.now) planned.entry.plan.now
        planned.entry.plan.now.backup_root))
        (parts.links_in (network planned.entry.topo.now) domain) }
{
    for l in links_in(planned.topo, &domain) {
        if path_has_link(planned, *l) {
            return true;
        }
    }
    false
}

/// The first device of a domain that the walk of a device has, other than the root.
fn first_device(planned: IndexedPlan<'_>, domain: DomainId, from: u32) -> Option<u32>
    requires domain { IsDomain (network planned.topo.now) domain }
    requires range { from < length (network planned.topo.now).devices }
    requires member { IsTrue (is_member planned.plan.now from) }
    ensures { result
        ≡ find (λ d. not (is_root planned.entry.plan.now d)
        && walks.on_walk (network planned.entry.topo.now) planned.entry.plan.now from d)
        (parts.devices_in (network planned.entry.topo.now) domain) }
{
    for d in devices_in(planned.topo, &domain) {
        if needs_device(planned, from, *d) {
            return Some(*d);
        }
    }
    None
}

/// The first link of a domain that is a hop's, or on the walk behind it.
fn first_link(planned: IndexedPlan<'_>, domain: DomainId, hop: Hop) -> Option<u32>
    requires domain { IsDomain (network planned.topo.now) domain }
    requires from { hop.parent < length (network planned.topo.now).devices }
    requires member { IsTrue (is_member planned.plan.now hop.parent) }
    ensures { result
        ≡ find (λ l. nat_eq l hop.link || has_link
        (walks.path (network planned.entry.topo.now) planned.entry.plan.now hop.parent) l)
        (parts.links_in (network planned.entry.topo.now) domain) }
{
    for l in links_in(planned.topo, &domain) {
        if needs_link(planned, hop, *l) {
            return Some(*l);
        }
    }
    None
}

/// What a domain has of what the backup root falls back on.
fn fallback_breach(planned: IndexedPlan<'_>, domain: DomainId) -> Option<Thing>
    requires { IsDomain (network planned.topo.now) domain }
    ensures { result ≡ roots.fallback_breach
        (network planned.entry.topo.now) planned.entry.plan.now domain }
{
    match backup_of(planned.plan, planned.plan.backup_root) {
        Some(hop) => match first_device(planned, domain, hop.parent) {
            Some(d) => Some(Thing::Device(d)),
            None => match first_link(planned, domain, hop) {
                Some(l) => Some(Thing::Link(l)),
                None => None,
            },
        },
        None => None,
    }
}

/// Whether a domain has both roots.
fn has_both_roots(topo: &Topology, plan: &Plan, domain: DomainId) -> bool
    requires { IsDomain (network topo.now) domain }
    ensures { result ≡ (domains.holds_device (network topo.now) domain plan.now.root
        && domains.holds_device (network topo.now) domain plan.now.backup_root) }
{
    holds_device(topo, domain, plan.root) && holds_device(topo, domain, plan.backup_root)
}

/// Whether a domain hits the backup root's path.
fn is_hit(planned: IndexedPlan<'_>, domain: DomainId) -> bool
    requires { IsDomain (network planned.topo.now) domain }
    ensures { result ≡ domains.hits (network planned.entry.topo.now) domain
        (walks.path (network planned.entry.topo.now) planned.entry.plan.now
        planned.entry.plan.now.backup_root) }
{
    hits_device(planned, domain) || hits_link(planned, domain)
}

/// What of a domain takes both roots, or the backup root's path and what it falls back on: the
/// backup root where it has both, else the least device, else the least link. It costs as much as
/// the domain is long.
pub fn root_breach_in(planned: IndexedPlan<'_>, domain: DomainId) -> Option<Thing>
    requires { IsDomain (network planned.topo.now) domain }
    ensures { result ≡ roots.root_breach
        (network planned.entry.topo.now) planned.entry.plan.now domain }
{
    if has_both_roots(planned.topo, planned.plan, domain) {
        Some(Thing::Device(planned.plan.backup_root))
    } else if is_hit(planned, domain) {
        fallback_breach(planned, domain)
    } else {
        None
    }
}

/// What `root_breach_in` answers, with an index that is made for this domain alone.
pub fn root_breach(
    alloc: Global,
    topo: &Topology,
    plan: &Plan,
    domain: DomainId,
) -> Result<Option<Thing>, NoMemory>
    requires fits { Fits (network topo.now) plan.now }
    requires structured { structure_breach (network topo.now) plan.now ≡ None }
    requires domain { IsDomain (network topo.now) domain }
    ensures { IfOk result (λ breach. breach
        ≡ roots.root_breach (network topo.now) plan.now domain) }
{
    let index = WalkIndex::new(alloc, topo, plan)?;
    let planned = IndexedPlan {
        topo,
        plan,
        index: &index,
    };
    Ok(root_breach_in(planned, domain))
}
