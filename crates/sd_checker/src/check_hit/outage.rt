//! A fault domain over a plan: what it fails, and which devices it hits.
ghost use Rattle.std.specs.Prelude.{◌≡◌, length};
ghost use Rattle.sd_plan.specs.topo.Topologies.{network};
ghost use Rattle.sd_plan.specs.domain.Lone.{IsDomain};
ghost use Rattle.sd_plan.specs.domain.Failing.{IsDomain-prop, IsFailureOf};
ghost use Rattle.sd_checker.specs.check_hit.Hit.{hit_by};
ghost use Rattle.sd_checker.specs.check_hit.Places.{ArePlaces};

use sd_plan::IndexedPlan;
use sd_plan::domain::{DomainId, Failure};

/// A fault domain over a plan, with what it fails and the devices that it hits.
#[derive(Clone, Copy)]
pub struct Outage<'a> {
    pub planned: IndexedPlan<'a>,
    pub domain: DomainId,
    /// The things of the domain.
    pub failed: &'a Failure,
    /// The devices that the domain hits, ascending.
    pub hit: &'a [u32],
    /// By device, its place among those, if it is one of them.
    pub places: &'a [u32],
    pub ghost is_domain: { IsDomain (network planned.topo.now) domain } by { IsDomain-prop (network planned.topo.now) domain },
    pub ghost fails: { IsFailureOf (network planned.topo.now) domain failed.now },
    pub ghost hits: { hit.now ≡ hit_by (network planned.topo.now) planned.plan.now domain },
    pub ghost placed: { ArePlaces (length (network planned.topo.now).devices) hit.now places.now },
}

impl Outage<'_> {
    ghost use Rattle.std.specs.Prelude.{◌<◌, false, slice_get, Some, MatchOption};
    ghost use Rattle.sd_plan.specs.domain.Domains as domains;
    ghost use Rattle.sd_plan.specs.Walks.{is_hit};
    ghost use Rattle.sd_checker.specs.check_hit.Outages.{net_of, plan_of};

    /// Whether the domain has the device.
    pub fn holds_device(&self, d: u32) -> bool
        ensures { result ≡ domains.holds_device (net_of self.now) self.now.domain d }
    {
        self.failed.contains_device(d)
    }

    /// Whether the domain has the link.
    pub fn holds_link(&self, l: u32) -> bool
        ensures { result ≡ domains.holds_link (net_of self.now) self.now.domain l }
    {
        self.failed.contains_link(l)
    }

    /// The place of a device among those that the domain hits, if it is one of them.
    pub fn place_of(&self, d: u32) -> Option<usize>
        requires { d < length (net_of self.now).devices }
        ensures { MatchOption result (is_hit (net_of self.now) (plan_of self.now) self.now.domain d
            ≡ false)
            (λ place. slice_get self.now.hit.now place ≡ Some d) }
    {
        let place = self.places[d as usize] as usize;
        if place < self.hit.len() && self.hit[place] == d {
            Some(place)
        } else {
            None
        }
    }

    /// Whether the domain hits a device.
    pub fn hits(&self, d: u32) -> bool
        requires { d < length (net_of self.now).devices }
        ensures { result ≡ is_hit (net_of self.now) (plan_of self.now) self.now.domain d }
    {
        self.place_of(d).is_some()
    }
}
