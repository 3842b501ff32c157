//! A plan under an outage: which end acts, where devices turn to, and what they lose.
ghost use Rattle.std.specs.Prelude.{◌≡◌, false};
ghost use Rattle.sd_plan.specs.topo.Topologies.{network};
ghost use Rattle.sd_plan.specs.domain.Domains.{holds_device};
ghost use Rattle.sd_checker.specs.check_reach.Reach.{acting_end};

use crate::check_hit::Outage;
use sd_plan::Hop;

/// A plan under an outage that hits some devices and leaves an end that acts.
#[derive(Clone, Copy)]
pub(crate) struct Aftermath<'a> {
    pub(crate) outage: Outage<'a>,
    /// The root, or where the domain has it the backup root.
    pub(crate) acting: u32,
    pub(crate) ghost acts: { acting ≡ acting_end (network outage.planned.topo.now)
        outage.planned.plan.now outage.domain },
    pub(crate) ghost left: { holds_device (network outage.planned.topo.now) outage.domain acting
        ≡ false },
}

impl<'a> Aftermath<'a> {
    ghost use Rattle.std.specs.Prelude.{◌<◌, length, MatchOption};
    ghost use Rattle.sd_checker.specs.check_hit.Outages as outages;
    ghost use Rattle.sd_checker.specs.check_reach.Aftermaths.{net_of, plan_of, domain_of, IsHarmless};
    ghost use Rattle.sd_checker.specs.check_reach.Candidates.{loses};
    ghost use Rattle.sd_checker.specs.check_reach.Chains.{onward};
    ghost use Rattle.sd_checker.specs.check_reach.Reach.{next_hop};
    ghost use Rattle.sd_checker.specs.check_reach.Reached.{is_left};

    /// None where the domain hits nobody or has the acting end, so that nobody can be starved by it
    /// or lose a backup.
    pub(crate) fn of(outage: Outage<'a>) -> Option<Aftermath<'a>>
        ensures { MatchOption result
            (IsHarmless (outages.net_of outage.entry)
            (outages.plan_of outage.entry) outage.entry.domain)
            (λ a. a.outage ≡ outage.entry) }
    {
        let plan = outage.planned.plan;
        let acting = if outage.holds_device(plan.root) {
            plan.backup_root
        } else {
            plan.root
        };
        if outage.hit.is_empty() || outage.holds_device(acting) {
            return None;
        }
        Some(Aftermath { outage, acting })
    }

    /// Whether the domain has neither the link nor the device that it leads to.
    pub(crate) fn leaves(&self, link: u32, device: u32) -> bool
        ensures { result ≡ is_left (net_of self.now) (domain_of self.now) link device }
    {
        !self.outage.holds_link(link) && !self.outage.holds_device(device)
    }

    /// Where a hit device turns: its backup, or its primary where it has none.
    pub(crate) fn next_hop(&self, d: u32) -> Option<Hop>
        requires { d < length (net_of self.now).devices }
        ensures { result ≡ next_hop (plan_of self.now) d }
    {
        match self.outage.planned.plan.rows.as_slice()[d as usize] {
            Some(row) => match row.backup {
                Some(hop) => Some(hop),
                None => Some(row.primary),
            },
            None => None,
        }
    }

    /// Where the next hop of a device leads, if the domain leaves it.
    pub(crate) fn onward(&self, d: u32) -> Option<u32>
        requires { d < length (net_of self.now).devices }
        ensures { result ≡ onward (net_of self.now) (plan_of self.now) (domain_of self.now) d }
    {
        let hop = self.next_hop(d)?;
        if self.leaves(hop.link, hop.parent) {
            Some(hop.parent)
        } else {
            None
        }
    }

    /// Whether the domain takes the backup of a device, which it leaves and which is no root.
    pub(crate) fn loses(&self, d: u32) -> bool
        requires { d < length (net_of self.now).devices }
        ensures { result ≡ loses (net_of self.now) (plan_of self.now) (domain_of self.now) d }
    {
        let plan = self.outage.planned.plan;
        if self.outage.holds_device(d) || d == plan.root || d == plan.backup_root {
            return false;
        }
        match sd_plan::backup_of(plan, d) {
            Some(hop) => !self.leaves(hop.link, hop.parent),
            None => false,
        }
    }
}
