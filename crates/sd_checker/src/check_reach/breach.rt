//! What breaks the conditions under one outage.

use crate::check_hit::Outage;
use crate::check_reach::aftermath::Aftermath;
use crate::check_reach::search::Search;
use sd_num::NoMemory;
use sd_plan::DeviceList;
use std::alloc::Global;

impl Aftermath<'_> {
    ghost use Rattle.std.specs.Prelude.{◌≡◌, None, IfOk};
    ghost use Rattle.sd_checker.specs.check_reach.Aftermaths.{net_of, plan_of, domain_of};
    ghost use Rattle.sd_checker.specs.check_reach.Answered.{DomainShown, ReachShown};
    ghost use Rattle.sd_checker.specs.check_reach.Searches.{HasRoom, IsSearchOf};

    /// The lowest device that breaks the domain condition.
    fn domain_breach(&self, alloc: Global, search: &mut Search) -> Result<Option<u32>, NoMemory>
        requires search { IsSearchOf (net_of self.now) (plan_of self.now) (domain_of self.now)
            search.old }
        requires room { HasRoom (net_of self.now) search.old }
        ensures shown { IfOk result
            (DomainShown (net_of self.now) (plan_of self.now) (domain_of self.now)) }
        ensures search { IfOk result (λ breach. breach ≡ None
            → IsSearchOf (net_of self.now) (plan_of self.now) (domain_of self.now) search.new) }
        ensures room { HasRoom (net_of self.now) search.new }
    {
        let losing = self.losing(alloc)?;
        Ok(self.first_uncut(search, losing.as_slice()))
    }

    /// The chain of next hops from the lowest starved device.
    fn reach_breach(
        &self,
        alloc: Global,
        search: &mut Search,
    ) -> Result<Option<DeviceList>, NoMemory>
        requires search { IsSearchOf (net_of self.now) (plan_of self.now) (domain_of self.now)
            search.old }
        requires room { HasRoom (net_of self.now) search.old }
        ensures shown { IfOk result
            (ReachShown (net_of self.now) (plan_of self.now) (domain_of self.now)) }
        ensures room { HasRoom (net_of self.now) search.new }
    {
        let unheard = self.unheard(alloc)?;
        let Some(first) = self.first_uncut(search, unheard.as_slice()) else {
            return Ok(None);
        };
        let chain = self.chain(alloc, first)?;
        Ok(Some(chain))
    }
}

impl Search {
    ghost use Rattle.std.specs.Prelude.{◌≡◌, None, IfOk};
    ghost use Rattle.sd_checker.specs.check_hit.Outages.{net_of, plan_of};
    ghost use Rattle.sd_checker.specs.check_reach.Answered.{DomainShown, ReachShown};
    ghost use Rattle.sd_checker.specs.check_reach.Searches.{HasRoom, IsSearchOf};

    /// The lowest sound device, no root, that the domain hits and does not cut off, and whose backup
    /// it takes. Where there is none, what was found out serves the condition on reach.
    pub fn domain_breach(
        &mut self,
        alloc: Global,
        outage: &Outage<'_>,
    ) -> Result<Option<u32>, NoMemory>
        requires search { IsSearchOf (net_of outage.now) (plan_of outage.now) outage.now.domain
            self.old }
        requires room { HasRoom (net_of outage.now) self.old }
        ensures shown { IfOk result
            (DomainShown (net_of outage.now) (plan_of outage.now) outage.now.domain) }
        ensures search { IfOk result (λ breach. breach ≡ None
            → IsSearchOf (net_of outage.now) (plan_of outage.now) outage.now.domain self.new) }
        ensures room { HasRoom (net_of outage.now) self.new }
    {
        match Aftermath::of(*outage) {
            Some(aftermath) => aftermath.domain_breach(alloc, self),
            None => Ok(None),
        }
    }

    /// The chain of next hops from the lowest sound device that the domain neither cuts off nor lets
    /// hear the acting end again.
    pub fn reach_breach(
        &mut self,
        alloc: Global,
        outage: &Outage<'_>,
    ) -> Result<Option<DeviceList>, NoMemory>
        requires search { IsSearchOf (net_of outage.now) (plan_of outage.now) outage.now.domain
            self.old }
        requires room { HasRoom (net_of outage.now) self.old }
        ensures shown { IfOk result
            (ReachShown (net_of outage.now) (plan_of outage.now) outage.now.domain) }
        ensures room { HasRoom (net_of outage.now) self.new }
    {
        match Aftermath::of(*outage) {
            Some(aftermath) => aftermath.reach_breach(alloc, self),
            None => Ok(None),
        }
    }
}
