//! Chains of next hops.
ghost use Rattle.std.specs.Prelude.{◌≡◌, IfOk};

use crate::check_reach::aftermath::Aftermath;
use sd_num::NoMemory;
use sd_plan::DeviceList;
use sd_plan::domain::NumberSet;
use std::alloc::Global;

/// A list of numbers.
fn list_of(alloc: Global, numbers: &[u32]) -> Result<DeviceList, NoMemory>
    ensures { IfOk result (λ list. list ≡ numbers.now) }
{
    let mut list = DeviceList::new(alloc);
    for number in numbers {
        list.push(alloc, *number)?;
    }
    Ok(list)
}

impl Aftermath<'_> {
    ghost use Rattle.std.specs.Prelude.{◌<◌, [], length};
    ghost use Rattle.sd_checker.specs.check_reach.Aftermaths.{net_of, plan_of, domain_of};
    ghost use Rattle.sd_checker.specs.check_reach.Chains.{IsChainOf};

    /// Follows next hops from a device until one is over the domain or leads back.
    fn walk(&self, chain: &mut NumberSet, first: u32)
        requires device { first < length (net_of self.now).devices }
        requires none { chain.old.numbers ≡ [] }
        requires room { chain.old.bound ≡ length (net_of self.now).devices }
        ensures { IsChainOf (net_of self.now) (plan_of self.now)
            (domain_of self.now) first chain.new.numbers }
    {
        let _: bool = chain.insert(first);
        let mut here = first;
        while let Some(next) = self.onward(here) {
            if !chain.insert(next) {
                return;
            }
            here = next;
        }
    }

    /// The chain of next hops from a device to before one that is over the domain or leads back.
    pub(crate) fn chain(&self, alloc: Global, first: u32) -> Result<DeviceList, NoMemory>
        requires { first < length (net_of self.now).devices }
        ensures { IfOk result
            (IsChainOf (net_of self.now) (plan_of self.now) (domain_of self.now) first) }
    {
        let mut chain = NumberSet::new(alloc, self.outage.planned.topo.devices())?;
        self.walk(&mut chain, first);
        list_of(alloc, chain.as_slice())
    }
}
