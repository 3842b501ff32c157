//! The devices that may break a condition, if they are not cut off from the acting end.

use crate::check_reach::aftermath::Aftermath;
use sd_num::NoMemory;
use sd_plan::DeviceList;
use std::alloc::Global;

impl Aftermath<'_> {
    ghost use Rattle.std.specs.Prelude.{IfOk};
    ghost use Rattle.sd_checker.specs.check_reach.Aftermaths.{net_of, plan_of, domain_of};
    ghost use Rattle.sd_checker.specs.check_reach.Candidates.{AreDecided, IsLosing, IsUnheard};
    ghost use Rattle.sd_checker.specs.check_reach.Reached.{AreAll};

    /// The sound devices, no roots, that the domain hits and whose backup it takes, ascending.
    pub(crate) fn losing(&self, alloc: Global) -> Result<DeviceList, NoMemory>
        ensures { IfOk result
            (AreAll (IsLosing (net_of self.now) (plan_of self.now) (domain_of self.now))) }
    {
        let mut losing = DeviceList::new(alloc);
        for d in self.outage.hit {
            if self.loses(*d) {
                losing.push(alloc, *d)?;
            }
        }
        Ok(losing)
    }

    /// The sound devices that do not come to hear the acting end, ascending.
    pub(crate) fn unheard(&self, alloc: Global) -> Result<DeviceList, NoMemory>
        ensures all { IfOk result
            (AreAll (IsUnheard (net_of self.now) (plan_of self.now) (domain_of self.now))) }
        ensures decided { IfOk result
            (AreDecided (net_of self.now) (plan_of self.now) (domain_of self.now)) }
    {
        let marks = self.marks(alloc)?;
        let mut unheard = DeviceList::new(alloc);
        for place in 0..self.outage.hit.len() {
            let d = self.outage.hit[place];
            if marks[place].is_unfed() && !self.outage.holds_device(d) {
                unheard.push(alloc, d)?;
            }
        }
        Ok(unheard)
    }
}
