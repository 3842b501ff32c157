//! The backup of the backup root.
ghost use Rattle.std.specs.Prelude.{◌≡◌, ◌<◌, ℕ, find, length, Some, IfOk};
ghost use Rattle.sd_num.specs.Lists.{has};
ghost use Rattle.sd_plan.specs.Walks.{links_of};
ghost use Rattle.sd_planner.specs.Spreading.{placed_at};
ghost use Rattle.sd_planner.specs.Climbs.{way_up};
ghost use Rattle.sd_planner.specs.Serving as serving;
ghost use Rattle.sd_planner.specs.Surveys.{net_in, absent_in, order_of};
ghost use Rattle.sd_planner.specs.Things.{AreSized, AddsAll, AreNear, AreUnfit, parents_of};

use super::flags::is_set;
use super::over::led_over;
use super::survey::Survey;
use super::things::Things;
use crate::Placed;
use sd_num::NoMemory;
use sd_plan::Hop;
use std::alloc::Global;

impl Survey<'_> {
    /// Flags the links and devices of a placed device's walk, the device itself left out.
    fn add_walk(&self, things: &mut Things, own: Placed)
        requires own { placed_at (order_of self.now) own.device ≡ Some own }
        requires sized { AreSized (net_in self.now) things.old }
        ensures { AddsAll (has (parents_of (way_up (order_of self.now) own.device)))
            (has (links_of (way_up (order_of self.now) own.device))) things.old things.new }
    {
        let mut here = own;
        while let Some(hop) = here.hop {
            things.add_hop(hop);
            match self.placed(hop.parent) {
                Some(parent) => here = parent,
                None => unreachable!(),
            }
        }
    }

    /// The devices and links that share a domain with the walk of a placed device, the device itself
    /// left out. What is on the walk shares a domain with it: that of the thing alone.
    fn near_walk(&self, alloc: Global, own: Placed) -> Result<Things, NoMemory>
        requires own { placed_at (order_of self.now) own.device ≡ Some own }
        ensures { IfOk result (AreNear (net_in self.now) (way_up (order_of self.now) own.device)) }
    {
        let mut walk = Things::none(alloc, self.present.topo)?;
        self.add_walk(&mut walk, own);
        let mut near = Things::none(alloc, self.present.topo)?;
        near.add_met(self.present.topo, &walk);
        self.add_walk(&mut near, own);
        Ok(near)
    }

    /// The links that share a domain with the walk of a placed device, and the placed devices that
    /// follow the root over something that does.
    fn unfit(&self, alloc: Global, own: Placed) -> Result<Things, NoMemory>
        requires own { placed_at (order_of self.now) own.device ≡ Some own }
        ensures { IfOk result
            (AreUnfit (net_in self.now) self.now.root (order_of self.now)
            (way_up (order_of self.now) own.device)) }
    {
        let mut near = self.near_walk(alloc, own)?;
        near.clear_device(self.root);
        let devices = led_over(
            alloc,
            self.placement,
            near.devices.as_slice(),
            near.links.as_slice(),
        )?;
        let Things { devices: _, links } = near;
        Ok(Things { devices, links })
    }

    /// Whether a hop serves as backup of the backup root, whose primary hop is given.
    fn serves_backup_root(&self, unfit: &Things, own: Placed, primary: Hop, hop: Hop) -> bool
        requires own { own.device ≡ self.now.backup_root }
        requires unfit { AreUnfit (net_in self.now) self.now.root (order_of self.now)
            (way_up (order_of self.now) own.device) unfit.now }
        ensures { result ≡ serving.serves_backup_root (net_in self.now) self.now.root
            (absent_in self.now) own.device primary hop }
    {
        if hop.link == primary.link || is_set(unfit.links.as_slice(), hop.link) {
            return false;
        }
        match self.placed(hop.parent) {
            Some(parent) => {
                !self.is_behind(parent) && !is_set(unfit.devices.as_slice(), parent.device)
            }
            None => false,
        }
    }

    /// The backup of the backup root.
    pub(crate) fn backup_root_backup(
        &self,
        alloc: Global,
        own: Placed,
        primary: Hop,
    ) -> Result<Option<Hop>, NoMemory>
        requires range { own.device < length (net_in self.now).devices }
        requires own { placed_at (order_of self.now) own.device ≡ Some own }
        requires backup_root { own.device ≡ self.now.backup_root }
        ensures { IfOk result (λ backup. backup
            ≡ serving.backup_for (net_in self.now) self.now.root
            (absent_in self.now) own.device primary) }
    {
        let unfit = self.unfit(alloc, own)?;
        for neighbour in self.neighbours_of(own.device) {
            let hop = neighbour.hop();
            if self.serves_backup_root(&unfit, own, primary, hop) {
                return Ok(Some(hop));
            }
        }
        Ok(None)
    }
}
