//! Which devices and links each plan of a command does not leave out.
ghost use Rattle.std.specs.Prelude.{◌≡◌, ◌++◌, ◌<◌, [], ◌∷◌, length, map, not, All, IsTrue, IfOk, OnOk};
ghost use Rattle.sd_num.specs.Lists.{all_below, below, has};
ghost use Rattle.sd_plan.specs.topo.Topologies.{network};
ghost use Rattle.sd_plan.specs.Plans.{is_member, is_present};
ghost use Rattle.sd_history.specs.World.{Setting, plan_numbered};
ghost use Rattle.sd_monitors.specs.clocks.Memberships.{AreMembers, ArePresent, flag_at};

use sd_num::NoMemory;
use sd_plan::topo::Topology;
use sd_plan::{Plan, present};
use std::alloc::Global;
use std::marker::Model;

/// Of each plan whether it does not leave out a device, or a link. Only `of_devices` and `of_links`
/// take memory.
#[derive(Drop)]
pub struct PresentRows {
    /// By plan and then by the number of the device, or of the link.
    rows: Vec<Vec<bool>>,
}

impl Model for PresentRows {
    ghost use Rattle.std.specs.Prelude.{Bool, List, map};

    ghost Value = { List (List Bool) };

    ghost view = { λ present. map (λ row. row.items) present.rows.items };
}

impl PresentRows {
    /// No plan yet.
    fn new(alloc: Global) -> PresentRows
        ensures { result ≡ [] }
    {
        PresentRows {
            rows: Vec::new(alloc),
        }
    }

    /// Adds the row of a plan, which leaves out some of this many.
    fn add(&mut self, alloc: Global, count: u32, absent: &[u32]) -> Result<(), NoMemory>
        requires { IsTrue (all_below count absent.now) }
        ensures { OnOk result (self.new ≡ self.old
            ++ (map (λ x. not (has absent.now x)) (below count) ∷ [])) }
    {
        let row = present(alloc, count, absent)?;
        let Ok(()) = self.rows.push(row) else {
            return Err(NoMemory);
        };
        Ok(())
    }

    /// Those of the devices of a topology. The plans leave out only devices that it has.
    pub fn of_devices(
        alloc: Global,
        topo: &Topology,
        plans: &[Plan],
    ) -> Result<PresentRows, NoMemory>
        requires { All
            (λ plan. IsTrue (all_below (length (network topo.now).devices) plan.absent.devices))
            plans.now }
        ensures { IfOk result (λ members. (setting : Setting)
            → setting.net ≡ network topo.now → setting.plans ≡ plans.now
            → AreMembers setting members) }
    {
        let devices = topo.devices();
        let mut rows = PresentRows::new(alloc);
        for plan in plans {
            rows.add(alloc, devices, plan.absent.devices.as_slice())?;
        }
        Ok(rows)
    }

    /// Those of the links of a topology. The plans leave out only links that it has.
    pub fn of_links(alloc: Global, topo: &Topology, plans: &[Plan]) -> Result<PresentRows, NoMemory>
        requires { All
            (λ plan. IsTrue (all_below (length (network topo.now).links) plan.absent.links))
            plans.now }
        ensures { IfOk result (λ links. (setting : Setting)
            → setting.net ≡ network topo.now → setting.plans ≡ plans.now
            → ArePresent setting links) }
    {
        let links = topo.links();
        let mut rows = PresentRows::new(alloc);
        for plan in plans {
            rows.add(alloc, links, plan.absent.links.as_slice())?;
        }
        Ok(rows)
    }

    /// Whether a device is a member of the plan with this number, from 1. Past the last plan each
    /// is.
    #[tactic(auto, using(crate::proofs::clocks::Rows::member_is))]
    pub fn is_member(&self, epoch: u64, d: u32) -> bool
        ensures { (setting : Setting) → AreMembers setting self.now → d < length setting.net.devices
            → result ≡ is_member (plan_numbered setting epoch) d }
    {
        self.flag(epoch.saturating_sub(1) as usize, d as usize)
    }

    /// Whether the plan with this number, from 1, does not leave a link out. Past the last plan
    /// none is left out.
    #[tactic(auto, using(crate::proofs::clocks::Rows::present_is))]
    pub fn is_present(&self, epoch: u64, l: u32) -> bool
        ensures { (setting : Setting) → ArePresent setting self.now → l < length setting.net.links
            → result ≡ is_present (plan_numbered setting epoch) l }
    {
        self.flag(epoch.saturating_sub(1) as usize, l as usize)
    }

    /// The flag of a number in the row at a place, and true where there is none.
    fn flag(&self, place: usize, number: usize) -> bool
        ensures { result ≡ flag_at self.now place number }
    {
        match self.rows.get(place) {
            Some(row) => row.get(number).copied().unwrap_or(true),
            None => true,
        }
    }
}
