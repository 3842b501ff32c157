//! A topology and its plans, asked by numbers that may be out of range.

use sd_num::Rates;
use sd_plan::topo::{LinkEntry, Topology};
use sd_plan::{End, Hop, Plan, PlanRow};
use std::alloc::{AllocError, Global};

/// Devices and links are numbered from 0, plans from 1. What is out of range is nothing, or 0.
#[derive(Drop)]
pub struct Net<'a> {
    /// How many devices there are.
    pub devices: u32,
    rates: Vec<Rates>,
    links: Vec<LinkEntry>,
    /// How long an acting device waits between two rounds, in ps of its counter.
    pub period: u64,
    plans: &'a [Plan],
}

fn rates_of(alloc: Global, topo: &Topology) -> Result<Vec<Rates>, AllocError> {
    let mut rates = Vec::new(alloc);
    for d in 0..topo.devices() {
        rates.push(topo.rates(d))?;
    }
    Ok(rates)
}

fn links_of(alloc: Global, topo: &Topology) -> Result<Vec<LinkEntry>, AllocError> {
    let mut links = Vec::new(alloc);
    for l in 0..topo.links() {
        links.push(topo.link(l))?;
    }
    Ok(links)
}

fn leads_to(hop: Option<Hop>, parent: u32, link: u32) -> bool {
    hop == Some(Hop { parent, link })
}

impl Net<'_> {
    /// A topology with its plans, the first of which has the number 1.
    pub fn of<'a>(
        alloc: Global,
        topo: &Topology,
        plans: &'a [Plan],
    ) -> Result<Net<'a>, AllocError> {
        Ok(Net {
            devices: topo.devices(),
            rates: rates_of(alloc, topo)?,
            links: links_of(alloc, topo)?,
            period: topo.params().period,
            plans,
        })
    }

    /// A link, where there is one with this number.
    pub fn link(&self, l: u32) -> Option<LinkEntry> {
        self.links.get(l as usize).copied()
    }

    /// How many links there are.
    pub fn links(&self) -> u32 {
        u32::try_from(self.links.len()).unwrap_or(0)
    }

    /// How many plans there are.
    pub fn plans(&self) -> u32 {
        u32::try_from(self.plans.len()).unwrap_or(0)
    }

    /// The plan with a number, from 1.
    pub fn plan(&self, epoch: u32) -> Option<&Plan> {
        self.plans.get(epoch.checked_sub(1)? as usize)
    }

    /// Whether the device is in the plan with a number, and not absent.
    pub fn is_member(&self, epoch: u32, d: u32) -> bool {
        match self.plan(epoch) {
            Some(plan) => !plan.absent.devices.as_slice().contains(&d),
            None => false,
        }
    }

    /// Whether the device is the root of the plan with a number.
    pub fn is_root(&self, epoch: u32, d: u32) -> bool {
        self.root(epoch) == Some(d)
    }

    /// The root of the plan with a number.
    pub fn root(&self, epoch: u32) -> Option<u32> {
        Some(self.plan(epoch)?.root)
    }

    fn row(&self, epoch: u32, d: u32) -> Option<PlanRow> {
        *self.plan(epoch)?.rows.as_slice().get(d as usize)?
    }

    pub(crate) fn primary(&self, epoch: u32, d: u32) -> Option<Hop> {
        Some(self.row(epoch, d)?.primary)
    }

    pub(crate) fn backup(&self, epoch: u32, d: u32) -> Option<Hop> {
        self.row(epoch, d)?.backup
    }

    /// Whether a device has another as a parent over a link, primary or backup.
    fn follows_over(&self, epoch: u32, child: u32, parent: u32, link: u32) -> bool {
        leads_to(self.primary(epoch, child), parent, link)
            || leads_to(self.backup(epoch, child), parent, link)
    }

    /// The device below another over a link.
    fn child_over(&self, epoch: u32, parent: u32, link: u32) -> Option<u32> {
        for child in 0..self.devices {
            if self.follows_over(epoch, child, parent, link) {
                return Some(child);
            }
        }
        None
    }

    /// The ends below a device, by ascending link.
    pub(crate) fn ends_below(
        &self,
        alloc: Global,
        epoch: u32,
        parent: u32,
    ) -> Result<Vec<End>, AllocError> {
        let mut ends = Vec::new(alloc);
        for link in 0..self.links() {
            if let Some(device) = self.child_over(epoch, parent, link) {
                ends.push(End { link, device })?;
            }
        }
        Ok(ends)
    }

    /// The least and the greatest delay of a link towards one of its ends.
    pub fn delay(&self, link: u32, receiver: u32) -> (u64, u64) {
        match self.links.get(link as usize) {
            Some(entry) if entry.end_b == receiver => (entry.min, entry.max),
            Some(entry) => (entry.back_min, entry.back_max),
            None => (0, 0),
        }
    }

    /// How far the oscillator of a device may drift.
    pub fn rates(&self, d: u32) -> Rates {
        match self.rates.get(d as usize) {
            Some(rates) => *rates,
            None => Rates { ppm: 0, grain: 0 },
        }
    }
}
