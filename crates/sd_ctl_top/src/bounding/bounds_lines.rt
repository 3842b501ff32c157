//! The numbers of each member under a domain.
ghost use Rattle.std.specs.Prelude.{◌≡◌, ◌<◌, ◌++◌, All, OnOk, flat_map, length, slice_index_or};
ghost use Rattle.sd_ctl_top.specs.bounding.Printed.{bounds_line};
ghost use Rattle.sd_plan.specs.domain.Lone.{IsDomain};
ghost use Rattle.sd_drill.specs.Bounds.{bound_at};
ghost use Rattle.sd_plan.specs.topo.Topologies.{network};

use crate::bounding::lines::{Numbers, add_line};
use sd_drill::{Budget, Drill, TightDrill, calm_numbers};
use sd_drill_text::domain_lines::DomainLines;
use sd_drill_text::lines::{device_name, domain_named};
use sd_num::NoMemory;
use sd_plan::IndexedPlan;
use sd_plan::domain::DomainId;
use sd_plan::topo::Topology;
use std::alloc::Global;

/// Both drills of a plan, the calm number of each device, and room for what is printed of one
/// domain after another: for each member the number of the drill, the tight one and the calm one in
/// ps, or that it has no bound and the calm one.
#[derive(Drop)]
pub struct BoundsLines {
    drill: Drill,
    tight: TightDrill,
    calm: Vec<u128>,
    text: Vec<u8>,
}

/// What is printed of a domain: which members, and the numbers of all devices.
#[derive(Clone, Copy)]
struct Page<'a> {
    domain: DomainId,
    members: &'a [u32],
    drill: &'a [Option<u128>],
    tight: &'a [Option<u128>],
    calm: &'a [u128],
}

/// The numbers of a device.
fn numbers_of(page: Page<'_>, d: u32) -> Numbers
    requires drill { d < length page.drill.now }
    requires tight { d < length page.tight.now }
    requires calm { d < length page.calm.now }
    ensures drill { result.drill ≡ bound_at page.entry.drill.now d }
    ensures tight { result.tight ≡ bound_at page.entry.tight.now d }
    ensures calm { result.calm ≡ slice_index_or page.entry.calm.now d 0 }
{
    Numbers {
        drill: page.drill[d as usize],
        tight: page.tight[d as usize],
        calm: page.calm[d as usize],
    }
}

/// Adds the lines of a domain, one for each member.
fn add_members(
    alloc: Global,
    text: &mut Vec<u8>,
    topo: &Topology,
    page: Page<'_>,
) -> Result<(), NoMemory>
    requires domain { IsDomain (network topo.now) page.domain }
    requires members { All (λ d. d < length (network topo.now).devices) page.members.now }
    requires drill { length page.drill.now ≡ length (network topo.now).devices }
    requires tight { length page.tight.now ≡ length (network topo.now).devices }
    requires calm { length page.calm.now ≡ length (network topo.now).devices }
    ensures { OnOk result (text.new.items ≡ text.old.items
        ++ flat_map (bounds_line (network topo.now) page.entry.domain page.entry.drill.now
        page.entry.tight.now page.entry.calm.now) page.entry.members.now) }
{
    let named = domain_named(topo, page.domain);
    for d in page.members {
        let numbers = numbers_of(page, *d);
        add_line(alloc, text, named, device_name(topo, *d), numbers)?;
    }
    Ok(())
}

impl DomainLines for BoundsLines {
    ghost use Rattle.sd_ctl_top.specs.bounding.Ready.{IsReady};
    ghost use Rattle.sd_ctl_top.specs.bounding.Printed.{AreLinesOf, IsBounds};
    ghost use Rattle.sd_ctl_top.specs.bounding.Lawful.{bounds_bytes, bounds_end, bounds_exist};

    ghost lines = { AreLinesOf };

    ghost says = { IsBounds };

    ghost ready = { IsReady };

    ghost granted = { λ lines. lines.drill.times.budget };

    ghost printing = { λ lines. lines.text.items };

    ghost ends = { bounds_end };

    ghost has = { bounds_exist };

    ghost whole = { bounds_bytes };

    fn new(
        alloc: Global,
        planned: IndexedPlan<'_>,
        budget: Budget,
    ) -> Result<BoundsLines, NoMemory> {
        let drill = Drill::new(alloc, planned, budget)?;
        let tight = TightDrill::new(alloc, planned, budget)?;
        let calm = calm_numbers(alloc, planned, budget)?;
        Ok(BoundsLines {
            drill,
            tight,
            calm,
            text: Vec::new(alloc),
        })
    }

    fn print(
        &mut self,
        alloc: Global,
        planned: IndexedPlan<'_>,
        members: &[u32],
        domain: DomainId,
    ) -> Result<(), NoMemory> {
        let worst = self.drill.worst(alloc, planned, domain)?;
        let tight = self.tight.tight(alloc, planned, domain)?;
        let page = Page {
            domain,
            members,
            drill: worst.as_slice(),
            tight: tight.as_slice(),
            calm: self.calm.as_slice(),
        };
        self.text.clear();
        add_members(alloc, &mut self.text, planned.topo, page)
    }

    fn printed(&self) -> &[u8] {
        self.text.as_slice()
    }
}
