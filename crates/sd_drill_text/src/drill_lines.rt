//! The lines of a drill.
ghost use Rattle.std.specs.Prelude.{◌≡◌, ◌<◌, All, length, slice_index_or, flat_map, None, OnOk};
ghost use Rattle.sd_drill_text.specs.Endings.{AreEndings};
ghost use Rattle.sd_plan.specs.domain.Lone.{IsDomain};
ghost use Rattle.sd_drill.specs.Printed.{bound_line};
ghost use Rattle.sd_plan.specs.topo.Topologies.{network};

use crate::domain_lines::DomainLines;
use crate::lines::domain_named;
use crate::page::Page;
use sd_drill::{Budget, Drill};
use sd_num::NoMemory;
use sd_plan::IndexedPlan;
use sd_plan::domain::DomainId;
use sd_plan::topo::Topology;
use std::alloc::Global;

/// A drill, and room for what is printed of one domain after another: for each member the greatest
/// epsilon in ps that it can report when the things of the domain fail, or that it has no bound.
#[derive(Drop)]
pub struct DrillLines {
    drill: Drill,
    page: Page,
}

/// The bound of a device.
fn bound_of(bounds: &[Option<u128>], d: u32) -> Option<u128>
    requires { d < length bounds.now }
    ensures { result ≡ slice_index_or bounds.now d None }
{
    bounds[d as usize]
}

/// Prints the lines of a domain, one for each member.
fn print_domain(
    page: &mut Page,
    topo: &Topology,
    members: &[u32],
    domain: DomainId,
    bounds: &[Option<u128>],
) -> Result<(), NoMemory>
    requires domain { IsDomain (network topo.now) domain }
    requires members { All (λ d. d < length (network topo.now).devices) members.now }
    requires bounds { length bounds.now ≡ length (network topo.now).devices }
    requires endings { AreEndings (network topo.now) page.old.endings.items }
    ensures lines { OnOk result (page.new.text.items
        ≡ flat_map (bound_line (network topo.now) domain bounds.now) members.now) }
    ensures endings { AreEndings (network topo.now) page.new.endings.items }
{
    page.begin(domain_named(topo, domain));
    for d in members {
        page.add(topo, *d, bound_of(bounds, *d))?;
    }
    Ok(())
}

impl DomainLines for DrillLines {
    ghost use Rattle.sd_drill_text.specs.Ready.{IsReady};
    ghost use Rattle.sd_drill_text.specs.Drilled.{drill_bytes, drill_ends, drill_has};
    ghost use Rattle.sd_drill.specs.Printed.{IsDrill, IsLinesOf};

    ghost lines = { IsLinesOf };

    ghost says = { IsDrill };

    ghost ready = { IsReady };

    ghost granted = { λ lines. lines.drill.times.budget };

    ghost printing = { λ lines. lines.page.text.items };

    ghost ends = { drill_ends };

    ghost has = { drill_has };

    ghost whole = { drill_bytes };

    fn new(
        alloc: Global,
        planned: IndexedPlan<'_>,
        budget: Budget,
    ) -> Result<DrillLines, NoMemory> {
        let drill = Drill::new(alloc, planned, budget)?;
        let page = Page::new(alloc, planned.topo)?;
        Ok(DrillLines { drill, page })
    }

    fn print(
        &mut self,
        alloc: Global,
        planned: IndexedPlan<'_>,
        members: &[u32],
        domain: DomainId,
    ) -> Result<(), NoMemory> {
        let bounds = self.drill.worst(alloc, planned, domain)?;
        print_domain(
            &mut self.page,
            planned.topo,
            members,
            domain,
            bounds.as_slice(),
        )
    }

    fn printed(&self) -> &[u8] {
        self.page.text.as_slice()
    }
}
