//! The premise on failures: all that failed since the latest closing of a window lies in one fault
//! domain, at each event.
ghost use Rattle.std.specs.Prelude.{◌≡◌, ◌∷◌, [], List, IfSome, IfOk};
ghost use Rattle.sd_plan.specs.topo.Topologies.{network};
ghost use Rattle.sd_plan.specs.domain.Failing.{HasRoomFor};
ghost use Rattle.sd_plan.specs.domain.Failures.{HasRoom};
ghost use Rattle.sd_history.specs.Things as things;
ghost use Rattle.sd_history.specs.World.{Setting, Seen as Sight};
ghost use Rattle.sd_history.specs.Premises.{domain_holds};
ghost use Rattle.sd_monitors.specs.clocks.Sights.{sight_of};
ghost use Rattle.sd_monitors.specs.renewal.Domains.{with_failure, if_closed, DomainStands};

use crate::clocks::Seen;
use sd_num::NoMemory;
use sd_plan::domain::{Failure, within_one};
use sd_plan::topo::{Thing, Topology};
use sd_world::world::failure_of;
use std::alloc::Global;
use std::marker::Model;

/// Whether the premise on failures has held so far, and what failed since the latest closing of a
/// window, mended or not. Only `new` takes memory.
#[derive(Drop)]
pub struct DomainMonitor {
    failed: Failure,
    holds: bool,
}

impl Model for DomainMonitor {
    ghost use Rattle.sd_monitors.specs.renewal.Domains.{DomainKept, domain_code};

    ghost Value = { DomainKept };

    ghost coded = { domain_code };

    ghost use Rattle.sd_monitors.specs.renewal.DomainView.{domain_kept};

    ghost view = { domain_kept };
}

impl DomainMonitor {
    /// A monitor that has seen nothing of the things of a topology.
    pub fn new(alloc: Global, topo: &Topology) -> Result<DomainMonitor, NoMemory>
        ensures room { IfOk result (λ monitor. HasRoomFor (network topo.now) monitor.failed) }
        ensures stands { IfOk result
            (λ monitor. (setting : Setting) → setting.net ≡ network topo.now
            → DomainStands setting monitor []) }
    {
        let failed = Failure::new(alloc, topo)?;
        Ok(DomainMonitor {
            failed,
            holds: true,
        })
    }

    /// Sees one event more, and tells whether the premise holds still.
    pub fn observe(&mut self, topo: &Topology, seen: &Seen<'_>) -> bool
        requires { IfSome (things.failure_of seen.now.event) (HasRoom self.old.failed) }
        ensures stands { (setting : Setting) (earlier : List Sight) → setting.net ≡ network topo.now
            → DomainStands setting self.old earlier
            → DomainStands setting self.new (sight_of seen.now ∷ earlier) }
        ensures holds { (setting : Setting) (earlier : List Sight) → setting.net ≡ network topo.now
            → DomainStands setting self.old earlier
            → result ≡ domain_holds setting (sight_of seen.now ∷ earlier) }
        ensures room { HasRoomFor (network topo.now) self.old.failed
            → HasRoomFor (network topo.now) self.new.failed }
    {
        self.fail(topo, failure_of(&seen.event));
        self.close_if(seen.closed);
        self.holds
    }

    /// What failed since the latest closing of a window, mended or not.
    pub fn failed(&self) -> &Failure
        ensures { result.now ≡ self.now.failed }
    {
        &self.failed
    }

    /// The thing fails, if there is one, and all that failed is judged.
    fn fail(&mut self, topo: &Topology, thing: Option<Thing>)
        requires { IfSome thing (HasRoom self.old.failed) }
        ensures { self.new ≡ with_failure (network topo.now) thing self.old }
    {
        if let Some(thing) = thing {
            self.failed.add(thing);
            self.holds = self.holds && within_one(topo, &self.failed).is_some();
        }
    }

    /// The window closes, or does not.
    fn close_if(&mut self, closed: bool)
        ensures { self.new ≡ if_closed closed self.old }
    {
        if closed {
            self.failed.clear();
        }
    }
}
