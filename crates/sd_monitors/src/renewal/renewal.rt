//! The premise on renewals: a window between two plans is prepared, committed, sealed and closed in
//! order.
ghost use Rattle.std.specs.Prelude.{◌≡◌, ◌+◌, ◌<◌, ◌≤◌, ◌^◌, ◌∷◌, [], List, length, IsTrue, IfSome, IfOk};
ghost use Rattle.sd_plan.specs.topo.Topologies.{network};
ghost use Rattle.sd_sched.specs.Events.{device_of};
ghost use Rattle.sd_history.specs.World.{Setting, Seen as Sight};
ghost use Rattle.sd_history.specs.Premises.{renew_holds};
ghost use Rattle.sd_history.specs.Open.{may_be_seen};
ghost use Rattle.sd_monitors.specs.clocks.Sights.{sight_of};
ghost use Rattle.sd_monitors.specs.renewal.Moments.{IsMomentOf};
ghost use Rattle.sd_monitors.specs.renewal.Progressing.{HasDevices};
ghost use Rattle.sd_monitors.specs.renewal.Renewals.{RenewalStands};

use crate::clocks::Seen;
use crate::renewal::Moment;
use crate::renewal::judge::Judge;
use crate::renewal::progress::Progress;
use sd_num::NoMemory;
use sd_plan::topo::Topology;
use std::alloc::Global;
use std::marker::Model;

/// Whether the premise on renewals has held so far, and how far the open window has come. Only
/// `new` takes memory.
#[derive(Drop)]
pub struct RenewalMonitor {
    progress: Progress,
    holds: bool,
}

impl Model for RenewalMonitor {
    ghost use Rattle.sd_monitors.specs.renewal.Renewals.{RenewalKept};

    ghost Value = { RenewalKept };

    ghost use Rattle.sd_monitors.specs.renewal.RenewalView.{renewal_kept};

    ghost view = { renewal_kept };
}

impl RenewalMonitor {
    /// A monitor that has seen nothing of the devices of a topology.
    pub fn new(alloc: Global, topo: &Topology) -> Result<RenewalMonitor, NoMemory>
        ensures devices { IfOk result
            (λ monitor. HasDevices (length (network topo.now).devices) monitor.progress) }
        ensures few { IfOk result (λ monitor. monitor.progress.windows ≡ 0) }
        ensures stands { IfOk result
            (λ monitor. (setting : Setting) → setting.net ≡ network topo.now
            → RenewalStands setting monitor []) }
    {
        let progress = Progress::new(alloc, topo.devices())?;
        Ok(RenewalMonitor {
            progress,
            holds: true,
        })
    }

    /// Sees one event more, at the moment before it, and tells whether the premise holds still.
    pub fn observe(&mut self, before: Moment<'_>, seen: &Seen<'_>) -> bool
        requires devices { HasDevices (length (network before.topo.now).devices) self.old.progress }
        requires device { IfSome (device_of seen.now.event)
            (λ d. d < length (network before.topo.now).devices) }
        requires activated { IfSome seen.now.activated
            (λ d. d < length (network before.topo.now).devices) }
        requires few { self.old.progress.windows < 2 ^ 63 }
        ensures stands { (setting : Setting) (earlier : List Sight)
            → IsMomentOf before.entry setting earlier
            → IsTrue (may_be_seen setting earlier seen.now.event)
            → RenewalStands setting self.old earlier
            → RenewalStands setting self.new (sight_of seen.now ∷ earlier) }
        ensures holds { (setting : Setting) (earlier : List Sight)
            → IsMomentOf before.entry setting earlier
            → IsTrue (may_be_seen setting earlier seen.now.event)
            → RenewalStands setting self.old earlier
            → result ≡ renew_holds setting (sight_of seen.now ∷ earlier) }
        ensures devices { HasDevices (length (network before.entry.topo.now).devices)
            self.new.progress }
        ensures few { self.new.progress.windows ≤ self.old.progress.windows + 1 }
    {
        let judge = Judge {
            moment: before,
            progress: &self.progress,
        };
        self.holds = self.holds && judge.is_orderly(seen);
        self.progress.observe(seen);
        self.holds
    }
}
