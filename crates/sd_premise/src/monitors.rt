//! The monitors that take memory.
ghost use Rattle.std.specs.Prelude.{◌≡◌, [], length, IfOk};
ghost use Rattle.sd_plan.specs.topo.Topologies.{network};
ghost use Rattle.sd_plan.specs.domain.Failing.{HasRoomFor};
ghost use Rattle.sd_history.specs.World.{Setting};
ghost use Rattle.sd_monitors.specs.clocks.Memberships.{AreMembers};
ghost use Rattle.sd_monitors.specs.clocks.Drifts.{DriftStands};
ghost use Rattle.sd_monitors.specs.clocks.Tickings.{TickStands};
ghost use Rattle.sd_monitors.specs.loss.rounds.Standing as rounds;
ghost use Rattle.sd_monitors.specs.renewal.Domains.{DomainStands};
ghost use Rattle.sd_monitors.specs.renewal.Progressing.{HasDevices};
ghost use Rattle.sd_monitors.specs.renewal.Renewals.{RenewalStands};

use sd_monitors::clocks::{DriftMonitor, PresentRows, TickMonitor};
use sd_monitors::loss::rounds::Rounds;
use sd_monitors::renewal::{DomainMonitor, RenewalMonitor};
use sd_num::NoMemory;
use sd_plan::topo::Topology;
use std::alloc::Global;

/// The monitors of five of the premises: those of `start` and `delay` take no memory.
#[derive(Drop)]
pub(crate) struct Monitors {
    pub(crate) drift: DriftMonitor,
    pub(crate) tick: TickMonitor,
    pub(crate) loss: Rounds,
    pub(crate) domain: DomainMonitor,
    pub(crate) renew: RenewalMonitor,
}

impl Monitors {
    /// Before any event.
    pub(crate) fn new(
        alloc: Global,
        topo: &Topology,
        members: &PresentRows,
    ) -> Result<Monitors, NoMemory>
        ensures drift_devices { IfOk result (λ monitors. length monitors.drift.lives
            ≡ length (network topo.now).devices) }
        ensures tick_devices { IfOk result (λ monitors. length monitors.tick.owed
            ≡ length (network topo.now).devices) }
        ensures domain_room { IfOk result
            (λ monitors. HasRoomFor (network topo.now) monitors.domain.failed) }
        ensures renew_devices { IfOk result
            (λ monitors. HasDevices (length (network topo.now).devices) monitors.renew.progress) }
        ensures renew_windows { IfOk result (λ monitors. monitors.renew.progress.windows ≡ 0) }
        ensures drift { IfOk result
            (λ monitors. (setting : Setting) → setting.net ≡ network topo.now
            → DriftStands setting monitors.drift []) }
        ensures tick { IfOk result (λ monitors. (setting : Setting) → setting.net ≡ network topo.now
            → AreMembers setting members.now → TickStands setting monitors.tick []) }
        ensures loss { IfOk result (λ monitors. (setting : Setting) → setting.net ≡ network topo.now
            → rounds.StandsFor monitors.loss setting []) }
        ensures domain { IfOk result
            (λ monitors. (setting : Setting) → setting.net ≡ network topo.now
            → DomainStands setting monitors.domain []) }
        ensures renew { IfOk result
            (λ monitors. (setting : Setting) → setting.net ≡ network topo.now
            → RenewalStands setting monitors.renew []) }
    {
        let drift = DriftMonitor::new(alloc, topo)?;
        let tick = TickMonitor::new(alloc, topo, members)?;
        let renew = RenewalMonitor::new(alloc, topo)?;
        let domain = DomainMonitor::new(alloc, topo)?;
        let loss = Rounds::new(alloc, topo)?;
        Ok(Monitors {
            drift,
            tick,
            loss,
            domain,
            renew,
        })
    }
}
