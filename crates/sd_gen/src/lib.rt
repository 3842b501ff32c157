//! Networks and schedules from a number: what the generated case happens over, and what happens; and
//! the command `case` (`command`).
#![tactic(auto)]

ghost use Rattle.std.specs.Prelude.{◌≡◌, ◌≤◌, ◌<◌, ◌^◌, [], length, reverse, IfOk};
ghost use Rattle.sd_plan.specs.topo.Limits.{IsNetwork};
ghost use Rattle.sd_plan.specs.topo.Topologies.{network};
ghost use Rattle.sd_world.specs.membership.Plans.{AreSound};
ghost use Rattle.sd_history.specs.World.{Setting};
ghost use Rattle.sd_history.specs.Chronicle.{IsHistory};
ghost use Rattle.sd_gen.specs.Drafts.{history_of};
ghost use Rattle.sd_gen.specs.Schedules.{schedule};
ghost use Rattle.sd_gen.specs.Driving.{HasHappened};

pub mod arrivals;
mod asks;
pub mod command;
mod driven;
mod driver;
pub mod fabric;
mod list;
mod posting;
mod receipts;
mod recording;
mod rounds;
mod turns;

pub use crate::fabric::{fabric_text, fabric_topology};
pub use driven::Driven;
use driver::Driver;
pub use list::EventList;
use recording::Recording;
use sd_num::NoMemory;
use sd_plan::Plan;
use sd_plan::topo::Topology;
use std::alloc::Global;

/// How many rounds a case has.
const ROUNDS: u64 = 200;

/// Drives a fleet of devices through the schedule of a case: what happens over a network in 200
/// rounds of 50 microseconds, one device failing and a second plan being brought in meanwhile, as
/// far as the fleet accepts it.
///
/// The words that are drawn are those of `Pcg32`, seeded with the number. The generated case has
/// two plans, of which the second leaves out the first device.
pub fn drive_schedule<D: Driven>(alloc: Global, driven: D, number: u64) -> Result<D, NoMemory>
    ensures { IfOk result (λ after. (setting : Setting) → IsNetwork setting.net
        → D.stands driven setting []
        → HasHappened D.stands after setting (history_of setting number)) }
{
    let mut driver = Driver::new(alloc, driven, number)?;
    driver.start_all(alloc)?;
    for before in 0..ROUNDS {
        driver.round(alloc, before + 1)?;
    }
    Ok(driver.into_driven())
}

/// The schedule of a case over a network and plans, by a fleet of their own.
pub fn make_schedule(
    alloc: Global,
    topo: &Topology,
    plans: &[Plan],
    number: u64,
) -> Result<EventList, NoMemory>
    requires some { 1 ≤ length plans.now }
    requires count { length plans.now < 2 ^ 32 }
    requires sound { AreSound (network topo.now) plans.now }
    ensures events { IfOk result
        (λ events. events
        ≡ schedule (record { net = network topo.now; plans = plans.now }) number) }
    // a fleet of devices accepts each of them after those before it
    ensures history { IfOk result
        (λ events. IsHistory (record { net = network topo.now; plans = plans.now })
        (reverse events)) }
{
    let recording = Recording::new(alloc, topo, plans)?;
    let recording = drive_schedule(alloc, recording, number)?;
    Ok(recording.into_events())
}
