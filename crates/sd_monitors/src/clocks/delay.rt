//! The premise on delays: each message that is received has an age within the bounds of its link.
ghost use Rattle.std.specs.Prelude.{◌≡◌, ◌<◌, ◌∷◌, [], List, Some, length};
ghost use Rattle.std.specs.Option.{ForSome};
ghost use Rattle.sd_plan.specs.topo.Topologies.{network};
ghost use Rattle.sd_plan.specs.topo.Network.{delay_towards};
ghost use Rattle.sd_sched.specs.Events.{reference_of};
ghost use Rattle.sd_history.specs.World.{Setting, Seen as Sight};
ghost use Rattle.sd_history.specs.Premises.{is_in_time, delay_holds};
ghost use Rattle.sd_monitors.specs.clocks.Sights.{sight_of};
ghost use Rattle.sd_monitors.specs.clocks.Delays.{DelayStands};

use crate::clocks::Seen;
use sd_device::msg::Flight;
use sd_plan::topo::{Delay, LinkEntry, Topology};
use std::marker::Model;

/// Whether the premise on delays has held so far.
#[derive(Drop)]
pub struct DelayMonitor {
    holds: bool,
}

impl Model for DelayMonitor {
    ghost use Rattle.std.specs.Prelude.{Bool};

    ghost Value = { Bool };

    ghost view = { λ monitor. monitor.holds };
}

/// The delay bounds of the link's direction towards the receiver, which is taken for its first end
/// where it is not its second.
fn delay_towards(link: LinkEntry, receiver: u32) -> Delay
    ensures { result ≡ delay_towards link receiver }
{
    if receiver == link.end_b {
        Delay {
            min: link.min,
            max: link.max,
        }
    } else {
        Delay {
            min: link.back_min,
            max: link.back_max,
        }
    }
}

/// Whether a flight that is received at the reference keeps the bounds of its link.
fn keeps_bounds(topo: &Topology, reference: u64, flight: &Flight) -> bool
    requires { flight.now.link < length (network topo.now).links }
    ensures { (setting : Setting) → setting.net ≡ network topo.now
        → result ≡ is_in_time setting reference flight.now }
{
    let delay = delay_towards(topo.link(flight.link), flight.receiver);
    // No flight is received before it was sent.
    let age = reference.saturating_sub(flight.sent_at);
    delay.min <= age && age <= delay.max
}

impl DelayMonitor {
    /// A monitor that has seen nothing.
    pub fn new() -> DelayMonitor
        ensures { (setting : Setting) → DelayStands setting result [] }
    {
        DelayMonitor { holds: true }
    }

    /// Sees one event more, and tells whether the premise holds still.
    pub fn observe(&mut self, topo: &Topology, seen: &Seen<'_>) -> bool
        requires { ForSome seen.now.taken
            (λ flight. flight.link < length (network topo.now).links) }
        ensures stands { (setting : Setting) (earlier : List Sight) → setting.net ≡ network topo.now
            → DelayStands setting self.old earlier
            → DelayStands setting self.new (sight_of seen.now ∷ earlier) }
        ensures holds { (setting : Setting) (earlier : List Sight) → setting.net ≡ network topo.now
            → DelayStands setting self.old earlier
            → result ≡ delay_holds setting (sight_of seen.now ∷ earlier) }
    {
        match &seen.taken {
            Some(flight) => self.read(topo, seen.event.reference(), flight),
            None => self.holds,
        }
    }

    /// Sees a flight that is received at a reference, and tells whether the premise holds still.
    #[inline(always)]
    pub fn read(&mut self, topo: &Topology, reference: u64, flight: &Flight) -> bool
        requires { flight.now.link < length (network topo.now).links }
        ensures stands { (setting : Setting) (earlier : List Sight) (s : Sight)
            → setting.net ≡ network topo.now
            → reference_of s.event ≡ reference → s.taken ≡ Some flight.now
            → DelayStands setting self.old earlier → DelayStands setting self.new (s ∷ earlier) }
        ensures holds { (setting : Setting) (earlier : List Sight) (s : Sight)
            → setting.net ≡ network topo.now
            → reference_of s.event ≡ reference → s.taken ≡ Some flight.now
            → DelayStands setting self.old earlier → result ≡ delay_holds setting (s ∷ earlier) }
    {
        self.holds = self.holds && keeps_bounds(topo, reference, flight);
        self.holds
    }
}
