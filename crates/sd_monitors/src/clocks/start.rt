//! The premise on starts: the clock that a start, join or fix sets is within its uncertainty.
ghost use Rattle.std.specs.Prelude.{◌≡◌, ◌∷◌, [], List};
ghost use Rattle.sd_history.specs.World.{Seen as Sight};
ghost use Rattle.sd_sched.specs.Honesty.{clock_set, sets_true_clock};
ghost use Rattle.sd_history.specs.Premises.{start_holds};
ghost use Rattle.sd_monitors.specs.clocks.Sights.{sight_of};
ghost use Rattle.sd_monitors.specs.clocks.Starts.{StartStands};

use crate::clocks::Seen;
use sd_sched::Event;
use std::marker::Model;

/// Whether the premise on starts has held so far.
#[derive(Drop)]
pub struct StartMonitor {
    holds: bool,
}

impl Model for StartMonitor {
    ghost use Rattle.std.specs.Prelude.{Bool};

    ghost Value = { Bool };

    ghost view = { λ monitor. monitor.holds };
}

/// The clock that the event sets and its uncertainty, in ps.
fn clock_set_by(event: &Event) -> Option<(u64, u64)>
    ensures { result ≡ clock_set event.now }
{
    match *event {
        Event::Start { clock, eps, .. }
        | Event::Fix { clock, eps, .. }
        | Event::Join { clock, eps, .. } => Some((clock, eps)),
        _ => None,
    }
}

/// Whether the clock that the event sets, if it sets one, is within its uncertainty.
fn sets_true_clock(seen: &Seen<'_>) -> bool
    ensures { result ≡ sets_true_clock (sight_of seen.now).event }
{
    match clock_set_by(&seen.event) {
        Some((clock, eps)) => clock.abs_diff(seen.event.reference()) <= eps,
        None => true,
    }
}

impl StartMonitor {
    /// A monitor that has seen nothing.
    pub fn new() -> StartMonitor
        ensures { StartStands result [] }
    {
        StartMonitor { holds: true }
    }

    /// Sees one event more, and tells whether the premise holds still.
    pub fn observe(&mut self, seen: &Seen<'_>) -> bool
        ensures stands { (earlier : List Sight) → StartStands self.old earlier
            → StartStands self.new (sight_of seen.now ∷ earlier) }
        ensures holds { (earlier : List Sight) → StartStands self.old earlier
            → result ≡ start_holds (sight_of seen.now ∷ earlier) }
    {
        self.holds = self.holds && sets_true_clock(seen);
        self.holds
    }
}
