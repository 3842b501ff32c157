//! Which premises break with an event of any kind.
ghost use Rattle.std.specs.Prelude.{◌≡◌, ◌∷◌, List};
ghost use Rattle.sd_history.specs.Premises.{breaks};
ghost use Rattle.sd_history.specs.World.{Setting, Seen as Sight};
ghost use Rattle.sd_premise.specs.Order.{CanFollow};
ghost use Rattle.sd_premise.specs.Standing.{CanObserve, StandsFor};
ghost use Rattle.sd_replay.specs.Sights.{sight_by};

use sd_device::msg::Flight;
use sd_fleet::Outcome;
use sd_history::BrokenSet;
use sd_premise::{Premises, Seen};
use sd_sched::Event;

/// The premises see an event that sent these flights, those that reach, and answer which of them
/// break with it.
// Never a part of its caller, which would make the room for what is seen at each event.
#[inline(never)]
pub(crate) fn judge(
    premises: &mut Premises,
    event: &Event,
    outcome: &Outcome,
    sent: &[Flight],
) -> BrokenSet
    requires { CanObserve premises.old (sight_by event.now outcome.now sent.now) }
    ensures stands { (setting : Setting) (earlier : List Sight)
        → CanFollow setting earlier (sight_by event.now outcome.now sent.now)
        → StandsFor premises.old setting earlier
        → StandsFor premises.new setting (sight_by event.now outcome.now sent.now ∷ earlier) }
    ensures breaks { (setting : Setting) (earlier : List Sight)
        → CanFollow setting earlier (sight_by event.now outcome.now sent.now)
        → StandsFor premises.old setting earlier
        → result ≡ breaks setting (sight_by event.now outcome.now sent.now ∷ earlier) }
{
    premises.observe(&Seen {
        event: *event,
        taken: outcome.taken,
        sent,
        activated: outcome.activated,
        acted: outcome.acted,
        closed: outcome.closed,
    })
}
