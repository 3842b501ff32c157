//! A period that is too short for the delays, whatever the waits are.
ghost use Rattle.std.specs.Prelude.{◌≡◌, ◌↔◌, IfSome, IsTrue};
ghost use Rattle.sd_plan.specs.topo.Topologies.{network};
ghost use Rattle.sd_why.specs.Kinds as kind;
ghost use Rattle.sd_why.specs.Reasons.{Judges};
ghost use Rattle.sd_why.specs.Plans.{HasNoPlan};

use crate::Reason;
use sd_num::low;
use sd_plan::topo::Topology;

/// What a period has to exceed: the longest way there and back, and a tick.
fn round_trip(topo: &Topology) -> u128
    ensures { result ≡ kind.round_trip (network topo.now) }
{
    let params = topo.params();
    let delay = u128::from(topo.greatest_delay());
    2 * (u128::from(params.depth) + 1) * delay + u128::from(params.tick)
}

/// Whether the counter of some device may advance by a period within that time.
fn is_rushed(topo: &Topology) -> bool
    ensures { IsTrue result ↔ kind.IsRushed (network topo.now) }
{
    let needed = round_trip(topo);
    let period = topo.params().period;
    for d in 0..topo.devices() {
        if u128::from(low(topo.rates(d), period)) <= needed {
            return true;
        }
    }
    false
}

/// That the first rule of timing is broken, where it is so: no wait stands in it.
pub fn short_period(topo: &Topology) -> Option<Reason>
    ensures judges { Judges (network topo.now) kind.timing result }
    ensures law { IfSome result (λ reason. HasNoPlan (network topo.now)) }
{
    if is_rushed(topo) {
        Some(Reason::Timing)
    } else {
        None
    }
}
