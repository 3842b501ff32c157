//! A device that no links lead to.
ghost use Rattle.std.specs.Prelude.{◌≡◌, ◌<◌, ◌^◌, find, IfOk, IfSome, None, length};
ghost use Rattle.sd_num.specs.Lists.{below};
ghost use Rattle.sd_plan.specs.Plans.{nothing_absent};
ghost use Rattle.sd_planner.specs.Views.{net_of, left_out};
ghost use Rattle.sd_why.specs.Kinds as kind;
ghost use Rattle.sd_why.specs.Kinds.{IsConnected};
ghost use Rattle.sd_why.specs.Reasons.{Judges};
ghost use Rattle.sd_why.specs.Plans.{HasNoPlan};
ghost use Rattle.sd_why.specs.Rings.{is_unknown};

use crate::Reason;
use crate::ways::distances;
use sd_num::NoMemory;
use sd_planner::Present;
use std::alloc::Global;

/// The first device of which no distance is known.
fn first_unknown(known: &[Option<u32>]) -> Option<u32>
    requires { (length known.now < 2 ^ 32) }
    ensures { result ≡ find (is_unknown known.now) (below (length known.now)) }
{
    for d in 0..known.len() {
        if known[d].is_none() {
            return Some(d as u32);
        }
    }
    None
}

/// The first device that no links join to the first one, if there is one: no walk leads to the root
/// from both.
pub fn apart_device(alloc: Global, present: &Present) -> Result<Option<Reason>, NoMemory>
    requires whole { left_out present.now ≡ nothing_absent }
    ensures judges { IfOk result (Judges (net_of present.now) kind.apart) }
    ensures connected { IfOk result (λ found. found ≡ None → IsConnected (net_of present.now)) }
    ensures law { IfOk result (λ found. IfSome found (λ reason. HasNoPlan (net_of present.now))) }
{
    let known = distances(alloc, present, 0)?;
    match first_unknown(&known) {
        Some(d) => Ok(Some(Reason::Apart(d))),
        None => Ok(None),
    }
}
