//! Callers of a node: of any kind, and of a device.

ghost use Rattle.std.specs.Prelude.{◌≡◌, ◌≤◌, ◌^◌, true};
ghost use Rattle.sd_device.specs.Limits.{IsDuty};
ghost use Rattle.sd_device.specs.Calls.{Started, Tick};
ghost use Rattle.sd_device.specs.Words.{is_acting};
ghost use Rattle.sd_device.specs.Lives.{past_of, longer};
ghost use Rattle.sd_device.specs.Standing.{alone};

use sd_device::{Device, Node};
use sd_plan::Duty;

/// The parent of a node that acts: it has none.
pub(super) fn parent_of_acting<N: Node>(node: &N) -> Option<u32>
    requires { N.acts node.now ≡ true }
    ensures { result ≡ None }
{
    node.parent()
}

/// Whether a device acts after two ticks, as the words on its life say.
pub(super) fn acts_after_ticks(duty: Duty, first: u64, second: u64) -> bool
    requires duty { IsDuty duty }
    requires order { first ≤ second }
    requires counter { second ≤ 2 ^ 60 }
    ensures { result
        ≡ is_acting (past_of
        (longer (longer (alone (Started duty 0 0 0)) (Tick first)) (Tick second))) }
{
    let mut device = Device::start(duty, 0, 0, 0);
    let _ = device.on_tick(first);
    let _ = device.on_tick(second);
    device.acts_as_root()
}
