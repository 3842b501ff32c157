//! A device that is taken apart and put together again, beside values worked out by hand.
ghost use Rattle.std.specs.Prelude.{◌≡◌, ◌≤◌, ◌<◌, ◌+◌, ◌^◌, max};
ghost use Rattle.sd_device.specs.Rules.{floor_in, ceiling_in, height_in};

use crate::same::assert_same;
use sd_device::msg::{Message, Stamp};
use sd_device::{Device, Effect, Mode, Node, Registers};
use sd_num::clock::{Estimate, Report};
use sd_num::{Bounds, Rates};
use sd_plan::{Duty, Edge, Role};
use std::process::Abort;

const RATES: Rates = Rates {
    ppm: 200,
    grain: 1_000,
};

const BOUNDS: Bounds = Bounds { mid: 7, half: 3 };

/// A backup root of the first plan, over link 0 below device 0, or over link 2 below device 2.
const STANDBY: Duty = Duty {
    epoch: 1,
    role: Role::BackupRoot,
    primary: Some(Edge {
        parent: 0,
        link: 0,
        bounds: BOUNDS,
    }),
    backup: Some(Edge {
        parent: 2,
        link: 2,
        bounds: BOUNDS,
    }),
    period: 100,
    wait_first: 300,
    wait_second: 200,
    wait: 900,
    rates: RATES,
};

/// Any other device of the second plan, over link 5 below device 4.
const FOLLOWER: Duty = Duty {
    epoch: 2,
    role: Role::Ordinary,
    primary: Some(Edge {
        parent: 4,
        link: 5,
        bounds: BOUNDS,
    }),
    backup: None,
    period: 100,
    wait_first: 300,
    wait_second: 200,
    wait: 900,
    rates: RATES,
};

/// What the standby keeps after it heard at 120, moved at 420 and was given the follower's duty.
const KEPT: Registers = Registers {
    duty: Some(STANDBY),
    given: Some(FOLLOWER),
    mode: Mode::Backup,
    sealed: true,
    stamp: Stamp { term: 0, round: 1 },
    last: 420,
    sent: 0,
    estimate: Estimate {
        clock: 117,
        base: 53,
        at: 120,
    },
    rates: RATES,
};

/// A tick. What is sent is compared, so no more is promised than the next call needs.
fn tick(device: &mut Device, counter: u64) -> Effect
    requires floor { floor_in device.old ≤ counter }
    requires counter { counter ≤ 2 ^ 60 }
    requires ceiling { ceiling_in device.old < 2 ^ 100 }
    requires height { height_in device.old < 2 ^ 31 }
    ensures floor { floor_in device.new ≤ counter }
    ensures ceiling { ceiling_in device.new ≤ ceiling_in device.old }
    ensures height { height_in device.new ≤ height_in device.old + 1 }
{
    device.on_tick(counter)
}

/// A message of a plan comes with a stamp and a clock, in the same way.
fn hear(device: &mut Device, link: u32, message: Message, counter: u64) -> Effect
    requires floor { floor_in device.old ≤ counter }
    requires counter { counter ≤ 2 ^ 60 }
    requires ceiling { ceiling_in device.old < 2 ^ 100 }
    requires clock { message.clock < 2 ^ 60 }
    requires eps { message.eps < 2 ^ 60 }
    requires height { height_in device.old < 2 ^ 31 }
    requires term { message.stamp.term < 2 ^ 20 }
    requires round { message.stamp.round < 2 ^ 20 }
    ensures floor { floor_in device.new ≤ counter }
    ensures ceiling { ceiling_in device.new ≤ max (ceiling_in device.old) (2 ^ 60) + 2 ^ 41 }
    ensures height { height_in device.new ≤ max (height_in device.old) (2 ^ 20) }
{
    device.on_message(link, message, counter)
}

/// The standby before any call.
fn started() -> Device
    ensures floor { floor_in result ≤ 0 }
    ensures ceiling { ceiling_in result ≤ 2 ^ 60 }
    ensures height { height_in result ≡ 0 }
{
    Device::start(STANDBY, 0, 0, 500)
}

/// It is given the follower's duty.
fn give(device: &mut Device)
    ensures floor { floor_in device.new ≡ floor_in device.old }
    ensures ceiling { ceiling_in device.new ≤ ceiling_in device.old }
    ensures height { height_in device.new ≤ height_in device.old }
{
    device.on_give(FOLLOWER);
}

fn moved() -> Device
    ensures floor { floor_in result ≤ 420 }
    ensures ceiling { ceiling_in result < 2 ^ 99 }
    ensures height { height_in result ≤ 2 ^ 20 + 1 }
{
    let heard = Message {
        epoch: 1,
        stamp: Stamp { term: 0, round: 1 },
        clock: 110,
        eps: 50,
    };
    let mut device = started();
    let _: Effect = hear(&mut device, 0, heard, 120);
    let _: Effect = tick(&mut device, 420);
    give(&mut device);
    device
}

/// What it reports. It is compared, so nothing is promised.
fn report(device: &Device, counter: u64) -> Report
    requires floor { floor_in device.now ≤ counter }
    requires counter { counter ≤ 2 ^ 60 }
    requires ceiling { ceiling_in device.now < 2 ^ 100 }
{
    device.report(counter)
}

/// What it says of itself: its parent, and whether it was given a duty, acts, and may move.
fn standing(device: &Device) -> (Option<u32>, bool, bool, bool) {
    (
        device.parent(),
        device.is_given(),
        device.acts_as_root(),
        device.is_sealed(),
    )
}

/// What it answers, and to the calls that follow: it takes over, and then enters the second plan.
fn assert_goes_on(rt: &impl Abort, device: &mut Device)
    requires floor { floor_in device.old ≤ 420 }
    requires ceiling { ceiling_in device.old < 2 ^ 99 }
    requires height { height_in device.old ≤ 2 ^ 20 + 1 }
{
    assert_same(rt, standing(device), (Some(2), true, false, true));
    assert_same(
        rt,
        report(device, 500),
        Report {
            clock: 497,
            eps: 1_054,
        },
    );
    assert_same(rt, tick(device, 619), Effect::Quiet);
    assert_same(
        rt,
        tick(device, 620),
        sends(1, Stamp { term: 1, round: 1 }, 617, 1_054),
    );
    assert_same(rt, standing(device), (None, true, true, true));
    let second = Message {
        epoch: 2,
        stamp: Stamp { term: 1, round: 4 },
        clock: 640,
        eps: 50,
    };
    assert_same(
        rt,
        hear(device, 5, second, 650),
        sends(2, second.stamp, 647, 53),
    );
    assert_same(rt, standing(device), (Some(4), false, false, false));
}

fn sends(epoch: u32, stamp: Stamp, clock: u128, eps: u128) -> Effect {
    Effect::Send(Message {
        epoch,
        stamp,
        clock,
        eps,
    })
}

/// The device that goes on as another, of which it has the registers.
fn again(device: &Device) -> Device
    ensures { result ≡ device.now }
{
    Device::with_registers(device.registers())
}

/// It keeps what it is to keep. That is compared, so nothing is promised.
fn assert_kept(rt: &impl Abort, device: &Device) {
    assert_same(rt, device.registers(), KEPT);
}

#[test]
fn goes_on_after_it_was_put_together_again(rt: HostRuntime) {
    let mut device = moved();
    assert_kept(&rt, &device);
    let mut again = again(&device);
    assert_kept(&rt, &again);
    assert_goes_on(&rt, &mut device);
    assert_goes_on(&rt, &mut again);
}
