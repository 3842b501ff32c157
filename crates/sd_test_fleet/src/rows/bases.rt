//! How most histories of the triangle begin: all devices start, the root sends once, and its
//! messages reach all.

use super::outcomes::{acting, quiet, sends, takes};
use super::playing::play;
use sd_device::Device;
use sd_device::msg::{Flight, Message, Stamp};
use sd_fleet::{Fleet, Outcome};
use std::process::Abort;
use std::test::Fail;

/// What a device sends as root at the given moment, when its counter is right.
pub(super) fn emission(epoch: u32, round: u64, clock: u128, eps: u128) -> Message {
    Message {
        epoch,
        stamp: Stamp { term: 0, round },
        clock,
        eps,
    }
}

/// The message as it is sent on, one link further.
pub(super) fn relayed(message: Message) -> Message {
    Message {
        clock: message.clock.saturating_add(700_000),
        eps: message.eps.saturating_add(300_000),
        ..message
    }
}

/// Which way a message goes.
#[derive(Clone, Copy)]
pub(super) struct Way {
    pub(super) link: u32,
    pub(super) sender: u32,
    pub(super) receiver: u32,
}

/// From r to b.
pub(super) const RB: Way = Way {
    link: 0,
    sender: 0,
    receiver: 1,
};

/// From r to x.
pub(super) const RX: Way = Way {
    link: 1,
    sender: 0,
    receiver: 2,
};

/// From b to x.
pub(super) const BX: Way = Way {
    link: 2,
    sender: 1,
    receiver: 2,
};

/// From x to b.
pub(super) const XB: Way = Way {
    link: 2,
    sender: 2,
    receiver: 1,
};

/// A message on its way over a link whose greatest delay is 1000000 ps.
pub(super) fn flight(number: u64, way: Way, sent_at: u64, message: Message) -> Flight {
    Flight {
        number,
        link: way.link,
        sender: way.sender,
        receiver: way.receiver,
        sent_at,
        due: sent_at.saturating_add(1_000_000),
        last: sent_at.saturating_add(2_000_000),
        reaches: true,
        message,
    }
}

/// The message that r sends first.
pub(super) fn first_message() -> Message {
    emission(1, 1, 110_000_000, 23_500)
}

/// All devices start, and r sends over its two links.
pub(super) fn begin(
    rt: &(impl AllocGlobal + Abort),
    fleet: &mut Fleet<Device>,
) -> Result<(), Fail> {
    let emits = Outcome {
        acted: true,
        ..sends(1, 2)
    };
    let lines = [
        ("start 0 0 0 0 500", quiet()),
        ("start 0 1 0 0 800000", quiet()),
        ("start 0 2 0 0 800000", quiet()),
        ("tick 90000000 0 90000000", acting()),
        ("tick 90000000 1 90000000", quiet()),
        ("tick 90000000 2 90000000", quiet()),
        ("tick 110000000 0 110000000", emits),
    ];
    play(rt, fleet, &lines)
}

/// Both messages of r are received, and each goes on to the other device.
pub(super) fn relay(
    rt: &(impl AllocGlobal + Abort),
    fleet: &mut Fleet<Device>,
) -> Result<(), Fail> {
    let to_b = Outcome {
        taken: Some(flight(1, RB, 110_000_000, first_message())),
        ..sends(3, 1)
    };
    let to_x = Outcome {
        taken: Some(flight(2, RX, 110_000_000, first_message())),
        ..sends(4, 1)
    };
    play(
        rt,
        fleet,
        &[
            ("recv 110700000 1 110700000 1", to_b),
            ("recv 111000000 2 111000000 2", to_x),
        ],
    )
}

/// What b and x sent on is received, and is no news.
pub(super) fn ignore_relayed(
    rt: &(impl AllocGlobal + Abort),
    fleet: &mut Fleet<Device>,
) -> Result<(), Fail> {
    let message = relayed(first_message());
    let to_x = takes(flight(3, BX, 110_700_000, message));
    let to_b = takes(flight(4, XB, 111_000_000, message));
    play(
        rt,
        fleet,
        &[
            ("recv 111400000 2 111400000 3", to_x),
            ("recv 111700000 1 111700000 4", to_b),
        ],
    )
}

/// The first eleven lines: all devices have started, and have heard from r once.
pub(super) fn settle(
    rt: &(impl AllocGlobal + Abort),
    fleet: &mut Fleet<Device>,
) -> Result<(), Fail> {
    begin(rt, fleet)?;
    relay(rt, fleet)?;
    ignore_relayed(rt, fleet)
}
