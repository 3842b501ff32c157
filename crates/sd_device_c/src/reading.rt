//! From plain structs to what they hold.
ghost use Rattle.std.specs.Prelude.{◌≡◌};
ghost use Rattle.sd_device_c.specs.Plain.{wide_from, rates_from, stamp_from, estimate_from, message_from, role_from, mode_from, edge_from, duty_from, held_from, kept};

use crate::plain::{
    PlainDevice, PlainDuty, PlainEdge, PlainEstimate, PlainMessage, PlainRates, PlainStamp,
    PlainWide,
};
use sd_device::msg::{Message, Stamp};
use sd_device::{Mode, Registers};
use sd_num::clock::Estimate;
use sd_num::{Bounds, Rates};
use sd_plan::{Duty, Edge, Role};

const TWO_64: u128 = 1 << 64;

#[inline(always)]
pub(crate) fn wide(plain: PlainWide) -> u128
    ensures { result ≡ wide_from plain }
{
    u128::from(plain.high) * TWO_64 + u128::from(plain.low)
}

#[inline(always)]
pub(crate) fn rates(plain: PlainRates) -> Rates
    ensures { result ≡ rates_from plain }
{
    Rates {
        ppm: plain.ppm,
        grain: plain.grain,
    }
}

#[inline(always)]
fn stamp(plain: PlainStamp) -> Stamp
    ensures { result ≡ stamp_from plain }
{
    Stamp {
        term: plain.term,
        round: plain.round,
    }
}

#[inline(always)]
fn estimate(plain: PlainEstimate) -> Estimate
    ensures { result ≡ estimate_from plain }
{
    Estimate {
        clock: wide(plain.clock),
        base: wide(plain.base),
        at: plain.at,
    }
}

#[inline(always)]
pub(crate) fn message(plain: PlainMessage) -> Message
    ensures { result ≡ message_from plain }
{
    Message {
        epoch: plain.epoch,
        stamp: stamp(plain.stamp),
        clock: wide(plain.clock),
        eps: wide(plain.eps),
    }
}

#[inline(always)]
fn role(byte: u8) -> Option<Role>
    ensures { result ≡ role_from byte }
{
    match byte {
        0 => Some(Role::Root),
        1 => Some(Role::BackupRoot),
        2 => Some(Role::Ordinary),
        _ => None,
    }
}

#[inline(always)]
fn mode(byte: u8) -> Option<Mode>
    ensures { result ≡ mode_from byte }
{
    match byte {
        0 => Some(Mode::Primary),
        1 => Some(Mode::Backup),
        2 => Some(Mode::Acting),
        3 => Some(Mode::Idle),
        _ => None,
    }
}

/// The edge, where its flag is set.
#[inline(always)]
fn edge(flag: u8, plain: PlainEdge) -> Option<Edge>
    ensures { result ≡ edge_from flag plain }
{
    if flag == 0 {
        return None;
    }
    let bounds = Bounds {
        mid: plain.mid,
        half: plain.half,
    };
    Some(Edge {
        parent: plain.parent,
        link: plain.link,
        bounds,
    })
}

/// The duty, unless the byte of its role is none.
#[inline(always)]
#[tactic(auto, unfolding(crate::specs::Plain::duty_from))]
pub(crate) fn duty(plain: &PlainDuty) -> Option<Duty>
    ensures { result ≡ duty_from plain.now }
{
    let role = role(plain.role)?;
    Some(Duty {
        epoch: plain.epoch,
        role,
        primary: edge(plain.has_primary, plain.primary),
        backup: edge(plain.has_backup, plain.backup),
        period: plain.period,
        wait_first: plain.wait_first,
        wait_second: plain.wait_second,
        wait: plain.wait,
        rates: rates(plain.rates),
    })
}

/// The duty, where its flag is set, unless the byte of its role is none.
#[inline(always)]
fn held_duty(flag: u8, plain: &PlainDuty) -> Option<Option<Duty>>
    ensures { result ≡ held_from flag plain.now }
{
    if flag == 0 {
        return Some(None);
    }
    let duty = duty(plain)?;
    Some(Some(duty))
}

/// The registers that the struct says, unless the byte of a role or of the mode is none.
#[inline(always)]
#[tactic(auto, unfolding(crate::specs::Plain::kept))]
pub(crate) fn registers(plain: &PlainDevice) -> Option<Registers>
    ensures { result ≡ kept plain.now }
{
    let duty = held_duty(plain.has_duty, &plain.duty)?;
    let given = held_duty(plain.has_given, &plain.given)?;
    let mode = mode(plain.mode)?;
    Some(Registers {
        duty,
        given,
        mode,
        sealed: plain.sealed != 0,
        stamp: stamp(plain.stamp),
        last: plain.last,
        sent: plain.sent,
        estimate: estimate(plain.estimate),
        rates: rates(plain.rates),
    })
}
