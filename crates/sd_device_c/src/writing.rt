//! From what a device keeps and sends to plain structs.
ghost use Rattle.std.specs.Prelude.{◌≡◌, Some};
ghost use Rattle.sd_num.specs.declared.clock.Report.{Report};
ghost use Rattle.sd_device_c.specs.Plain.{wide_from, flag_from, rates_from, stamp_from, estimate_from, report_from, message_from, effect_from, parent_from, role_from, mode_from, edge_from, duty_from, held_from, kept};

use crate::plain::{
    PlainDevice, PlainDuty, PlainEdge, PlainEffect, PlainEstimate, PlainMessage, PlainParent,
    PlainRates, PlainReport, PlainStamp, PlainWide,
};
use sd_device::msg::{Message, Stamp};
use sd_device::{Effect, Mode, Registers};
use sd_num::Rates;
use sd_num::clock::{Estimate, Report};
use sd_plan::{Duty, Edge, Role};

const TWO_64: u128 = 1 << 64;

const NO_WIDE: PlainWide = PlainWide { low: 0, high: 0 };

const NO_RATES: PlainRates = PlainRates { grain: 0, ppm: 0 };

const NO_EDGE: PlainEdge = PlainEdge {
    mid: 0,
    half: 0,
    parent: 0,
    link: 0,
};

const NO_DUTY: PlainDuty = PlainDuty {
    primary: NO_EDGE,
    backup: NO_EDGE,
    period: 0,
    wait_first: 0,
    wait_second: 0,
    wait: 0,
    rates: NO_RATES,
    epoch: 0,
    role: 0,
    has_primary: 0,
    has_backup: 0,
};

const NO_MESSAGE: PlainMessage = PlainMessage {
    clock: NO_WIDE,
    eps: NO_WIDE,
    stamp: PlainStamp { round: 0, term: 0 },
    epoch: 0,
};

#[inline(always)]
pub(crate) fn plain_wide(number: u128) -> PlainWide
    ensures { wide_from result ≡ number }
{
    PlainWide {
        low: (number % TWO_64) as u64,
        high: (number / TWO_64) as u64,
    }
}

#[inline(always)]
pub(crate) fn plain_flag(flag: bool) -> u8
    ensures { flag_from result ≡ flag }
{
    if flag { 1 } else { 0 }
}

#[inline(always)]
fn plain_rates(rates: Rates) -> PlainRates
    ensures { rates_from result ≡ rates }
{
    PlainRates {
        grain: rates.grain,
        ppm: rates.ppm,
    }
}

#[inline(always)]
fn plain_stamp(stamp: Stamp) -> PlainStamp
    ensures { stamp_from result ≡ stamp }
{
    PlainStamp {
        round: stamp.round,
        term: stamp.term,
    }
}

#[inline(always)]
fn plain_estimate(estimate: Estimate) -> PlainEstimate
    ensures { estimate_from result ≡ estimate }
{
    PlainEstimate {
        clock: plain_wide(estimate.clock),
        base: plain_wide(estimate.base),
        at: estimate.at,
    }
}

#[inline(always)]
pub(crate) fn plain_report(report: Report) -> PlainReport
    ensures { report_from result ≡ report }
{
    PlainReport {
        clock: plain_wide(report.clock),
        eps: plain_wide(report.eps),
    }
}

#[inline(always)]
fn plain_message(message: Message) -> PlainMessage
    ensures { message_from result ≡ message }
{
    PlainMessage {
        clock: plain_wide(message.clock),
        eps: plain_wide(message.eps),
        stamp: plain_stamp(message.stamp),
        epoch: message.epoch,
    }
}

#[inline(always)]
pub(crate) fn plain_effect(effect: Effect) -> PlainEffect
    ensures { effect_from result ≡ effect }
{
    match effect {
        Effect::Send(message) => PlainEffect {
            message: plain_message(message),
            sends: 1,
        },
        Effect::Quiet => PlainEffect {
            message: NO_MESSAGE,
            sends: 0,
        },
    }
}

#[inline(always)]
pub(crate) fn plain_parent(parent: Option<u32>) -> PlainParent
    ensures { parent_from result ≡ parent }
{
    match parent {
        Some(parent) => PlainParent {
            parent,
            has_parent: 1,
        },
        None => PlainParent {
            parent: 0,
            has_parent: 0,
        },
    }
}

#[inline(always)]
fn plain_role(role: Role) -> u8
    ensures { role_from result ≡ Some role }
{
    match role {
        Role::Root => 0,
        Role::BackupRoot => 1,
        Role::Ordinary => 2,
    }
}

#[inline(always)]
fn plain_mode(mode: Mode) -> u8
    ensures { mode_from result ≡ Some mode }
{
    match mode {
        Mode::Primary => 0,
        Mode::Backup => 1,
        Mode::Acting => 2,
        Mode::Idle => 3,
    }
}

/// The flag of an edge, and the edge.
#[inline(always)]
fn plain_edge(edge: Option<Edge>) -> (u8, PlainEdge)
    ensures { edge_from result.0 result.1 ≡ edge }
{
    let Some(edge) = edge else {
        return (0, NO_EDGE);
    };
    let plain = PlainEdge {
        mid: edge.bounds.mid,
        half: edge.bounds.half,
        parent: edge.parent,
        link: edge.link,
    };
    (1, plain)
}

#[inline(always)]
#[tactic(auto, unfolding(crate::specs::Plain::duty_from))]
fn plain_duty(duty: &Duty) -> PlainDuty
    ensures { duty_from result ≡ Some duty.now }
{
    let (has_primary, primary) = plain_edge(duty.primary);
    let (has_backup, backup) = plain_edge(duty.backup);
    PlainDuty {
        primary,
        backup,
        period: duty.period,
        wait_first: duty.wait_first,
        wait_second: duty.wait_second,
        wait: duty.wait,
        rates: plain_rates(duty.rates),
        epoch: duty.epoch,
        role: plain_role(duty.role),
        has_primary,
        has_backup,
    }
}

/// The flag of a duty, and the duty.
#[inline(always)]
fn plain_held(duty: Option<Duty>) -> (u8, PlainDuty)
    ensures { held_from result.0 result.1 ≡ Some duty }
{
    match duty {
        Some(duty) => (1, plain_duty(&duty)),
        None => (0, NO_DUTY),
    }
}

#[inline(always)]
#[tactic(auto, unfolding(crate::specs::Plain::kept))]
pub(crate) fn plain_device(registers: &Registers) -> PlainDevice
    ensures { kept result ≡ Some registers.now }
{
    let (has_duty, duty) = plain_held(registers.duty);
    let (has_given, given) = plain_held(registers.given);
    PlainDevice {
        duty,
        given,
        estimate: plain_estimate(registers.estimate),
        stamp: plain_stamp(registers.stamp),
        rates: plain_rates(registers.rates),
        last: registers.last,
        sent: registers.sent,
        has_duty,
        has_given,
        mode: plain_mode(registers.mode),
        sealed: plain_flag(registers.sealed),
    }
}
