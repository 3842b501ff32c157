//! From bytes of a fixed order to plain structs. Each call reads what the bytes begin with, and hands
//! on the rest.
ghost use Rattle.std.specs.Prelude.{◌≡◌, ◌≤◌, ◌+◌, ◌*◌, ◌++◌, length};
ghost use Rattle.std.specs.List.{flat_map};
ghost use Rattle.sd_device_c.specs.Kept.{little, wide_bytes, rates_bytes, edge_bytes, duty_bytes, estimate_bytes, stamp_bytes, device_bytes, port_bytes};

use crate::plain::{
    PlainDevice, PlainDuty, PlainEdge, PlainEstimate, PlainPort, PlainRates, PlainStamp, PlainWide,
};

#[inline(always)]
pub(crate) fn next_u64(bytes: &[u8]) -> (u64, &[u8])
    requires { 8 ≤ length bytes.now }
    ensures bytes { bytes.now ≡ little 8 result.0 ++ result.1.now }
    ensures size { length bytes.now ≡ 8 + length result.1.now }
{
    let Some((number, rest)) = bytes.split_first_chunk::<8>() else {
        unreachable!()
    };
    (u64::from_le_bytes(*number), rest)
}

#[inline(always)]
pub(crate) fn next_u32(bytes: &[u8]) -> (u32, &[u8])
    requires { 4 ≤ length bytes.now }
    ensures bytes { bytes.now ≡ little 4 result.0 ++ result.1.now }
    ensures size { length bytes.now ≡ 4 + length result.1.now }
{
    let Some((number, rest)) = bytes.split_first_chunk::<4>() else {
        unreachable!()
    };
    (u32::from_le_bytes(*number), rest)
}

#[inline(always)]
pub(crate) fn next_u8(bytes: &[u8]) -> (u8, &[u8])
    requires { 1 ≤ length bytes.now }
    ensures bytes { bytes.now ≡ little 1 result.0 ++ result.1.now }
    ensures size { length bytes.now ≡ 1 + length result.1.now }
{
    (bytes[0], &bytes[1..])
}

#[inline(always)]
#[tactic(auto, unfolding(crate::specs::Kept::wide_bytes))]
fn next_wide(bytes: &[u8]) -> (PlainWide, &[u8])
    requires { 16 ≤ length bytes.now }
    ensures bytes { bytes.now ≡ wide_bytes result.0 ++ result.1.now }
    ensures size { length bytes.now ≡ 16 + length result.1.now }
{
    let (low, bytes) = next_u64(bytes);
    let (high, bytes) = next_u64(bytes);
    let wide = PlainWide { low, high };
    (wide, bytes)
}

#[inline(always)]
#[tactic(auto, unfolding(crate::specs::Kept::rates_bytes))]
fn next_rates(bytes: &[u8]) -> (PlainRates, &[u8])
    requires { 12 ≤ length bytes.now }
    ensures bytes { bytes.now ≡ rates_bytes result.0 ++ result.1.now }
    ensures size { length bytes.now ≡ 12 + length result.1.now }
{
    let (grain, bytes) = next_u64(bytes);
    let (ppm, bytes) = next_u32(bytes);
    let rates = PlainRates { grain, ppm };
    (rates, bytes)
}

#[inline(always)]
#[tactic(auto, unfolding(crate::specs::Kept::edge_bytes))]
fn next_edge(bytes: &[u8]) -> (PlainEdge, &[u8])
    requires { 24 ≤ length bytes.now }
    ensures bytes { bytes.now ≡ edge_bytes result.0 ++ result.1.now }
    ensures size { length bytes.now ≡ 24 + length result.1.now }
{
    let (mid, bytes) = next_u64(bytes);
    let (half, bytes) = next_u64(bytes);
    let (parent, bytes) = next_u32(bytes);
    let (link, bytes) = next_u32(bytes);
    let edge = PlainEdge {
        mid,
        half,
        parent,
        link,
    };
    (edge, bytes)
}

#[inline(always)]
#[tactic(auto, unfolding(crate::specs::Kept::duty_bytes))]
fn next_duty(bytes: &[u8]) -> (PlainDuty, &[u8])
    requires { 99 ≤ length bytes.now }
    ensures bytes { bytes.now ≡ duty_bytes result.0 ++ result.1.now }
    ensures size { length bytes.now ≡ 99 + length result.1.now }
{
    let (primary, bytes) = next_edge(bytes);
    let (backup, bytes) = next_edge(bytes);
    let (period, bytes) = next_u64(bytes);
    let (wait_first, bytes) = next_u64(bytes);
    let (wait_second, bytes) = next_u64(bytes);
    let (wait, bytes) = next_u64(bytes);
    let (rates, bytes) = next_rates(bytes);
    let (epoch, bytes) = next_u32(bytes);
    let (role, bytes) = next_u8(bytes);
    let (has_primary, bytes) = next_u8(bytes);
    let (has_backup, bytes) = next_u8(bytes);
    let duty = PlainDuty {
        primary,
        backup,
        period,
        wait_first,
        wait_second,
        wait,
        rates,
        epoch,
        role,
        has_primary,
        has_backup,
    };
    (duty, bytes)
}

#[inline(always)]
#[tactic(auto, unfolding(crate::specs::Kept::estimate_bytes))]
fn next_estimate(bytes: &[u8]) -> (PlainEstimate, &[u8])
    requires { 40 ≤ length bytes.now }
    ensures bytes { bytes.now ≡ estimate_bytes result.0 ++ result.1.now }
    ensures size { length bytes.now ≡ 40 + length result.1.now }
{
    let (clock, bytes) = next_wide(bytes);
    let (base, bytes) = next_wide(bytes);
    let (at, bytes) = next_u64(bytes);
    let estimate = PlainEstimate { clock, base, at };
    (estimate, bytes)
}

#[inline(always)]
#[tactic(auto, unfolding(crate::specs::Kept::stamp_bytes))]
fn next_stamp(bytes: &[u8]) -> (PlainStamp, &[u8])
    requires { 12 ≤ length bytes.now }
    ensures bytes { bytes.now ≡ stamp_bytes result.0 ++ result.1.now }
    ensures size { length bytes.now ≡ 12 + length result.1.now }
{
    let (round, bytes) = next_u64(bytes);
    let (term, bytes) = next_u32(bytes);
    let stamp = PlainStamp { round, term };
    (stamp, bytes)
}

#[inline(always)]
#[tactic(auto, unfolding(crate::specs::Kept::device_bytes))]
pub(crate) fn next_device(bytes: &[u8]) -> (PlainDevice, &[u8])
    requires { 282 ≤ length bytes.now }
    ensures bytes { bytes.now ≡ device_bytes result.0 ++ result.1.now }
    ensures size { length bytes.now ≡ 282 + length result.1.now }
{
    let (duty, bytes) = next_duty(bytes);
    let (given, bytes) = next_duty(bytes);
    let (estimate, bytes) = next_estimate(bytes);
    let (stamp, bytes) = next_stamp(bytes);
    let (rates, bytes) = next_rates(bytes);
    let (last, bytes) = next_u64(bytes);
    let (sent, bytes) = next_u64(bytes);
    let (has_duty, bytes) = next_u8(bytes);
    let (has_given, bytes) = next_u8(bytes);
    let (mode, bytes) = next_u8(bytes);
    let (sealed, bytes) = next_u8(bytes);
    let device = PlainDevice {
        duty,
        given,
        estimate,
        stamp,
        rates,
        last,
        sent,
        has_duty,
        has_given,
        mode,
        sealed,
    };
    (device, bytes)
}

#[inline(always)]
#[tactic(auto, unfolding(crate::specs::Kept::port_bytes))]
fn next_port(bytes: &[u8]) -> (PlainPort, &[u8])
    requires { 17 ≤ length bytes.now }
    ensures bytes { bytes.now ≡ port_bytes result.0 ++ result.1.now }
    ensures size { length bytes.now ≡ 17 + length result.1.now }
{
    let (clear, bytes) = next_wide(bytes);
    let (is_open, bytes) = next_u8(bytes);
    let port = PlainPort { clear, is_open };
    (port, bytes)
}

/// As many ports as there are, which the bytes are.
#[inline(always)]
pub(crate) fn read_ports(ports: &mut [PlainPort], bytes: &[u8])
    requires { length bytes.now ≡ 17 * length ports.old }
    ensures { bytes.now ≡ flat_map port_bytes ports.new }
{
    let mut rest = bytes;
    for port in ports.iter_mut() {
        let (read, after) = next_port(rest);
        *port = read;
        rest = after;
    }
}
