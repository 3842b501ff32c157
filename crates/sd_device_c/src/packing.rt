//! From plain structs to bytes of a fixed order. Each call writes from `at` on, and says where the
//! next one begins.
ghost use Rattle.std.specs.Prelude.{◌≡◌, ◌≤◌, ◌+◌, ◌*◌, ◌++◌, length, take};
ghost use Rattle.std.specs.List.{flat_map};
ghost use Rattle.sd_device_c.specs.Kept.{little, wide_bytes, rates_bytes, edge_bytes, duty_bytes, estimate_bytes, stamp_bytes, device_bytes, port_bytes};

use crate::plain::{
    PlainDevice, PlainDuty, PlainEdge, PlainEstimate, PlainPort, PlainRates, PlainStamp, PlainWide,
};

#[inline(always)]
fn put(bytes: &mut [u8], at: usize, piece: &[u8]) -> usize
    requires { at + length piece.now ≤ length bytes.old }
    ensures end { result ≡ at + length piece.now }
    ensures bytes { take result bytes.new ≡ take at bytes.old ++ piece.now }
{
    let end = at + piece.len();
    bytes[at..end].copy_from_slice(piece);
    end
}

#[inline(always)]
pub(crate) fn put_u64(bytes: &mut [u8], at: usize, number: u64) -> usize
    requires { at + 8 ≤ length bytes.old }
    ensures end { result ≡ at + 8 }
    ensures bytes { take result bytes.new ≡ take at bytes.old ++ little 8 number }
{
    put(bytes, at, &number.to_le_bytes())
}

#[inline(always)]
pub(crate) fn put_u32(bytes: &mut [u8], at: usize, number: u32) -> usize
    requires { at + 4 ≤ length bytes.old }
    ensures end { result ≡ at + 4 }
    ensures bytes { take result bytes.new ≡ take at bytes.old ++ little 4 number }
{
    put(bytes, at, &number.to_le_bytes())
}

#[inline(always)]
#[tactic(auto, using(crate::proofs::Bytes::little_1))]
pub(crate) fn put_u8(bytes: &mut [u8], at: usize, number: u8) -> usize
    requires { at + 1 ≤ length bytes.old }
    ensures end { result ≡ at + 1 }
    ensures bytes { take result bytes.new ≡ take at bytes.old ++ little 1 number }
{
    put(bytes, at, &[number])
}

#[inline(always)]
#[tactic(auto, unfolding(crate::specs::Kept::wide_bytes))]
fn put_wide(bytes: &mut [u8], at: usize, wide: &PlainWide) -> usize
    requires { at + 16 ≤ length bytes.old }
    ensures end { result ≡ at + 16 }
    ensures bytes { take result bytes.new ≡ take at bytes.old ++ wide_bytes wide.now }
{
    let at = put_u64(bytes, at, wide.low);
    put_u64(bytes, at, wide.high)
}

#[inline(always)]
#[tactic(auto, unfolding(crate::specs::Kept::rates_bytes))]
fn put_rates(bytes: &mut [u8], at: usize, rates: &PlainRates) -> usize
    requires { at + 12 ≤ length bytes.old }
    ensures end { result ≡ at + 12 }
    ensures bytes { take result bytes.new ≡ take at bytes.old ++ rates_bytes rates.now }
{
    let at = put_u64(bytes, at, rates.grain);
    put_u32(bytes, at, rates.ppm)
}

#[inline(always)]
#[tactic(auto, unfolding(crate::specs::Kept::edge_bytes))]
fn put_edge(bytes: &mut [u8], at: usize, edge: &PlainEdge) -> usize
    requires { at + 24 ≤ length bytes.old }
    ensures end { result ≡ at + 24 }
    ensures bytes { take result bytes.new ≡ take at bytes.old ++ edge_bytes edge.now }
{
    let at = put_u64(bytes, at, edge.mid);
    let at = put_u64(bytes, at, edge.half);
    let at = put_u32(bytes, at, edge.parent);
    put_u32(bytes, at, edge.link)
}

#[inline(always)]
#[tactic(auto, unfolding(crate::specs::Kept::duty_bytes))]
fn put_duty(bytes: &mut [u8], at: usize, duty: &PlainDuty) -> usize
    requires { at + 99 ≤ length bytes.old }
    ensures end { result ≡ at + 99 }
    ensures bytes { take result bytes.new ≡ take at bytes.old ++ duty_bytes duty.now }
{
    let at = put_edge(bytes, at, &duty.primary);
    let at = put_edge(bytes, at, &duty.backup);
    let at = put_u64(bytes, at, duty.period);
    let at = put_u64(bytes, at, duty.wait_first);
    let at = put_u64(bytes, at, duty.wait_second);
    let at = put_u64(bytes, at, duty.wait);
    let at = put_rates(bytes, at, &duty.rates);
    let at = put_u32(bytes, at, duty.epoch);
    let at = put_u8(bytes, at, duty.role);
    let at = put_u8(bytes, at, duty.has_primary);
    put_u8(bytes, at, duty.has_backup)
}

#[inline(always)]
#[tactic(auto, unfolding(crate::specs::Kept::estimate_bytes))]
fn put_estimate(bytes: &mut [u8], at: usize, estimate: &PlainEstimate) -> usize
    requires { at + 40 ≤ length bytes.old }
    ensures end { result ≡ at + 40 }
    ensures bytes { take result bytes.new ≡ take at bytes.old ++ estimate_bytes estimate.now }
{
    let at = put_wide(bytes, at, &estimate.clock);
    let at = put_wide(bytes, at, &estimate.base);
    put_u64(bytes, at, estimate.at)
}

#[inline(always)]
#[tactic(auto, unfolding(crate::specs::Kept::stamp_bytes))]
fn put_stamp(bytes: &mut [u8], at: usize, stamp: &PlainStamp) -> usize
    requires { at + 12 ≤ length bytes.old }
    ensures end { result ≡ at + 12 }
    ensures bytes { take result bytes.new ≡ take at bytes.old ++ stamp_bytes stamp.now }
{
    let at = put_u64(bytes, at, stamp.round);
    put_u32(bytes, at, stamp.term)
}

#[inline(always)]
#[tactic(auto, unfolding(crate::specs::Kept::device_bytes))]
pub(crate) fn put_device(bytes: &mut [u8], at: usize, device: &PlainDevice) -> usize
    requires { at + 282 ≤ length bytes.old }
    ensures end { result ≡ at + 282 }
    ensures bytes { take result bytes.new ≡ take at bytes.old ++ device_bytes device.now }
{
    let at = put_duty(bytes, at, &device.duty);
    let at = put_duty(bytes, at, &device.given);
    let at = put_estimate(bytes, at, &device.estimate);
    let at = put_stamp(bytes, at, &device.stamp);
    let at = put_rates(bytes, at, &device.rates);
    let at = put_u64(bytes, at, device.last);
    let at = put_u64(bytes, at, device.sent);
    let at = put_u8(bytes, at, device.has_duty);
    let at = put_u8(bytes, at, device.has_given);
    let at = put_u8(bytes, at, device.mode);
    put_u8(bytes, at, device.sealed)
}

#[inline(always)]
#[tactic(auto, unfolding(crate::specs::Kept::port_bytes))]
fn put_port(bytes: &mut [u8], at: usize, port: &PlainPort) -> usize
    requires { at + 17 ≤ length bytes.old }
    ensures end { result ≡ at + 17 }
    ensures bytes { take result bytes.new ≡ take at bytes.old ++ port_bytes port.now }
{
    let at = put_wide(bytes, at, &port.clear);
    put_u8(bytes, at, port.is_open)
}

#[inline(always)]
pub(crate) fn put_ports(bytes: &mut [u8], at: usize, ports: &[PlainPort]) -> usize
    requires { at + 17 * length ports.now ≤ length bytes.old }
    ensures end { result ≡ at + 17 * length ports.now }
    ensures bytes { take result bytes.new ≡ take at bytes.old ++ flat_map port_bytes ports.now }
{
    let mut at = at;
    for port in ports {
        at = put_port(bytes, at, port);
    }
    at
}
