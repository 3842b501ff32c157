//! The calls that keep a device over a restart of its process, and restore it.
ghost use Rattle.std.specs.Prelude.{◌≡◌, ◌≢◌, ◌≤◌, ◌+◌, ◌++◌, ℕ, IsTrue, List, length, IfSome, IfNone};
ghost use Rattle.sd_num.specs.Numbers.{keeps_rate};
ghost use Rattle.sd_device_c.specs.Plain.{rates_from};
ghost use Rattle.sd_device_c.specs.Pauses.{advance};
ghost use Rattle.sd_device_c.specs.Answers.{IsAnswerFor};
ghost use Rattle.sd_device_c.specs.Kept.{kept_size, kept_bytes, checked, header_bytes, state_bytes, Says, SaysOnly, IsRead, ShowsSpoiling, AreKept, AreInTime, MayKeep, HasKeepFault, IsNotKept, HasRestoreFault};

use crate::checks::held;
use crate::crc::crc;
use crate::faults::{DONE, Fault};
use crate::packing::{put_device, put_ports, put_u32, put_u64};
use crate::pauses::sundial_in_time;
use crate::plain::{PlainDevice, PlainPort};
use crate::unpacking::{next_device, next_u64, read_ports};

/// The letters of `sundial`, and the version 1: what the bytes begin with.
const TITLE: u64 = 0x016c_6169_646e_7573;

/// The bytes of all but the ports.
const SIZE: u128 = 318;

/// The bytes of a device and its two counters.
const STATE_SIZE: u128 = 298;

/// The bytes of a port.
const PORT_SIZE: u128 = 17;

/// A device, by how much its counter is lower than that of the hardware, and what the hardware
/// showed at its latest tick.
#[derive(Clone, Copy)]
struct State {
    device: PlainDevice,
    lowered: u64,
    ticked: u64,
}

/// Writes what is to be kept of a device and its ports: by how much its counter is lower than that
/// of the hardware, and what the hardware showed at its latest tick, in ps.
#[unsafe(no_mangle)]
pub extern "C" fn sundial_keep(
    device: &PlainDevice,
    ports: &[PlainPort],
    lowered: u64,
    ticked: u64,
    bytes: &mut [u8],
) -> u32
    ensures answer { IsAnswerFor result
        (MayKeep device.now (length ports.now) (length bytes.old))
        (HasKeepFault device.now (length ports.now) (length bytes.old)) }
    ensures same { result ≢ 0 → bytes.new ≡ bytes.old }
    ensures kept { result ≡ 0 → bytes.new ≡ kept_bytes device.now ports.now lowered ticked }
{
    if let Err(fault) = held(device) {
        return fault.code();
    }
    if bytes.len() as u128 != size_of_kept(ports.len()) {
        return Fault::WrongSize.code();
    }
    write(bytes, device, ports, lowered, ticked);
    DONE
}

/// How many bytes are kept of this many ports.
#[inline(always)]
fn size_of_kept(ports: usize) -> u128
    ensures { result ≡ kept_size ports }
{
    SIZE + PORT_SIZE * ports as u128
}

#[inline(always)]
fn write(bytes: &mut [u8], device: &PlainDevice, ports: &[PlainPort], lowered: u64, ticked: u64)
    requires { length bytes.old ≡ kept_size (length ports.now) }
    ensures { bytes.new ≡ kept_bytes device.now ports.now lowered ticked }
{
    let at = put_u64(bytes, 0, TITLE);
    let at = put_u64(bytes, at, ports.len() as u64);
    let at = put_device(bytes, at, device);
    let at = put_u64(bytes, at, lowered);
    let at = put_u64(bytes, at, ticked);
    let at = put_ports(bytes, at, ports);
    let check = crc(&bytes[..at]);
    put_u32(bytes, at, check);
}

/// Reads what was kept of a device with this many ports.
#[unsafe(no_mangle)]
pub extern "C" fn sundial_kept(
    bytes: &[u8],
    device: &mut PlainDevice,
    ports: &mut [PlainPort],
    lowered: &mut u64,
    ticked: &mut u64,
) -> u32
    ensures answer { IsAnswerFor result (AreKept (length ports.old) bytes.now)
        (IsNotKept (length ports.old) bytes.now) }
    ensures same { result ≢ 0 → (device.new ≡ device.old) × (ports.new ≡ ports.old) }
    ensures same_counters { result ≢ 0
        → (lowered.new ≡ lowered.old) × (ticked.new ≡ ticked.old) }
    ensures said { result ≡ 0 → Says bytes.now device.new ports.new lowered.new ticked.new }
    ensures only { result ≡ 0 → SaysOnly bytes.now device.new ports.new lowered.new ticked.new }
    ensures spoiled { result ≡ 0 → ShowsSpoiling (length ports.old) bytes.now }
{
    let Some((state, of_ports)) = read(bytes, ports.len()) else {
        return Fault::NotKept.code();
    };
    read_ports(ports, of_ports);
    *device = state.device;
    *lowered = state.lowered;
    *ticked = state.ticked;
    DONE
}

/// The same, where surely no more than `tick` ps have passed since the device's latest tick. The
/// hardware's counter shows `hardware` ps now. It may have begun again after 2^64 - 1 once.
#[unsafe(no_mangle)]
pub extern "C" fn sundial_restore(
    bytes: &[u8],
    tick: u64,
    hardware: u64,
    device: &mut PlainDevice,
    ports: &mut [PlainPort],
    lowered: &mut u64,
    ticked: &mut u64,
) -> u32
    ensures answer { IsAnswerFor result
        (AreInTime tick hardware (length ports.old) bytes.now)
        (HasRestoreFault tick hardware (length ports.old) bytes.now) }
    ensures same { result ≢ 0 → (device.new ≡ device.old) × (ports.new ≡ ports.old) }
    ensures same_counters { result ≢ 0
        → (lowered.new ≡ lowered.old) × (ticked.new ≡ ticked.old) }
    ensures said { result ≡ 0 → Says bytes.now device.new ports.new lowered.new ticked.new }
    ensures only { result ≡ 0 → SaysOnly bytes.now device.new ports.new lowered.new ticked.new }
    ensures pause { result ≡ 0 → (passed : ℕ)
        → IsTrue (keeps_rate (rates_from device.new.rates) (advance ticked.new hardware) passed)
        → passed ≤ tick }
{
    let Some((state, of_ports)) = read(bytes, ports.len()) else {
        return Fault::NotKept.code();
    };
    if sundial_in_time(&state.device.rates, tick, state.ticked, hardware) == 0 {
        return Fault::TooLate.code();
    }
    read_ports(ports, of_ports);
    *device = state.device;
    *lowered = state.lowered;
    *ticked = state.ticked;
    DONE
}

/// What the bytes say but for the ports, and the bytes of this many ports.
#[inline(always)]
fn read(bytes: &[u8], ports: usize) -> Option<(State, &[u8])>
    ensures some { IfSome result (λ read. IsRead ports bytes.now
        read.0.device read.0.lowered read.0.ticked read.1.now) }
    ensures none { IfNone result (AreKept ports bytes.now → ⊥) }
{
    let body = checked_body(bytes)?;
    let rest = past_header(body, ports)?;
    if rest.len() as u128 != STATE_SIZE + PORT_SIZE * ports as u128 {
        return None;
    }
    let (state, of_ports) = next_state(rest);
    let Ok(_) = held(&state.device) else {
        return None;
    };
    Some((state, of_ports))
}

/// All but the checksum, where that is right.
#[inline(always)]
fn checked_body(bytes: &[u8]) -> Option<&[u8]>
    ensures some { IfSome result (λ body. bytes.now ≡ checked body.now) }
    ensures none { IfNone result ((body : List ℕ) → bytes.now ≡ checked body → ⊥) }
{
    let (body, check) = bytes.split_last_chunk::<4>()?;
    if u32::from_le_bytes(*check) == crc(body) {
        Some(body)
    } else {
        None
    }
}

/// What comes after the title and the number of the ports, where these are right.
#[inline(always)]
fn past_header(body: &[u8], ports: usize) -> Option<&[u8]>
    ensures some { IfSome result (λ rest. body.now ≡ header_bytes ports ++ rest.now) }
    ensures none { IfNone result ((rest : List ℕ)
        → body.now ≡ header_bytes ports ++ rest → ⊥) }
{
    if body.len() < 16 {
        return None;
    }
    let (title, rest) = next_u64(body);
    let (count, rest) = next_u64(rest);
    if title == TITLE && count == ports as u64 {
        Some(rest)
    } else {
        None
    }
}

#[inline(always)]
#[tactic(auto, unfolding(crate::specs::Kept::state_bytes))]
fn next_state(bytes: &[u8]) -> (State, &[u8])
    requires { 298 ≤ length bytes.now }
    ensures bytes { bytes.now
        ≡ state_bytes result.0.device result.0.lowered result.0.ticked ++ result.1.now }
    ensures size { length bytes.now ≡ 298 + length result.1.now }
{
    let (device, bytes) = next_device(bytes);
    let (lowered, bytes) = next_u64(bytes);
    let (ticked, bytes) = next_u64(bytes);
    let state = State {
        device,
        lowered,
        ticked,
    };
    (state, bytes)
}
