//! The calls on a link over which messages come: what its host may hand to the device.
ghost use Rattle.std.specs.Prelude.{◌≡◌, ◌≢◌, ◌≤◌, ◌^◌, ◌*◌, ℕ, OnOk, IfOk, IfErr};
ghost use Rattle.std.specs.List.{AllZip};
ghost use Rattle.sd_num.specs.Counts.{one_if};
ghost use Rattle.sd_plan.specs.topo.Limits.{IsRates};
ghost use Rattle.sd_exports.specs.Ports.{ComesLater};
ghost use Rattle.sd_device_c.specs.Answers.{IsAnswerFor};
ghost use Rattle.sd_device_c.specs.Plain.{rates_from};
ghost use Rattle.sd_device_c.specs.Ports.{takes, longest_over, IsWait, IsOpened, IsShut, IsLowered, IsPlainEdge, MayOpen, HasOpenFault};

use crate::checks::check_rates;
use crate::faults::{DONE, Fault};
use crate::limits::SECOND;
use crate::plain::{PlainEdge, PlainPort, PlainRates};
use crate::reading;
use crate::writing::plain_wide;
use sd_num::Rates;

const MILLION: u64 = 1_000_000;

/// The device starts or joins while the link works, or the link works again, while the counter shows
/// this many ps. The edge is the way over the link, and its delays are in ps.
#[unsafe(no_mangle)]
pub extern "C" fn sundial_port_open(
    port: &mut PlainPort,
    edge: &PlainEdge,
    rates: &PlainRates,
    counter: u64,
) -> u32
    ensures answer { IsAnswerFor result (MayOpen edge.now rates.now)
        (HasOpenFault edge.now rates.now) }
    ensures same { result ≢ 0 → port.new ≡ port.old }
    ensures opened { result ≡ 0 → IsOpened edge.now rates.now counter port.new }
{
    match open(edge, rates, counter) {
        Ok(opened) => {
            *port = opened;
            DONE
        }
        Err(fault) => fault.code(),
    }
}

#[inline(always)]
fn open(edge: &PlainEdge, rates: &PlainRates, counter: u64) -> Result<PlainPort, Fault>
    ensures may { OnOk result (MayOpen edge.now rates.now) }
    ensures ok { IfOk result (IsOpened edge.now rates.now counter) }
    ensures err { IfErr result (HasOpenFault edge.now rates.now) }
{
    let rates = reading::rates(*rates);
    check_rates(&rates)?;
    let longest = longest_time(edge)?;
    Ok(PlainPort {
        clear: plain_wide(u128::from(counter) + u128::from(wait_past(&rates, longest))),
        is_open: 1,
    })
}

/// How long a message over the edge may be on its way, in ps.
#[inline(always)]
fn longest_time(edge: &PlainEdge) -> Result<u64, Fault>
    ensures ok { IfOk result (λ time. time ≡ longest_over edge.now) }
    ensures limits { OnOk result (IsPlainEdge edge.now) }
    ensures err { IfErr result (λ fault. (fault ≡ Fault.NoDuty) × (IsPlainEdge edge.now → ⊥)) }
{
    if edge.mid <= SECOND && edge.half <= SECOND {
        Ok(2 * (edge.mid + edge.half))
    } else {
        Err(Fault::NoDuty)
    }
}

/// By how much a counter with these rates has to advance until surely more than `time` ps passed.
#[inline(always)]
#[tactic(auto, using(crate::proofs::Waiting::waits))]
fn wait_past(rates: &Rates, time: u64) -> u64
    requires rates { IsRates rates.now }
    requires time { time ≤ 4 * 10 ^ 12 }
    ensures { IsWait rates.now time result }
{
    let least = time + rates.grain + 1;
    (least * MILLION).div_ceil(MILLION - u64::from(rates.ppm))
}

/// The link is down, so nothing that comes over it may be given to the device.
#[unsafe(no_mangle)]
pub extern "C" fn sundial_port_close(port: &mut PlainPort)
    ensures { IsShut port.new }
{
    port.is_open = 0;
}

/// 1 where a message that came while the counter showed this many ps may be given to the device, and
/// else 0.
#[unsafe(no_mangle)]
pub extern "C" fn sundial_port_takes(port: &PlainPort, counter: u64) -> u32
    ensures takes { result ≡ one_if (takes port.now counter) }
    ensures later { result ≡ 1 → ComesLater (takes port.now) counter }
{
    let is_clear = reading::wide(port.clear) <= u128::from(counter);
    u32::from(port.is_open != 0 && is_clear)
}

/// Each port at counters that are lowered by this many ps.
pub(crate) fn lower_all(ports: &mut [PlainPort], by: u64)
    ensures { AllZip (IsLowered by) ports.old ports.new }
{
    for port in ports.iter_mut() {
        *port = lower(*port, by);
    }
}

#[inline(always)]
#[tactic(auto, using(crate::proofs::Lowering::lowers))]
fn lower(port: PlainPort, by: u64) -> PlainPort
    ensures { IsLowered by port result }
{
    PlainPort {
        clear: plain_wide(reading::wide(port.clear).saturating_sub(u128::from(by))),
        is_open: port.is_open,
    }
}
