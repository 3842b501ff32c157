//! Whether a device that was restored may go on.
ghost use Rattle.std.specs.Prelude.{◌≡◌, ◌≤◌, ℕ, IsTrue};
ghost use Rattle.sd_num.specs.Counts.{one_if};
ghost use Rattle.sd_num.specs.Numbers.{keeps_rate};
ghost use Rattle.sd_device_c.specs.Plain.{rates_from};
ghost use Rattle.sd_device_c.specs.Pauses.{advance, is_in_time};

use crate::limits::is_rates;
use crate::plain::PlainRates;
use crate::reading;
use sd_num::up;

/// 1 where surely no more than `tick` ps have passed since the device's latest tick, and else 0. The
/// hardware's counter showed `ticked` ps then and shows `hardware` ps now. It may have begun again
/// after 2^64 - 1 once.
#[unsafe(no_mangle)]
#[tactic(auto, using(crate::proofs::Pausing::pause_passes))]
pub extern "C" fn sundial_in_time(rates: &PlainRates, tick: u64, ticked: u64, hardware: u64) -> u32
    ensures told { result ≡ one_if (is_in_time (rates_from rates.now) tick
        (advance ticked hardware)) }
    ensures pause { result ≡ 1 → (passed : ℕ)
        → IsTrue (keeps_rate (rates_from rates.now) (advance ticked hardware) passed)
        → passed ≤ tick }
{
    let rates = reading::rates(*rates);
    u32::from(is_rates(&rates) && up(rates, hardware.wrapping_sub(ticked)) <= u128::from(tick))
}
