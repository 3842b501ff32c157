//! Several devices that act as root, and intervals that miss the reference time.
ghost use Rattle.std.specs.Prelude.{◌≡◌, ◌<◌, ◌^◌, length, not};
ghost use Rattle.sd_num.specs.clock.Estimates.{contains};
ghost use Rattle.sd_replay.specs.watch.Watch.{acting_devices, two_least};

use sd_num::clock::Report;

/// The two least devices that act as root; `None` exactly where fewer than two do. The list says
/// at place `d` whether device `d` acts. It is read up to the second that does.
pub fn two_acting(acting: &[bool]) -> Option<(u32, u32)>
    requires { length acting.now < 2 ^ 32 }
    ensures { result ≡ two_least (acting_devices acting.now) }
{
    let mut first = None;
    for (d, acts) in acting.iter().enumerate() {
        if *acts {
            let device = d as u32;
            match first {
                Some(least) => return Some((least, device)),
                None => first = Some(device),
            }
        }
    }
    None
}

/// Whether the reference time, in picoseconds, is outside the reported interval: less than
/// `clock - eps` or greater than `clock + eps`.
pub fn outside(report: Report, reference: u64) -> bool
    ensures { result ≡ not (contains report reference) }
{
    report.clock.abs_diff(u128::from(reference)) > report.eps
}
