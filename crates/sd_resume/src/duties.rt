//! Whether a duty of the first of two fleets is that of the second.
ghost use Rattle.std.specs.Prelude.{◌≡◌, ◌≢◌, true, false, option_map};
ghost use Rattle.sd_resume.specs.law.Shifts.{raised_duty};
ghost use Rattle.sd_resume.specs.Numbers.{shift_of};
ghost use Rattle.sd_resume.specs.Duties.{SameTimes};

use crate::shift::Shift;
use sd_plan::{Duty, Edge};

/// Whether the first duty is the second, raised; or there is none in both.
pub(crate) fn raises_duties(one: &Option<Duty>, other: &Option<Duty>, shift: &Shift) -> bool
    ensures same { result ≡ true
        → one.now ≡ option_map (raised_duty (shift_of shift.now)) other.now }
    ensures differs { result ≡ false
        → one.now ≢ option_map (raised_duty (shift_of shift.now)) other.now }
{
    match one {
        Some(one) => match other {
            Some(other) => raises_duty(one, other, shift),
            None => false,
        },
        None => other.is_none(),
    }
}

/// Whether the first duty is the second, raised.
fn raises_duty(one: &Duty, other: &Duty, shift: &Shift) -> bool
    ensures same { result ≡ true → one.now ≡ raised_duty (shift_of shift.now) other.now }
    ensures differs { result ≡ false → one.now ≢ raised_duty (shift_of shift.now) other.now }
{
    if !shift.raises_epoch(one.epoch, other.epoch) {
        return false;
    }
    are_equal_otherwise(one, other)
}

/// Whether the two duties are equal but for the numbers of their plans.
fn are_equal_otherwise(one: &Duty, other: &Duty) -> bool
    ensures same { result ≡ true → one.now ≡ record other.now { epoch = one.now.epoch } }
    ensures differs { result ≡ false → one.now ≢ record other.now { epoch = one.now.epoch } }
{
    if one.role != other.role {
        return false;
    }
    if !are_same_edges(&one.primary, &other.primary) {
        return false;
    }
    if !are_same_edges(&one.backup, &other.backup) {
        return false;
    }
    have_same_times(one, other)
}

/// Whether the two edges are equal, or there is none in both.
fn are_same_edges(one: &Option<Edge>, other: &Option<Edge>) -> bool
    ensures same { result ≡ true → one.now ≡ other.now }
    ensures differs { result ≡ false → one.now ≢ other.now }
{
    one == other
}

/// Whether the two duties have the same period, waits and rates.
fn have_same_times(one: &Duty, other: &Duty) -> bool
    ensures same { result ≡ true → SameTimes one.now other.now }
    ensures differs { result ≡ false → SameTimes one.now other.now → ⊥ }
{
    if one.period != other.period || one.wait != other.wait {
        return false;
    }
    if one.wait_first != other.wait_first || one.wait_second != other.wait_second {
        return false;
    }
    one.rates == other.rates
}
