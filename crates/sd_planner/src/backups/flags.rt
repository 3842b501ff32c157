//! A flag for each device, link or domain.
ghost use Rattle.std.specs.Prelude.{◌≡◌, ◌<◌, ℕ, true, false, length, replicate, IfOk};
ghost use Rattle.std.specs.List.{list_any};
ghost use Rattle.sd_num.specs.Lists.{has};
ghost use Rattle.sd_planner.specs.Flags as words;
ghost use Rattle.sd_planner.specs.Flags.{AreSet};

use sd_num::NoMemory;
use std::alloc::Global;

/// This many flags, none of them set.
pub(crate) fn no_flags(alloc: Global, count: usize) -> Result<Vec<bool>, NoMemory>
    ensures { IfOk result (λ made. made.items ≡ replicate count false) }
{
    match vec![in alloc; false; count] {
        Ok(made) => Ok(made),
        Err(_) => Err(NoMemory),
    }
}

/// Whether the flag of a number is set.
pub(crate) fn is_set(flags: &[bool], number: u32) -> bool
    ensures { result ≡ words.is_set flags.now number }
{
    matches!(flags.get(number as usize), Some(true))
}

/// Whether one of the numbers has its flag set.
pub(crate) fn is_any_set(flags: &[bool], numbers: &[u32]) -> bool
    ensures { result ≡ list_any (words.is_set flags.now) numbers.now }
{
    numbers.iter().any(|number| is_set(flags, *number))
}

/// Sets the flags of some numbers to a value.
pub(crate) fn set_flags(flags: &mut [bool], numbers: &[u32], value: bool)
    requires { (k : ℕ) → has numbers.now k ≡ true → k < length flags.old }
    ensures { AreSet numbers.now value flags.old flags.new }
{
    for number in numbers {
        flags[*number as usize] = value;
    }
}
