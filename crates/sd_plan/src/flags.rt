//! A flag for each number: whether it is left out.
ghost use Rattle.std.specs.Prelude.{◌≡◌, map, replicate, true, not, IsTrue, IfOk};
ghost use Rattle.sd_num.specs.Lists.{all_below, below, has};

use sd_num::NoMemory;
use std::alloc::Global;

/// True for each number.
fn all_present(alloc: Global, count: u32) -> Result<Vec<bool>, NoMemory>
    ensures { IfOk result (λ flags. flags.items ≡ replicate count true) }
{
    match vec![in alloc; true; count as usize] {
        Ok(flags) => Ok(flags),
        Err(_) => Err(NoMemory),
    }
}

/// Whether each number below a count is none of those that are left out.
pub fn present(alloc: Global, count: u32, absent: &[u32]) -> Result<Vec<bool>, NoMemory>
    requires { IsTrue (all_below count absent.now) }
    ensures { IfOk result (λ flags. flags.items ≡ map (λ x. not (has absent.now x)) (below count)) }
{
    let mut flags = all_present(alloc, count)?;
    for number in absent {
        flags[*number as usize] = false;
    }
    Ok(flags)
}
