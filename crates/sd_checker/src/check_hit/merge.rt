//! What stands at places that spans cover.
ghost use Rattle.std.specs.Prelude.{◌≡◌, ◌≤◌, ◌++◌, length, All, OnOk, IfOk};
ghost use Rattle.std.specs.List.Sorted.{IsPermutation, IsNonDecreasing, IsNonDecreasingBy};
ghost use Rattle.sd_checker.specs.check_hit.Spans.{is_covered, picked};

use sd_num::NoMemory;
use sd_plan::{DeviceList, Span};
use std::alloc::Global;

/// Adds some numbers at the end.
fn add_all(_alloc: Global, numbers: &mut Vec<u32>, more: &[u32]) -> Result<(), NoMemory>
    ensures { OnOk result (numbers.new.items ≡ numbers.old.items ++ more.now) }
{
    match numbers.extend_from_slice(more) {
        Ok(()) => Ok(()),
        Err(_) => Err(NoMemory),
    }
}

/// The devices that stand in an order at the places that some spans cover, each place once. The
/// spans come by their first places.
pub(crate) fn devices_in(alloc: Global, order: &[u32], spans: &[Span]) -> Result<Vec<u32>, NoMemory>
    requires sorted { IsNonDecreasingBy (λ span. span.from) spans.now }
    requires range { All (λ span. span.to ≤ length order.now) spans.now }
    ensures { IfOk result (λ devices. devices.items
        ≡ picked order.now (is_covered spans.now) (length order.now)) }
{
    let mut devices = Vec::new(alloc);
    let mut taken = 0;
    for span in spans {
        let from = span.from.max(taken);
        if from < span.to {
            add_all(alloc, &mut devices, &order[from as usize..span.to as usize])?;
            taken = span.to;
        }
    }
    Ok(devices)
}

/// Numbers in ascending order.
pub(crate) fn ascending(alloc: Global, mut numbers: Vec<u32>) -> Result<DeviceList, NoMemory>
    ensures { IfOk result (λ list. IsPermutation numbers.items list × IsNonDecreasing list) }
{
    numbers.sort_unstable();
    let mut list = DeviceList::new(alloc);
    for number in &numbers {
        list.push(alloc, *number)?;
    }
    Ok(list)
}
