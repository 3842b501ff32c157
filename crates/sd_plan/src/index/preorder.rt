//! The members in preorder of the primary tree, and where those below each device stand.
ghost use Rattle.std.specs.Prelude.{◌≡◌, ◌+◌, ◌^◌, ◌<◌, [], length, replicate, OnOk, IfOk};
ghost use Rattle.sd_plan.specs.IndexedPlan.{no_span};
ghost use Rattle.sd_plan.specs.Subtrees.{subtree, IsWithin, ArePlaced};

use super::Span;
use crate::DeviceList;
use sd_num::NoMemory;
use std::alloc::Global;

/// Devices in an order, and the places of those below each device.
#[derive(Drop)]
pub(super) struct Places {
    pub(super) order: Vec<u32>,
    pub(super) spans: Vec<Span>,
}

/// A span with nothing in it for each device.
fn no_spans(alloc: Global, count: usize) -> Result<Vec<Span>, NoMemory>
    ensures { IfOk result (λ spans. spans.items ≡ replicate count no_span) }
{
    match vec![in alloc; Span { from: 0, to: 0 }; count] {
        Ok(spans) => Ok(spans),
        Err(_) => Err(NoMemory),
    }
}

/// Adds a device and all that lie below it, at most this many hops down: the recursion is as deep.
fn place(
    children: &[DeviceList],
    d: u32,
    hops: u32,
    order: &mut Vec<u32>,
    spans: &mut [Span],
) -> Result<(), NoMemory>
    requires within { IsWithin children.now hops d }
    requires spans { length spans.old ≡ length children.now }
    requires room { length order.old.items + length (subtree children.now hops d) < 2 ^ 32 }
    ensures { OnOk result
        (ArePlaced children.now (subtree children.now hops d) order.old.items order.new.items
        spans.old spans.new) }
{
    let from = order.len() as u32;
    let Ok(()) = order.push(d) else {
        return Err(NoMemory);
    };
    let below = children[d as usize].as_slice();
    for child in below {
        place(children, *child, hops - 1, order, spans)?;
    }
    spans[d as usize] = Span {
        from,
        to: order.len() as u32,
    };
    Ok(())
}

/// A device and all that lie below it, at most this many hops down.
pub(super) fn preorder(
    alloc: Global,
    children: &[DeviceList],
    root: u32,
    hops: u32,
) -> Result<Places, NoMemory>
    requires within { IsWithin children.now hops root }
    requires room { length (subtree children.now hops root) < 2 ^ 32 }
    ensures { IfOk result
        (λ places. ArePlaced children.now (subtree children.now hops root) [] places.order.items
        (replicate (length children.now) no_span) places.spans.items) }
{
    let mut order = Vec::new(alloc);
    let mut spans = no_spans(alloc, children.len())?;
    place(children, root, hops, &mut order, &mut spans)?;
    Ok(Places { order, spans })
}
