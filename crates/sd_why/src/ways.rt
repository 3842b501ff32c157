//! How far all devices are from one of them, found ring by ring.
ghost use Rattle.std.specs.Prelude.{◌≡◌, ◌<◌, ◌+◌, ◌∷◌, ℕ, true, [], length, replicate, slice_set, All, List, Option, None, Some, IfOk, OnOk};
ghost use Rattle.sd_num.specs.Lists.{has};
ghost use Rattle.sd_plan.specs.Plans.{nothing_absent};
ghost use Rattle.sd_planner.specs.Views.{net_of, left_out};
ghost use Rattle.sd_why.specs.Ways.{AreDistances, NextTo};
ghost use Rattle.sd_why.specs.Rings.{IsMeeting, IsMet, Spreads};

use sd_num::NoMemory;
use sd_planner::Present;
use std::alloc::Global;

/// Notes a device as this far away and of the next ring, if nothing was known of it.
fn meet(known: &mut [Option<u32>], next: &mut Vec<u32>, e: u32, hops: u32) -> Result<(), NoMemory>
    requires { e < length known.old }
    ensures { OnOk result
        (IsMeeting known.old known.new next.old.items next.new.items e hops) }
{
    match known[e as usize] {
        Some(_) => return Ok(()),
        None => {}
    }
    known[e as usize] = Some(hops);
    match next.push(e) {
        Ok(()) => Ok(()),
        Err(_) => Err(NoMemory),
    }
}

/// Meets all neighbours of a device.
fn meet_neighbours(
    present: &Present,
    known: &mut [Option<u32>],
    next: &mut Vec<u32>,
    d: u32,
    hops: u32,
) -> Result<(), NoMemory>
    requires whole { left_out present.now ≡ nothing_absent }
    requires device { d < length (net_of present.now).devices }
    requires size { length known.old ≡ length (net_of present.now).devices }
    ensures spreads { OnOk result ((old : List (Option ℕ)) (ring : List ℕ)
        → has ring d ≡ true
        → Spreads (net_of present.now) ring hops old known.old next.old.items
        → Spreads (net_of present.now) ring hops old known.new next.new.items) }
    ensures met { OnOk result ((e : ℕ) → e < length (net_of present.now).devices
        → NextTo (net_of present.now) d e → IsMet known.new e) }
    ensures kept { OnOk result ((e : ℕ) → IsMet known.old e → IsMet known.new e) }
    ensures size { OnOk result (length known.new ≡ length known.old) }
{
    let neighbours = present.neighbours_of(d);
    for neighbour in neighbours {
        meet(known, next, neighbour.device, hops)?;
    }
    Ok(())
}

/// The devices next to a ring of which nothing was known: the next ring, this far away.
fn next_ring(
    alloc: Global,
    present: &Present,
    known: &mut [Option<u32>],
    ring: &[u32],
    hops: u32,
) -> Result<Vec<u32>, NoMemory>
    requires whole { left_out present.now ≡ nothing_absent }
    requires ring { All (λ d. d < length (net_of present.now).devices) ring.now }
    requires size { length known.old ≡ length (net_of present.now).devices }
    ensures spreads { IfOk result (λ next.
        Spreads (net_of present.now) ring.now hops known.old known.new next.items) }
    ensures met { IfOk result (λ next. (d e : ℕ) → has ring.now d ≡ true
        → e < length (net_of present.now).devices
        → NextTo (net_of present.now) d e → IsMet known.new e) }
{
    let mut next = Vec::new(alloc);
    for d in ring {
        meet_neighbours(present, known, &mut next, *d, hops)?;
    }
    Ok(next)
}

/// That nothing is known of this many devices.
fn unknown(alloc: Global, count: u32) -> Result<Vec<Option<u32>>, NoMemory>
    ensures { IfOk result (λ known. known.items ≡ replicate count None) }
{
    match vec![in alloc; None; count as usize] {
        Ok(known) => Ok(known),
        Err(_) => Err(NoMemory),
    }
}

/// The ring of one device alone.
fn ring_of(alloc: Global, d: u32) -> Result<Vec<u32>, NoMemory>
    ensures { IfOk result (λ ring. ring.items ≡ d ∷ []) }
{
    match vec![in alloc; d; 1] {
        Ok(ring) => Ok(ring),
        Err(_) => Err(NoMemory),
    }
}

/// How far each device is from one of them, in links; None where no links lead to it. It takes the
/// time of devices and links together.
pub fn distances(alloc: Global, present: &Present, from: u32) -> Result<Vec<Option<u32>>, NoMemory>
    requires whole { left_out present.now ≡ nothing_absent }
    requires device { from < length (net_of present.now).devices }
    ensures { IfOk result (λ known. AreDistances (net_of present.now) from known.items) }
{
    let count = present.topo.devices();
    let mut known = unknown(alloc, count)?;
    known[from as usize] = Some(0);
    let mut ring = ring_of(alloc, from)?;
    for hops in 0..count {
        ring = next_ring(alloc, present, &mut known, &ring, hops + 1)?;
    }
    Ok(known)
}
