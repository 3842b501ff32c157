//! Where the members stand that the things of a domain hit.
ghost use Rattle.std.specs.Prelude.{◌≡◌, ◌<◌, ◌≤◌, ◌++◌, length, slice_index_or, flat_map, All, OnOk, IfOk, None};
ghost use Rattle.sd_plan.specs.domain.Lone.{IsDomain};
ghost use Rattle.sd_checker.specs.check_hit.Spans as places;
ghost use Rattle.sd_plan.specs.IndexedPlan.{IsIndexOf, is_within, span_of};
ghost use Rattle.sd_plan.specs.topo.Topologies.{network};

use sd_num::NoMemory;
use sd_plan::domain::DomainId;
use sd_plan::topo::Topology;
use sd_plan::{Plan, Span, WalkIndex};
use std::alloc::Global;

/// Whether a place lies in a span.
fn contains(span: Span, place: u32) -> bool
    ensures { result ≡ is_within span place }
{
    span.from <= place && place < span.to
}

/// A span without its first place.
fn behind_first(span: Span) -> Span
    ensures { result ≡ places.behind_first span }
{
    if span.from < span.to {
        Span {
            from: span.from + 1,
            to: span.to,
        }
    } else {
        span
    }
}

/// Adds a span, unless it has no place.
fn add_span(_alloc: Global, spans: &mut Vec<Span>, span: Span) -> Result<(), NoMemory>
    ensures { OnOk result (spans.new.items ≡ spans.old.items ++ places.non_empty span) }
{
    if span.to <= span.from {
        return Ok(());
    }
    match spans.push(span) {
        Ok(()) => Ok(()),
        Err(_) => Err(NoMemory),
    }
}

/// Adds the places of a span that do not lie in another.
fn add_outside(alloc: Global, spans: &mut Vec<Span>, span: Span, cut: Span) -> Result<(), NoMemory>
    ensures { OnOk result (spans.new.items ≡ spans.old.items ++ places.outside span cut) }
{
    let front = Span {
        from: span.from,
        to: span.to.min(cut.from),
    };
    let back = Span {
        from: span.from.max(cut.to),
        to: span.to,
    };
    add_span(alloc, spans, front)?;
    add_span(alloc, spans, back)
}

/// Adds the places of the members that a device hits.
fn add_below_device(
    alloc: Global,
    spans: &mut Vec<Span>,
    index: &WalkIndex,
    backup_root: u32,
    a: u32,
) -> Result<(), NoMemory>
    requires cut { backup_root < length index.now.spans }
    requires range { a < length index.now.spans }
    ensures { OnOk result (spans.new.items ≡ spans.old.items
        ++ places.below_device index.now backup_root a) }
{
    let span = index.span(a);
    let cut = index.span(backup_root);
    if contains(cut, span.from) {
        add_span(alloc, spans, behind_first(span))
    } else {
        add_outside(alloc, spans, behind_first(span), behind_first(cut))
    }
}

/// Adds the places of the members that a link above a device hits.
fn add_below_child(
    alloc: Global,
    spans: &mut Vec<Span>,
    index: &WalkIndex,
    backup_root: u32,
    child: u32,
) -> Result<(), NoMemory>
    requires cut { backup_root < length index.now.spans }
    requires range { child < length index.now.spans }
    ensures { OnOk result (spans.new.items ≡ spans.old.items
        ++ places.below_child index.now backup_root child) }
{
    let span = index.span(child);
    let cut = behind_first(index.span(backup_root));
    if contains(cut, span.from) {
        add_span(alloc, spans, span)
    } else {
        add_outside(alloc, spans, span, cut)
    }
}

/// Adds the places of the members that a link hits.
fn add_below_link(
    alloc: Global,
    spans: &mut Vec<Span>,
    index: &WalkIndex,
    backup_root: u32,
    link: u32,
) -> Result<(), NoMemory>
    requires cut { backup_root < length index.now.spans }
    requires range { link < length index.now.carried }
    requires devices { places.CarriesDevices index.now }
    ensures { OnOk result (spans.new.items ≡ spans.old.items
        ++ places.below_link index.now backup_root link) }
{
    match index.carried_over(link) {
        Some(child) => add_below_child(alloc, spans, index, backup_root, child),
        None => Ok(()),
    }
}

/// Adds the places of the members that some devices hit.
fn add_below_devices(
    alloc: Global,
    spans: &mut Vec<Span>,
    index: &WalkIndex,
    backup_root: u32,
    devices: &[u32],
) -> Result<(), NoMemory>
    requires cut { backup_root < length index.now.spans }
    requires range { All (λ a. a < length index.now.spans) devices.now }
    ensures { OnOk result (spans.new.items ≡ spans.old.items
        ++ flat_map (places.below_device index.now backup_root) devices.now) }
{
    for a in devices {
        add_below_device(alloc, spans, index, backup_root, *a)?;
    }
    Ok(())
}

/// Adds the places of the members that some links hit.
fn add_below_links(
    alloc: Global,
    spans: &mut Vec<Span>,
    index: &WalkIndex,
    backup_root: u32,
    links: &[u32],
) -> Result<(), NoMemory>
    requires cut { backup_root < length index.now.spans }
    requires range { All (λ l. l < length index.now.carried) links.now }
    requires devices { places.CarriesDevices index.now }
    ensures { OnOk result (spans.new.items ≡ spans.old.items
        ++ flat_map (places.below_link index.now backup_root) links.now) }
{
    for link in links {
        add_below_link(alloc, spans, index, backup_root, *link)?;
    }
    Ok(())
}

/// The places of the members that a domain hits. They may lie in several spans.
pub(crate) fn spans_of(
    alloc: Global,
    topo: &Topology,
    plan: &Plan,
    index: &WalkIndex,
    domain: DomainId,
) -> Result<Vec<Span>, NoMemory>
    requires domain { IsDomain (network topo.now) domain }
    requires indexed { IsIndexOf (network topo.now) plan.now index.now }
    ensures { IfOk result (λ spans. spans.items
        ≡ places.below_domain (network topo.now) index.now plan.now.backup_root domain) }
{
    let cut = plan.backup_root;
    let mut spans = Vec::new(alloc);
    match domain {
        DomainId::Listed(k) => {
            add_below_devices(alloc, &mut spans, index, cut, topo.domain_devices(k))?;
            add_below_links(alloc, &mut spans, index, cut, topo.domain_links(k))?;
        }
        DomainId::Device(a) => add_below_device(alloc, &mut spans, index, cut, a)?,
        DomainId::Link(l) => add_below_link(alloc, &mut spans, index, cut, l)?,
    }
    Ok(spans)
}
