//! Names of devices and links, alone and in lists.
ghost use Rattle.std.specs.Prelude.{◌≡◌, ◌<◌, ℕ, length, All, OnOk, IfOk, IfErr, []};
ghost use Rattle.serde_json.specs.View.{view, items_view};
ghost use Rattle.sd_num.specs.Lists.{ascending};
ghost use Rattle.sd_plan.specs.topo.Network.{number_in};
ghost use Rattle.sd_plan.specs.topo.Topologies.{network};
ghost use Rattle.sd_plantext.specs.Counted.{names_of};
ghost use Rattle.sd_plantext.specs.Gives.{Gives, Fails};
ghost use Rattle.sd_plantext.specs.Meaning.{referred, named, one_more_name, names_from, names_in};

use super::values::{array_at, text_of, value_at};
use crate::fault::{PlanFault, PlanKey, PlanPlace};
use indexmap::IndexSet;
use sd_plan::DeviceList;
use sd_plan::topo::Topology;
use serde_json::Value;
use std::alloc::Global;

/// What a name is of.
#[derive(Clone, Copy)]
pub(super) enum Kind {
    Device,
    Link,
}

/// The number of the device or link with a name.
fn number_of(topo: &Topology, kind: Kind, name: &str) -> Option<u32>
    ensures { result ≡ number_in (names_of kind (network topo.now)) name.now }
{
    match kind {
        Kind::Device => topo.number_of(name),
        Kind::Link => topo.link_number(name),
    }
}

/// The number of the device or link that a value names.
#[tactic(auto, unfolding(crate::specs::Meaning::referred))]
fn referred(topo: &Topology, kind: Kind, value: &Value, place: PlanPlace) -> Result<u32, PlanFault>
    ensures { Gives (λ n. n) result (referred place (names_of kind (network topo.now))
        (view value.now)) }
{
    let name = text_of(value, place)?;
    match number_of(topo, kind, name) {
        Some(number) => Ok(number),
        None => Err(PlanFault::UnknownName(place)),
    }
}

/// The number of the device or link that is named at a key.
#[tactic(auto, unfolding(crate::specs::Meaning::named))]
pub(super) fn named_at(
    topo: &Topology,
    kind: Kind,
    object: &Value,
    key: PlanKey,
    entry: u32,
) -> Result<u32, PlanFault>
    ensures { Gives (λ n. n) result (named key entry (names_of kind (network topo.now))
        (view object.now)) }
{
    let value = value_at(object, key, entry)?;
    referred(topo, kind, value, PlanPlace { key, entry })
}

/// Lists the thing that an element names, which is new in its array.
#[tactic(auto, unfolding(crate::specs::Meaning::one_more_name))]
fn list_item(
    topo: &Topology,
    kind: Kind,
    listed: &mut IndexSet<u32>,
    item: &Value,
    place: PlanPlace,
) -> Result<(), PlanFault>
    ensures ok { OnOk result (one_more_name place (names_of kind (network topo.now))
        listed.old.keys (view item.now) ≡ Ok listed.new.keys) }
    ensures err { IfErr result (λ e. Fails e (one_more_name place (names_of kind (network topo.now))
        listed.old.keys (view item.now))) }
{
    let number = referred(topo, kind, item, place)?;
    match listed.insert(number) {
        Ok(true) => return Ok(()),
        Ok(false) => return Err(PlanFault::TwiceNamed(place)),
        Err(_) => return Err(PlanFault::Memory),
    }
}

/// The numbers of the things that the elements name, in their order.
fn listed(
    alloc: Global,
    topo: &Topology,
    kind: Kind,
    items: &[Value],
    place: PlanPlace,
) -> Result<IndexSet<u32>, PlanFault>
    ensures { Gives (λ s. s.keys) result (names_from place (names_of kind (network topo.now)) []
        (items_view items.now)) }
{
    let mut listed = IndexSet::new(alloc);
    for item in items {
        match list_item(topo, kind, &mut listed, item, place) {
            Ok(()) => {}
            Err(fault) => return Err(fault),
        }
    }
    Ok(listed)
}

/// Listed numbers in ascending order.
fn sorted(alloc: Global, listed: &IndexSet<u32>) -> Result<Vec<u32>, PlanFault>
    ensures ok { IfOk result (λ v. (count : ℕ) → All (λ n. n < count) listed.now.keys → v.items
        ≡ ascending count listed.now.keys) }
    ensures err { IfErr result (λ e. e ≡ PlanFault.Memory) }
{
    let mut numbers = match Vec::from_slice(alloc, listed.as_slice()) {
        Ok(numbers) => numbers,
        Err(_) => return Err(PlanFault::Memory),
    };
    match numbers.sort() {
        Ok(()) => return Ok(numbers),
        Err(_) => return Err(PlanFault::Memory),
    }
}

/// The devices or links that are listed at a key, ascending.
#[tactic(auto, unfolding(crate::specs::Meaning::names_in))]
pub(super) fn names_at(
    alloc: Global,
    topo: &Topology,
    kind: Kind,
    object: &Value,
    key: PlanKey,
) -> Result<DeviceList, PlanFault>
    ensures { Gives (λ l. l) result (names_in key (names_of kind (network topo.now))
        (view object.now)) }
{
    let items = array_at(object, key)?;
    let listed = listed(alloc, topo, kind, items, PlanPlace { key, entry: 0 })?;
    match sorted(alloc, &listed) {
        Ok(numbers) => return Ok(DeviceList::from_vec(numbers)),
        Err(_) => return Err(PlanFault::Memory),
    }
}
