//! Names: an entry's own, which is new among its kind, and those that refer to a device or link.
ghost use Rattle.std.specs.Prelude.{◌≡◌, ◌≤◌, ◌<◌, ◌^◌, ◌+◌, ℕ, not, false, length, OnOk, IfOk, IfErr, []};
ghost use Rattle.std.specs.List.{list_any, IsDistinct};
ghost use Rattle.std.specs.Str.{bytes_eq};
ghost use Rattle.indexmap.specs.IndexMap.{index_map_len};
ghost use Rattle.toml.specs.View.{view, table_view, items_view};
ghost use Rattle.sd_topotext.specs.Gives.{Gives, Fails};
ghost use Rattle.sd_plan.specs.topo.Seen.{names_seen, Adds};
ghost use Rattle.sd_topotext.specs.Meaning.{own_name, referred, known, one_more, each_from};

use super::values::{is_name, text_at, text_of};
use crate::fault::{Key, Place, TopoFault};
use indexmap::IndexSet;
use sd_plan::topo::{Names, TextSeed, add_named};
use std::alloc::Global;
use toml::{Table, Value};

/// Numbers of things in the order of an array.
pub(super) type Listed = IndexSet<u32, TextSeed>;

/// Whether a name is taken.
#[tactic(auto, using(crate::proofs::Names::taken))]
fn is_taken<V>(names: &Names<V>, name: &str) -> bool
    ensures { result ≡ list_any (bytes_eq name.now) (names_seen names.now) }
{
    names.contains_key(name)
}

/// An entry's own name, within the limits of names and new among its kind.
#[tactic(auto, unfolding(crate::specs::Meaning::own_name))]
pub(super) fn own_name<'a, V>(
    names: &Names<V>,
    table: &'a Table,
    key: Key,
    entry: u32,
) -> Result<&'a str, TopoFault>
    ensures given { Gives (λ s. s.now) result (own_name key entry (names_seen names.now)
        (table_view table.now)) }
    ensures new { IfOk result (λ s. list_any (bytes_eq s.now) (names_seen names.now) ≡ false) }
{
    let name = text_at(table, key, entry)?;
    if !is_name(name) {
        return Err(TopoFault::Range(Place { key, entry }));
    }
    if is_taken(names, name) {
        return Err(TopoFault::TwiceNamed(Place { key, entry }));
    }
    Ok(name)
}

/// Adds an entry with a new name.
pub(super) fn add<V: Drop>(
    alloc: Global,
    names: &mut Names<V>,
    name: &str,
    value: V,
) -> Result<(), TopoFault>
    requires { list_any (bytes_eq name.now) (names_seen names.old) ≡ false }
    ensures ok { OnOk result (Adds names.old names.new name.now value) }
    ensures len { OnOk result (index_map_len names.new ≡ index_map_len names.old + 1) }
    ensures err { IfErr result (λ e. e ≡ TopoFault.Memory) }
{
    match add_named(alloc, names, name, value) {
        Ok(()) => return Ok(()),
        Err(_) => return Err(TopoFault::Memory),
    }
}

/// The number of the device or link that an element of an array names.
#[tactic(auto, unfolding(crate::specs::Meaning::referred), using(crate::proofs::Names::named_at))]
pub(super) fn referred<V>(names: &Names<V>, item: &Value, place: Place) -> Result<u32, TopoFault>
    requires { index_map_len names.now < 2 ^ 32 }
    ensures given { Gives (λ n. n) result (referred place (names_seen names.now) (view item.now)) }
    ensures range { IfOk result (λ n. n < index_map_len names.now) }
{
    let name = text_of(item, place)?;
    match names.get_index_of(name) {
        Some(number) => Ok(number as u32),
        None => Err(TopoFault::UnknownName(place)),
    }
}

/// Lists the thing that an element names, which is new in its array.
#[tactic(auto, unfolding(crate::specs::Meaning::one_more))]
fn list_item<V>(
    names: &Names<V>,
    listed: &mut Listed,
    item: &Value,
    place: Place,
) -> Result<(), TopoFault>
    requires { index_map_len names.now < 2 ^ 32 }
    ensures ok { OnOk result (one_more place (names_seen names.now) listed.old.keys
        (view item.now) ≡ Ok listed.new.keys) }
    ensures err { IfErr result (λ e. Fails e (one_more place (names_seen names.now)
        listed.old.keys (view item.now))) }
{
    let number = referred(names, item, place)?;
    match listed.insert(number) {
        Ok(true) => return Ok(()),
        Ok(false) => return Err(TopoFault::TwiceNamed(place)),
        Err(_) => return Err(TopoFault::Memory),
    }
}

/// The numbers of the things that the elements name, in their order.
pub(super) fn listed<V>(
    alloc: Global,
    names: &Names<V>,
    items: &[Value],
    place: Place,
) -> Result<Listed, TopoFault>
    requires { index_map_len names.now < 2 ^ 32 }
    ensures { Gives (λ s. s.keys) result (each_from (one_more place (names_seen names.now)) []
        (items_view items.now)) }
{
    let mut listed = Listed::with_hasher(alloc, *names.hasher());
    for item in items {
        match list_item(names, &mut listed, item, place) {
            Ok(()) => {}
            Err(fault) => return Err(fault),
        }
    }
    Ok(listed)
}
