//! A second topology with the same answers.
ghost use Rattle.std.specs.Prelude.{◌≡◌, ◌+◌, ◌++◌, ◌∷◌, [], IfOk, OnOk, false, string_bytes};
ghost use Rattle.std.specs.List.{list_any, AllZip};
ghost use Rattle.std.specs.Str.{bytes_eq};
ghost use Rattle.indexmap.specs.IndexMap.{hasher_of};
ghost use Rattle.sd_plan.specs.topo.Seen.{names_seen};
ghost use Rattle.sd_plan.specs.topo.Copies.{IsCopy, AddsCopy};

use crate::topo::LinkEntry;
use crate::topo::parts::{Group, Names, Station, add_named};
use sd_num::NoMemory;
use std::alloc::Global;

/// What a table holds of a named thing, and how it is copied.
pub(crate) trait CopyIn: Drop {
    // The second is a copy of the first.
    ghost same: { Self → Self → Type 0 };

    /// A copy in the given memory.
    fn copy_in(&self, alloc: Global) -> Result<Self, NoMemory>
        ensures { IfOk result (λ copy. same self.now copy) };
}

impl CopyIn for Station {
    ghost same = { λ a b. b ≡ a };

    fn copy_in(&self, _alloc: Global) -> Result<Station, NoMemory> {
        Ok(*self)
    }
}

impl CopyIn for LinkEntry {
    ghost same = { λ a b. b ≡ a };

    fn copy_in(&self, _alloc: Global) -> Result<LinkEntry, NoMemory> {
        Ok(*self)
    }
}

/// A copy of some numbers.
pub(crate) fn copy_numbers(alloc: Global, numbers: &[u32]) -> Result<Vec<u32>, NoMemory>
    ensures { IfOk result (λ v. v.items ≡ numbers.now) }
{
    match Vec::from_slice(alloc, numbers) {
        Ok(copy) => return Ok(copy),
        Err(_) => return Err(NoMemory),
    }
}

impl CopyIn for Group {
    ghost same = { λ a b. (b.devices.items ≡ a.devices.items) × (b.links.items ≡ a.links.items) };

    fn copy_in(&self, alloc: Global) -> Result<Group, NoMemory> {
        let devices = copy_numbers(alloc, self.devices.as_slice())?;
        let links = copy_numbers(alloc, self.links.as_slice())?;
        Ok(Group { devices, links })
    }
}

/// Adds a copy of an entry, whose name is new.
fn copy_entry<V: CopyIn>(
    alloc: Global,
    copies: &mut Names<V>,
    name: &str,
    value: &V,
) -> Result<(), NoMemory>
    requires { list_any (bytes_eq name.now) (names_seen copies.old) ≡ false }
    ensures { OnOk result (AddsCopy V.same copies.old copies.new name.now value.now) }
{
    let copy = value.copy_in(alloc)?;
    add_named(alloc, copies, name, copy)?;
    Ok(())
}

/// A copy of a table of named things.
pub(crate) fn copy_table<V: CopyIn>(alloc: Global, table: &Names<V>) -> Result<Names<V>, NoMemory>
    ensures entries { IfOk result (λ m. AllZip (IsCopy V.same) table.now.entries m.entries) }
    ensures hasher { IfOk result (λ m. hasher_of m ≡ hasher_of table.now) }
{
    let mut copies = Names::with_hasher(alloc, *table.hasher());
    for number in 0..table.len() {
        match table.get_index(number) {
            Some((name, value)) => copy_entry(alloc, &mut copies, name.as_str(), value)?,
            None => unreachable!(),
        }
    }
    Ok(copies)
}
