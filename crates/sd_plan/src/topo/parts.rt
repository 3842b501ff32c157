//! What a topology is made of: tables of named things, and the numbers beside them.
ghost use Rattle.std.specs.Prelude.{◌≡◌, ◌+◌, ◌∷◌, [], OnOk, false, flat_map};
ghost use Rattle.std.specs.List.{list_any};
ghost use Rattle.std.specs.Str.{bytes_eq};
ghost use Rattle.indexmap.specs.IndexMap.{index_map_len};
ghost use Rattle.sd_num.specs.Lists.{greatest};
ghost use Rattle.sd_plan.specs.topo.Seen.{names_seen, links_seen, Adds};

use crate::topo::seed::TextSeed;
use crate::topo::{LinkEntry, Params, Side};
use indexmap::IndexMap;
use sd_num::{NoMemory, Rates};
use std::alloc::Global;

/// What a device has beside its name.
#[derive(Clone, Copy)]
pub struct Station {
    pub side: Side,
    pub rates: Rates,
}

/// What a listed domain has beside its name: numbers, ascending.
#[derive(Drop)]
pub struct Group {
    pub devices: Vec<u32>,
    pub links: Vec<u32>,
}

/// Things by their names, in the order of their numbers.
pub type Names<V> = IndexMap<String, V, TextSeed>;

/// All that a topology is made of. Devices, links and listed domains stand in the order of their
/// numbers, and are found by their names by hashing.
#[derive(Drop)]
pub struct Parts {
    /// 1 or 2.
    pub version: u32,
    pub params: Params,
    pub devices: Names<Station>,
    pub links: Names<LinkEntry>,
    pub domains: Names<Group>,
    /// The candidates for root and backup root, in order.
    pub roots: Vec<u32>,
}

/// Adds a thing with a new name to those of its kind.
pub fn add_named<V: Drop>(
    alloc: Global,
    things: &mut Names<V>,
    name: &str,
    thing: V,
) -> Result<(), NoMemory>
    requires { list_any (bytes_eq name.now) (names_seen things.old) ≡ false }
    ensures ok { OnOk result (Adds things.old things.new name.now thing) }
    ensures len { OnOk result (index_map_len things.new ≡ index_map_len things.old + 1) }
{
    let key = match String::from_str(alloc, name) {
        Ok(key) => key,
        Err(_) => return Err(NoMemory),
    };
    match things.insert(key, thing) {
        Ok(_) => return Ok(()),
        Err(_) => return Err(NoMemory),
    }
}

/// The greatest delay of any link in either direction, 0 where there is no link.
pub(crate) fn longest_delay(links: &Names<LinkEntry>) -> u64
    ensures { result ≡ greatest (flat_map (λ link. link.entry.max ∷ link.entry.back_max ∷ [])
        (links_seen links.now)) }
{
    let mut longest: u64 = 0;
    for number in 0..links.len() {
        let link = links[number];
        longest = longest.max(link.max).max(link.back_max);
    }
    longest
}
