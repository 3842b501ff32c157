//! Reading a topology text: a small function for each line of its meaning.
ghost use Rattle.std.specs.Prelude.{◌≡◌, ◌≢◌, ◌≤◌, ◌^◌, Some, None, IfOk, IfErr};
ghost use Rattle.toml.specs.View.{table_view};
ghost use Rattle.sd_topotext.specs.Gives.{Gives};
ghost use Rattle.sd_plan.specs.topo.Limits.{IsRates};
ghost use Rattle.sd_plan.specs.topo.Seeds.{seed_of, AreHashed};
ghost use Rattle.sd_plan.specs.topo.Seen.{network_seen};
ghost use Rattle.sd_topotext.specs.Meaning.{params_in, top_rates, network_in, network_of};
ghost use Rattle.sd_plan.specs.topo.Topologies.{network};
ghost use Rattle.sd_topotext.specs.Reading.{tree_of};

mod devices;
mod domains;
mod links;
mod names;
mod values;

use crate::fault::{Key, TopoFault};
use devices::devices_at;
use domains::{domains_at, roots_at};
use links::links_at;
use sd_num::Rates;
use sd_plan::topo::{Params, Parts, TextSeed, Topology};
use std::alloc::Global;
use toml::Table;
use values::{SECOND, number_at};

/// The numbers at the top but for the version.
#[tactic(auto, unfolding(crate::specs::Meaning::params_in))]
fn params_at(table: &Table) -> Result<Params, TopoFault>
    ensures given { Gives (λ p. p) result (params_in (table_view table.now)) }
    ensures rates { IfOk result (λ p. IsRates (top_rates p)) }
{
    let ppm = number_at(table, Key::Ppm, 0, 0, 100_000)?;
    let grain = number_at(table, Key::Grain, 0, 0, SECOND)?;
    let period = number_at(table, Key::Period, 0, 1, SECOND)?;
    let tick = number_at(table, Key::Tick, 0, 1, SECOND)?;
    let loss = number_at(table, Key::Loss, 0, 0, 100)?;
    let depth = number_at(table, Key::Depth, 0, 1, 64)?;
    Ok(Params {
        ppm: ppm as u32,
        grain,
        period,
        tick,
        loss: loss as u32,
        depth: depth as u32,
    })
}

/// What a topology is made of, from the tree of its text.
#[tactic(auto, unfolding(crate::specs::Meaning::network_in), using(crate::proofs::Entries::device_names_seen, crate::proofs::Entries::link_names_seen))]
fn parts_at(alloc: Global, seed: TextSeed, table: &Table) -> Result<Parts, TopoFault>
    ensures given { Gives network_seen result (network_in (table_view table.now)) }
    ensures hashed { IfOk result (λ p. AreHashed seed p) }
{
    let version = number_at(table, Key::Version, 0, 1, 2)? as u32;
    let params = params_at(table)?;
    let top = Rates {
        ppm: params.ppm,
        grain: params.grain,
    };
    let devices = devices_at(alloc, seed, table, version, top)?;
    let links = links_at(alloc, seed, &devices, table, version)?;
    let domains = domains_at(alloc, seed, &devices, &links, table)?;
    let roots = roots_at(alloc, &devices, table)?;
    Ok(Parts {
        version,
        params,
        devices,
        links,
        domains,
        roots,
    })
}

/// The tree of a text.
fn tree_in(alloc: Global, bytes: &[u8]) -> Result<Table, TopoFault>
    ensures ok { IfOk result (λ t. tree_of bytes.now ≡ Some (table_view t)) }
    ensures err { IfErr result (λ e. e ≢ TopoFault.Memory → (e ≡ TopoFault.NotToml) ×
        (tree_of bytes.now ≡ None)) }
{
    let text = match std::str::from_utf8(bytes) {
        Ok(text) => text,
        Err(_) => return Err(TopoFault::NotToml),
    };
    match toml::table_from_str(alloc, text) {
        Ok(table) => Ok(table),
        Err(error) => {
            if error.is_memory() {
                return Err(TopoFault::Memory);
            }
            Err(TopoFault::NotToml)
        }
    }
}

/// What the topology of a text is made of, its names hashed by the seed of the text.
#[tactic(auto, unfolding(crate::specs::Meaning::network_of))]
fn parts_in(alloc: Global, bytes: &[u8]) -> Result<Parts, TopoFault>
    ensures given { Gives network_seen result (network_of (tree_of bytes.now)) }
    ensures hashed { IfOk result (λ p. AreHashed (seed_of bytes.now) p) }
{
    let table = match tree_in(alloc, bytes) {
        Ok(table) => table,
        Err(TopoFault::Memory) => return Err(TopoFault::Memory),
        Err(_) => return Err(TopoFault::NotToml),
    };
    parts_at(alloc, TextSeed::of(bytes), &table)
}

/// The topology that a text means, or the text's first fault.
///
/// A text of version 1 or 2 is TOML; unknown keys are ignored, and the keys of version 2 are
/// unknown in a text of version 1.
pub fn read_topology(alloc: Global, bytes: &[u8]) -> Result<Topology, TopoFault>
    ensures { Gives network result (network_of (tree_of bytes.now)) }
{
    match parts_in(alloc, bytes) {
        Ok(parts) => return Ok(Topology::new(parts)),
        Err(fault) => return Err(fault),
    }
}
