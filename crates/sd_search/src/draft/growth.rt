//! By how much the estimates of devices have grown once they hear again: the numbers of the drill, which
//! all plans with the same waits share.
ghost use Rattle.std.specs.Prelude.{◌<◌, ◌≤◌, ◌^◌, length};
ghost use Rattle.sd_plan.specs.topo.Topologies.{network};

use crate::draft::tables::{entry_or, set_entry};
use sd_checker::check_root::{greatest_up, silence_and_tick};
use sd_drill::ages::{ageing, oldest};
use sd_num::NoMemory;
use sd_plan::Plan;
use sd_plan::topo::Topology;
use std::alloc::Global;

/// A time in ps that no device is silent for.
const LONGEST: u128 = 1 << 96;

/// By how much the estimate of each device has grown once it hears again over walks of some length.
#[derive(Drop)]
pub(crate) struct GrowthTable {
    /// For how long an acting end may be silent to all, in ps.
    settling: u128,
    /// Twice the greatest silence over a sound path, in ps.
    both_ways: u128,
    /// How many lengths of walks there are.
    lengths: u32,
    /// By device and length, and 0 where it is not known yet.
    known: Vec<u128>,
}

/// For how long an acting end may be silent to all, by the waits of a plan.
fn settling(topo: &Topology, waits: &Plan) -> u128 {
    let silent = silence_and_tick(topo);
    let first = greatest_up(topo, waits.wait_first);
    let second = greatest_up(topo, waits.wait_second);
    let takeover = first
        .saturating_add(second)
        .saturating_add(silent.saturating_mul(6));
    let moved = greatest_up(topo, waits.wait).saturating_add(silent);
    takeover.max(moved)
}

/// By how much the estimate of a device grows over so much of its counter.
pub(crate) fn aged(topo: &Topology, d: u32, held: u64) -> u128 {
    if d < topo.devices() {
        aged_by(topo, d, u128::from(held))
    } else {
        0
    }
}

/// The same of a device of the topology.
fn aged_by(topo: &Topology, d: u32, held: u128) -> u128
    requires device { d < length (network topo.now).devices }
    requires held { held ≤ 2 ^ 100 }
{
    ageing(topo.rates(d), held)
}

/// By how much the estimate of a device grows while it hears nothing for so long.
fn grown(topo: &Topology, d: u32, quiet: u128) -> u128
    requires device { d < length (network topo.now).devices }
    requires quiet { quiet ≤ 2 ^ 96 }
{
    let rates = topo.rates(d);
    ageing(rates, oldest(rates, quiet))
}

impl GrowthTable {
    /// Nothing is known of the devices of a topology, for plans with the waits of this one.
    pub(crate) fn new(
        alloc: Global,
        topo: &Topology,
        waits: &Plan,
    ) -> Result<GrowthTable, NoMemory> {
        // walks have as many hops as the depth and one, and some have none
        let lengths = topo.params().depth.saturating_add(2);
        let count = topo.devices().saturating_mul(lengths);
        let Ok(known) = vec![in alloc; 0; count as usize] else {
            return Err(NoMemory);
        };
        let silence = silence_and_tick(topo).saturating_sub(u128::from(topo.params().tick));
        Ok(GrowthTable {
            settling: settling(topo, waits),
            both_ways: silence.saturating_mul(2),
            lengths,
            known,
        })
    }

    /// For how long a device may have heard nothing whose walks have this many hops at most.
    fn quiet(&self, long: u32) -> u128
        ensures { result ≤ 2 ^ 96 }
    {
        let rounds = self
            .both_ways
            .saturating_mul(u128::from(long).saturating_add(1));
        let quiet = self.settling.saturating_add(rounds);
        if quiet < LONGEST { quiet } else { LONGEST }
    }

    /// The growth of a device whose walks have this many hops at most.
    pub(crate) fn of(&mut self, topo: &Topology, d: u32, long: u32) -> u128 {
        let place = d.saturating_mul(self.lengths).saturating_add(long);
        let known = entry_or(self.known.as_slice(), place, 0);
        if known > 0 || d >= topo.devices() {
            return known;
        }
        let growth = grown(topo, d, self.quiet(long));
        set_entry(self.known.as_mut_slice(), place, growth);
        growth
    }
}
