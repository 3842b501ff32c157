//! How many links are bridges: without each of them in turn the devices are searched.
ghost use Rattle.std.specs.Prelude.{◌≡◌, ◌<◌, ℕ, true, false, length, IfOk};
ghost use Rattle.sd_num.specs.Lists.{has};
ghost use Rattle.sd_plan.specs.Plans.{nothing_absent};
ghost use Rattle.sd_planner.specs.Views.{net_of, left_out};
ghost use Rattle.sd_checker.specs.check_reach.Reached.{Grows};
ghost use Rattle.sd_why.specs.Bridges.{CountsBridges, IsBeside, IsBridge};

use sd_num::NoMemory;
use sd_plan::domain::NumberSet;
use sd_planner::Present;
use std::alloc::Global;

/// Adds the neighbours of a device over links other than this one.
fn meet_besides(present: &Present, met: &mut NumberSet, d: u32, link: u32)
    requires whole { left_out present.now ≡ nothing_absent }
    requires device { d < length (net_of present.now).devices }
    requires room { met.old.bound ≡ length (net_of present.now).devices }
    ensures room { met.new.bound ≡ met.old.bound }
    ensures grows { Grows met.old.numbers met.new.numbers (IsBeside (net_of present.now) link d) }
    ensures met { (e : ℕ) → e < length (net_of present.now).devices
        → IsBeside (net_of present.now) link d e → has met.new.numbers e ≡ true }
{
    let neighbours = present.neighbours_of(d);
    for neighbour in neighbours {
        if neighbour.link != link {
            let _: bool = met.insert(neighbour.device);
        }
    }
}

/// Whether the loss of a link parts the network: a search from the first device over all other links
/// does not meet each device.
fn is_bridge(present: &Present, met: &mut NumberSet, link: u32) -> bool
    requires whole { left_out present.now ≡ nothing_absent }
    requires room { met.old.bound ≡ length (net_of present.now).devices }
    ensures room { met.new.bound ≡ met.old.bound }
    ensures bridge { result ≡ true → IsBridge (net_of present.now) link }
    ensures none { result ≡ false → ¬ IsBridge (net_of present.now) link }
{
    let count = present.topo.devices() as usize;
    met.clear();
    let _: bool = met.insert(0);
    for i in 0..count {
        if i < met.as_slice().len() {
            let d = met.as_slice()[i];
            meet_besides(present, met, d, link);
        }
    }
    met.as_slice().len() < count
}

/// How many links are bridges. It takes a search of the network for each link.
pub(crate) fn count_bridges(alloc: Global, present: &Present) -> Result<u32, NoMemory>
    requires whole { left_out present.now ≡ nothing_absent }
    ensures { IfOk result (CountsBridges (net_of present.now)) }
{
    let mut met = NumberSet::new(alloc, present.topo.devices())?;
    let mut count = 0;
    for link in 0..present.topo.links() {
        if is_bridge(present, &mut met, link) {
            count += 1;
        }
    }
    Ok(count)
}
