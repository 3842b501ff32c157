//! A search from the acting end, which goes on for as long as others ask who is cut off from it.
ghost use Rattle.std.specs.Prelude.{◌≡◌, length, IfOk};
ghost use Rattle.sd_plan.specs.topo.Topologies.{network};

use crate::check_reach::aftermath::Aftermath;
use sd_num::NoMemory;
use sd_plan::domain::NumberSet;
use sd_plan::topo::Topology;
use std::alloc::Global;

/// What links and devices that the domain leaves join to the acting end, as far as this is known.
#[derive(Drop)]
pub(crate) struct Home {
    /// The acting end first, once the search has begun.
    pub(crate) joined: NumberSet,
    /// This many of these have been looked around from.
    pub(crate) done: usize,
}

impl Home {
    ghost use Rattle.std.specs.Prelude.{[], true, false};
    ghost use Rattle.sd_num.specs.Lists.{has};
    ghost use Rattle.sd_checker.specs.check_reach.Homes.{IsWhole};

    /// A search that has not begun, with room for the devices of a topology.
    pub(crate) fn new(alloc: Global, topo: &Topology) -> Result<Home, NoMemory>
        ensures room { IfOk result (λ home. home.joined.bound ≡ length (network topo.now).devices) }
        ensures none { IfOk result (λ home. home.joined.numbers ≡ []) }
        ensures done { IfOk result (λ home. home.done ≡ 0) }
    {
        let joined = NumberSet::new(alloc, topo.devices())?;
        Ok(Home { joined, done: 0 })
    }

    /// Forgets all, so that another domain can be searched.
    pub(crate) fn clear(&mut self)
        ensures room { self.new.joined.bound ≡ self.old.joined.bound }
        ensures none { self.new.joined.numbers ≡ [] }
        ensures done { self.new.done ≡ 0 }
    {
        self.joined.clear();
        self.done = 0;
    }

    /// Whether the search has run dry, and has not come to a device.
    pub(crate) fn lacks(&self, d: u32) -> bool
        ensures whole { result ≡ true → IsWhole self.now }
        ensures lacks { result ≡ true → has self.now.joined.numbers d ≡ false }
    {
        0 < self.done && self.joined.as_slice().len() <= self.done && !self.joined.contains(d)
    }
}

impl Aftermath<'_> {
    ghost use Rattle.sd_checker.specs.check_reach.Aftermaths.{net_of, plan_of, domain_of};
    ghost use Rattle.sd_checker.specs.check_reach.Homes.{IsHome};

    /// Goes on with the search from the acting end by one device, if one is left. None of its steps
    /// meets the acting end, which it has.
    pub(crate) fn spread(&self, home: &mut Home)
        requires home { IsHome (net_of self.now) (plan_of self.now) (domain_of self.now) home.old }
        requires room { home.old.joined.bound ≡ length (net_of self.now).devices }
        ensures home { IsHome (net_of self.now) (plan_of self.now) (domain_of self.now) home.new }
        ensures room { home.new.joined.bound ≡ home.old.joined.bound }
    {
        let _: bool = home.joined.insert(self.acting);
        if home.done >= home.joined.as_slice().len() {
            return;
        }
        let d = home.joined.as_slice()[home.done];
        if !self.look_around(false, d, &mut home.joined) {
            home.done += 1;
        }
    }
}
