//! Searches for the acting end, outward over links and devices that the domain leaves.
ghost use Rattle.std.specs.Prelude.{◌≡◌, IfOk};
ghost use Rattle.sd_plan.specs.topo.Topologies.{network};

use crate::check_reach::aftermath::Aftermath;
use crate::check_reach::home::Home;
use sd_num::NoMemory;
use sd_plan::End;
use sd_plan::domain::NumberSet;
use sd_plan::topo::Topology;
use std::alloc::Global;

/// What searches found out under one domain, in room that serves one domain after another. Only
/// `new` takes memory.
#[derive(Drop)]
pub struct Search {
    /// Devices that are cut off from the acting end: what searches visited that ran dry.
    visited: NumberSet,
    /// The search from the acting end.
    home: Home,
    /// Whether the backup root is cut off neither, once this is known: then what is not hit is not
    /// cut off.
    trusted: Option<bool>,
}

impl Search {
    ghost use Rattle.sd_plan.specs.topo.Network.{Network};
    ghost use Rattle.sd_plan.specs.declared.domain.DomainId.{DomainId as DomainSeen};
    ghost use Rattle.sd_plan.specs.declared.Plan.{Plan as PlanSeen};
    ghost use Rattle.sd_checker.specs.check_reach.Searches.{HasRoom, IsSearchOf};

    /// A search with room for the devices of a topology.
    pub fn new(alloc: Global, topo: &Topology) -> Result<Search, NoMemory>
        ensures room { IfOk result (HasRoom (network topo.now)) }
        ensures fresh { IfOk result
            (λ search. (net : Network) (plan : PlanSeen) (domain : DomainSeen)
            → IsSearchOf net plan domain search) }
    {
        let visited = NumberSet::new(alloc, topo.devices())?;
        let home = Home::new(alloc, topo)?;
        Ok(Search {
            visited,
            home,
            trusted: None,
        })
    }

    /// Forgets all, so that another domain can be searched.
    pub fn clear(&mut self)
        ensures room { (net : Network) → HasRoom net self.old → HasRoom net self.new }
        ensures fresh { (net : Network) (plan : PlanSeen) (domain : DomainSeen)
            → IsSearchOf net plan domain self.new }
    {
        self.visited.clear();
        self.home.clear();
        self.trusted = None;
    }
}

impl Aftermath<'_> {
    ghost use Rattle.std.specs.Prelude.{◌<◌, ℕ, true, false, length, slice_get, None, Some, IsTrue};
    ghost use Rattle.sd_num.specs.Lists.{has};
    ghost use Rattle.sd_plan.specs.Plans.{is_member};
    ghost use Rattle.sd_checker.specs.check_reach.Aftermaths.{net_of, plan_of, domain_of};
    ghost use Rattle.sd_checker.specs.check_reach.Homes.{IsHome};
    ghost use Rattle.sd_checker.specs.check_reach.Reach.{acting_end, is_sound};
    ghost use Rattle.sd_checker.specs.check_reach.Reached.{BackupReaches, FirstReached, Grows, IsDry, IsPassed, IsStep, LeadsInto, Reaches, is_left};
    ghost use Rattle.sd_checker.specs.check_reach.Searches.{HasRoom, IsSearchOf};

    /// Whether a sound device is joined to the acting end for sure. One that is not hit is so where
    /// the backup root is, if that is sound: its cut path leads to the root or the backup root.
    fn is_sure(&self, trusted: bool, d: u32) -> bool
        requires trust { IsTrue trusted
            → BackupReaches (net_of self.now) (plan_of self.now) (domain_of self.now) }
        requires device { d < length (net_of self.now).devices }
        requires sound { IsTrue
            (is_sound (net_of self.now) (plan_of self.now) (domain_of self.now) d) }
        ensures sure { IsTrue result
            → Reaches (net_of self.now) (plan_of self.now) (domain_of self.now) d }
        ensures other { result ≡ false
            → d ≡ acting_end (net_of self.now) (plan_of self.now) (domain_of self.now) → ⊥ }
    {
        d == self.acting || trusted && !self.outage.hits(d)
    }

    /// Looks at the other end of a link, which is a member, and whether it is left and joined to
    /// the acting end for sure. An end that is left and not sure is added to what is visited.
    fn visit(&self, trusted: bool, end: End, visited: &mut NumberSet) -> bool
        requires trust { IsTrue trusted
            → BackupReaches (net_of self.now) (plan_of self.now) (domain_of self.now) }
        requires device { end.device < length (net_of self.now).devices }
        requires member { IsTrue (is_member (plan_of self.now) end.device) }
        requires room { visited.old.bound ≡ length (net_of self.now).devices }
        ensures left { result ≡ true
            → is_left (net_of self.now) (domain_of self.now) end.link end.device ≡ true }
        ensures met { result ≡ true
            → Reaches (net_of self.now) (plan_of self.now) (domain_of self.now) end.device }
        ensures passed { result ≡ false
            → is_left (net_of self.now) (domain_of self.now) end.link end.device ≡ true
            → has visited.new.numbers end.device ≡ true }
        ensures grown { Grows visited.old.numbers visited.new.numbers
            (IsPassed (net_of self.now) (plan_of self.now)
            (domain_of self.now) end.link end.device) }
        ensures room { visited.new.bound ≡ visited.old.bound }
    {
        if visited.contains(end.device) || !self.leaves(end.link, end.device) {
            return false;
        }
        if self.is_sure(trusted, end.device) {
            return true;
        }
        let _: bool = visited.insert(end.device);
        false
    }

    /// Looks at all ends of the links of a device, and whether one is joined to the acting end for
    /// sure, over what the domain leaves. What may be is added to what is visited.
    pub(crate) fn look_around(&self, trusted: bool, d: u32, visited: &mut NumberSet) -> bool
        requires trust { IsTrue trusted
            → BackupReaches (net_of self.now) (plan_of self.now) (domain_of self.now) }
        requires device { d < length (net_of self.now).devices }
        requires room { visited.old.bound ≡ length (net_of self.now).devices }
        ensures met { result ≡ true
            → Reaches (net_of self.now) (plan_of self.now) (domain_of self.now) d }
        ensures around { result ≡ false
            → LeadsInto (net_of self.now) (plan_of self.now)
            (domain_of self.now) visited.new.numbers d }
        ensures grown { Grows visited.old.numbers visited.new.numbers
            (IsStep (net_of self.now) (plan_of self.now) (domain_of self.now) d) }
        ensures room { visited.new.bound ≡ visited.old.bound }
    {
        for end in self.outage.planned.index.links_at(d) {
            if self.visit(trusted, *end, visited) {
                return true;
            }
        }
        false
    }

    /// Whether a sound device is joined to the acting end. The set has what earlier searches visited,
    /// which is cut off; where this one runs dry, all that it visited is added. A search from the
    /// acting end goes on step by step beside it, so that the shorter of the two ends both.
    fn finds(&self, trusted: bool, from: u32, visited: &mut NumberSet, home: &mut Home) -> bool
        requires trust { IsTrue trusted
            → BackupReaches (net_of self.now) (plan_of self.now) (domain_of self.now) }
        requires device { from < length (net_of self.now).devices }
        requires sound { IsTrue
            (is_sound (net_of self.now) (plan_of self.now) (domain_of self.now) from) }
        requires dry { IsDry (net_of self.now) (plan_of self.now) (domain_of self.now)
            visited.old.numbers }
        requires room { visited.old.bound ≡ length (net_of self.now).devices }
        requires home { IsHome (net_of self.now) (plan_of self.now) (domain_of self.now) home.old }
        requires home_room { home.old.joined.bound ≡ length (net_of self.now).devices }
        ensures met { result ≡ true
            → Reaches (net_of self.now) (plan_of self.now) (domain_of self.now) from }
        ensures cut { result ≡ false
            → Reaches (net_of self.now) (plan_of self.now) (domain_of self.now) from → ⊥ }
        ensures dry { result ≡ false
            → IsDry (net_of self.now) (plan_of self.now) (domain_of self.now) visited.new.numbers }
        ensures room { visited.new.bound ≡ visited.old.bound }
        ensures home { IsHome (net_of self.now) (plan_of self.now) (domain_of self.now) home.new }
        ensures home_room { home.new.joined.bound ≡ home.old.joined.bound }
    {
        if from == self.acting {
            return true;
        }
        if home.lacks(from) {
            return false;
        }
        let mut at = visited.as_slice().len();
        let _: bool = visited.insert(from);
        while at < visited.as_slice().len() {
            self.spread(home);
            if home.lacks(from) {
                visited.clear();
                return false;
            }
            let d = visited.as_slice()[at];
            if self.look_around(trusted, d, visited) {
                return true;
            }
            at += 1;
        }
        false
    }

    /// Whether the backup root, if it is sound, is joined to the acting end. A search is needed only
    /// where the domain hits it.
    fn backup_reaches(&self, visited: &mut NumberSet, home: &mut Home) -> bool
        requires dry { IsDry (net_of self.now) (plan_of self.now) (domain_of self.now)
            visited.old.numbers }
        requires room { visited.old.bound ≡ length (net_of self.now).devices }
        requires home { IsHome (net_of self.now) (plan_of self.now) (domain_of self.now) home.old }
        requires home_room { home.old.joined.bound ≡ length (net_of self.now).devices }
        ensures reaches { IsTrue result
            → BackupReaches (net_of self.now) (plan_of self.now) (domain_of self.now) }
        ensures dry { IsDry (net_of self.now) (plan_of self.now)
            (domain_of self.now) visited.new.numbers }
        ensures room { visited.new.bound ≡ visited.old.bound }
        ensures home { IsHome (net_of self.now) (plan_of self.now) (domain_of self.now) home.new }
        ensures home_room { home.new.joined.bound ≡ home.old.joined.bound }
    {
        let backup = self.outage.planned.plan.backup_root;
        if self.outage.holds_device(backup) || !self.outage.hits(backup) {
            return true;
        }
        let reaches = self.finds(false, backup, visited, home);
        if reaches {
            visited.clear();
        }
        reaches
    }

    /// Whether what is not hit is joined to the acting end for sure.
    fn trusts_backup(&self, search: &mut Search) -> bool
        requires search { IsSearchOf (net_of self.now) (plan_of self.now) (domain_of self.now)
            search.old }
        requires room { HasRoom (net_of self.now) search.old }
        ensures trust { IsTrue result
            → BackupReaches (net_of self.now) (plan_of self.now) (domain_of self.now) }
        ensures search { IsSearchOf (net_of self.now) (plan_of self.now) (domain_of self.now)
            search.new }
        ensures room { HasRoom (net_of self.now) search.new }
    {
        if let Some(known) = search.trusted {
            return known;
        }
        let trusted = self.backup_reaches(&mut search.visited, &mut search.home);
        search.trusted = Some(trusted);
        trusted
    }

    /// The first of some devices that is not cut off from the acting end.
    pub(crate) fn first_uncut(&self, search: &mut Search, candidates: &[u32]) -> Option<u32>
        requires devices { (i d : ℕ) → slice_get candidates.now i ≡ Some d
            → d < length (net_of self.now).devices }
        requires sound { (i d : ℕ) → slice_get candidates.now i ≡ Some d
            → IsTrue (is_sound (net_of self.now) (plan_of self.now) (domain_of self.now) d) }
        requires search { IsSearchOf (net_of self.now) (plan_of self.now) (domain_of self.now)
            search.old }
        requires room { HasRoom (net_of self.now) search.old }
        ensures first { FirstReached (net_of self.now) (plan_of self.now)
            (domain_of self.now) candidates.now result }
        ensures search { result ≡ None
            → IsSearchOf (net_of self.now) (plan_of self.now) (domain_of self.now) search.new }
        ensures room { HasRoom (net_of self.now) search.new }
    {
        if candidates.is_empty() {
            return None;
        }
        let trusted = self.trusts_backup(search);
        for d in candidates {
            if self.finds(trusted, *d, &mut search.visited, &mut search.home) {
                return Some(*d);
            }
        }
        None
    }
}
