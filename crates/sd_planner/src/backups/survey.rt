//! What is asked of again and again while backups are chosen.
ghost use Rattle.std.specs.Prelude.{◌≡◌, ◌<◌, ℕ, length, slice_get, Some, IfOk, IfSome};
ghost use Rattle.sd_num.specs.Lists.{has};
ghost use Rattle.sd_plan.specs.Walks.{devices_of};
ghost use Rattle.sd_planner.specs.Views.{net_of, left_out};
ghost use Rattle.sd_planner.specs.declared.placement.Placed.{Placed};
ghost use Rattle.sd_planner.specs.Spreading.{placed_at};
ghost use Rattle.sd_planner.specs.Placing as placing;
ghost use Rattle.sd_planner.specs.Climbs.{way_up};
ghost use Rattle.sd_planner.specs.Flags as words;
ghost use Rattle.sd_planner.specs.Flags.{HaveGrown};
ghost use Rattle.sd_planner.specs.Listed.{AreListed};
ghost use Rattle.sd_planner.specs.Serving as serving;

use super::domain_lists::DomainLists;
use super::flags::{is_set, no_flags};
use super::over::led_over;
use crate::{Neighbour, Placed, Placement, Present, backup_root_of};
use sd_num::NoMemory;
use std::alloc::Global;

/// Which placed devices are a given one, or follow the root over it.
fn behind(
    alloc: Global,
    present: &Present,
    placement: &Placement,
    device: u32,
) -> Result<Vec<bool>, NoMemory>
    requires grown { HaveGrown (length (net_of present.now).devices) placement.now.order }
    requires range { device < length (net_of present.now).devices }
    ensures { IfOk result (λ behind. (i : ℕ) (p : Placed) → slice_get placement.now.order i ≡ Some p
        → words.is_set behind.items p.device
        ≡ has (devices_of p.device (way_up placement.now.order p.device)) device) }
{
    let mut devices = no_flags(alloc, present.topo.devices() as usize)?;
    devices[device as usize] = true;
    let links = no_flags(alloc, present.topo.links() as usize)?;
    led_over(alloc, placement, devices.as_slice(), links.as_slice())
}

/// A topology whose devices are placed, and what is asked of it while backups are chosen.
#[derive(Drop)]
pub(crate) struct Survey<'a> {
    pub(crate) present: &'a Present<'a>,
    pub(crate) placement: &'a Placement,
    pub(crate) root: u32,
    pub(crate) backup_root: u32,
    /// Which placed devices are the backup root or follow the root over it.
    pub(crate) behind: Vec<bool>,
    pub(crate) domains: DomainLists,
    pub ghost root_within: { root < length (net_of present.now).devices },
    pub ghost placement_is: { placement.now ≡ record {
      order = placing.placed (net_of present.now) root (left_out present.now);
      count = length (net_of present.now).devices;
    } },
    pub ghost backup_root_is: { backup_root
        ≡ placing.backup_root_of (net_of present.now) root (left_out present.now) },
    pub ghost behind_are: { (d : ℕ) (p : Placed)
        → placed_at (placing.placed (net_of present.now) root (left_out present.now)) d ≡ Some p
        → words.is_set behind.items d
        ≡ serving.on_walk_up (net_of present.now) root (left_out present.now) d backup_root },
    pub ghost domains_are: { AreListed (net_of present.now)
        (length (net_of present.now).domains) domains },
}

impl<'a> Survey<'a> {
    ghost use Rattle.sd_planner.specs.Usable.{neighbours_of};
    ghost use Rattle.sd_planner.specs.Surveys.{net_in, absent_in, order_of};

    /// The survey of what is present, with its devices placed below a root.
    pub(crate) fn new(
        alloc: Global,
        present: &'a Present<'a>,
        placement: &'a Placement,
        root: u32,
    ) -> Result<Survey<'a>, NoMemory>
        requires root { root < length (net_of present.now).devices }
        requires placement { placement.now ≡ record {
          order = placing.placed (net_of present.now) root (left_out present.now);
          count = length (net_of present.now).devices;
        } }
        ensures present { IfOk result (λ s. s.present.now ≡ present.now) }
        ensures root { IfOk result (λ s. s.root ≡ root) }
    {
        let backup_root = backup_root_of(present, root);
        let behind = behind(alloc, present, placement, backup_root)?;
        let domains = DomainLists::new(alloc, present.topo)?;
        Ok(Survey {
            present,
            placement,
            root,
            backup_root,
            behind,
            domains,
        })
    }

    /// A device as it was placed, if it was.
    pub(crate) fn placed(&self, d: u32) -> Option<Placed>
        ensures is { result ≡ placed_at (order_of self.now) d }
        ensures same { IfSome result (λ p. p.device ≡ d) }
    {
        if d < self.present.topo.devices() {
            self.placement.find(d)
        } else {
            None
        }
    }

    /// The neighbours of a device.
    pub(crate) fn neighbours_of(&self, d: u32) -> &[Neighbour]
        requires { d < length (net_in self.now).devices }
        ensures { result.now ≡ neighbours_of (net_in self.now) (absent_in self.now) d }
    {
        self.present.neighbours_of(d)
    }

    /// Whether a placed device is the backup root or follows the root over it.
    pub(crate) fn is_behind(&self, d: Placed) -> bool
        requires { placed_at (order_of self.now) d.device ≡ Some d }
        ensures { result ≡ serving.is_behind_backup_root (net_in self.now) self.now.root
            (absent_in self.now) d.device }
    {
        is_set(self.behind.as_slice(), d.device)
    }

    /// Whether a placed device comes before another by depth and number, the root before all.
    pub(crate) fn comes_before(&self, y: Placed, d: Placed) -> bool
        requires first { placed_at (order_of self.now) y.device ≡ Some y }
        requires second { placed_at (order_of self.now) d.device ≡ Some d }
        ensures { result ≡ serving.comes_before (net_in self.now) self.now.root
            (absent_in self.now) y.device d.device }
    {
        y.device == self.root || y.depth < d.depth || (y.depth == d.depth && y.device < d.device)
    }
}
