//! The backups of the devices other than the backup root.
ghost use Rattle.std.specs.Prelude.{◌≡◌, ◌<◌, ◌≢◌, ℕ, ◌||◌, find, length, Some};
ghost use Rattle.sd_plan.specs.declared.Hop.{Hop};
ghost use Rattle.sd_planner.specs.Spreading.{placed_at};
ghost use Rattle.sd_planner.specs.Usable.{hops_from};
ghost use Rattle.sd_planner.specs.Serving as serving;
ghost use Rattle.sd_planner.specs.Surveys.{net_in, absent_in, order_of, AreClear, AreJoining};

use super::flags::{is_any_set, set_flags};
use super::survey::Survey;
use crate::Placed;
use sd_plan::Hop;

impl Survey<'_> {
    /// Flags the listed domains that join a primary hop of a device to others: those that have its
    /// link or parent, and leave the device out.
    fn set_joining(&self, joining: &mut [bool], d: u32, primary: Hop)
        requires clear { AreClear (net_in self.now) joining.old }
        ensures { AreJoining (net_in self.now) d primary joining.new }
    {
        set_flags(joining, self.domains.of_link(primary.link), true);
        set_flags(joining, self.domains.of_device(primary.parent), true);
        set_flags(joining, self.domains.of_device(d), false);
    }

    /// Takes the flags of a primary hop away again.
    fn clear_joining(&self, joining: &mut [bool], primary: Hop)
        requires size { length joining.old ≡ length (net_in self.now).domains }
        ensures { (d : ℕ) → AreJoining (net_in self.now) d primary joining.old
            → AreClear (net_in self.now) joining.new }
    {
        set_flags(joining, self.domains.of_link(primary.link), false);
        set_flags(joining, self.domains.of_device(primary.parent), false);
    }

    /// Whether a flagged domain has the link or the parent of a hop.
    fn is_joined(&self, joining: &[bool], hop: Hop) -> bool
        ensures { (d : ℕ) (primary : Hop) → AreJoining (net_in self.now) d primary joining.now
            → result ≡ serving.are_joined (net_in self.now) d primary hop }
    {
        is_any_set(joining, self.domains.of_link(hop.link))
            || is_any_set(joining, self.domains.of_device(hop.parent))
    }

    /// Whether two placed devices lie on different sides, or the first comes before the second.
    fn may_follow(&self, parent: Placed, own: Placed) -> bool
        requires parent { placed_at (order_of self.now) parent.device ≡ Some parent }
        requires own { placed_at (order_of self.now) own.device ≡ Some own }
        ensures { result ≡ (serving.differ
            (serving.is_behind_backup_root
            (net_in self.now) self.now.root (absent_in self.now) parent.device)
            (serving.is_behind_backup_root
            (net_in self.now) self.now.root (absent_in self.now) own.device)
            || serving.comes_before
            (net_in self.now) self.now.root (absent_in self.now) parent.device own.device) }
    {
        self.is_behind(parent) != self.is_behind(own) || self.comes_before(parent, own)
    }

    /// Whether a hop serves as backup of a placed device, whose primary hop is given.
    fn serves(&self, joining: &[bool], own: Placed, primary: Hop, hop: Hop) -> bool
        requires own { placed_at (order_of self.now) own.device ≡ Some own }
        requires joining { AreJoining (net_in self.now) own.device primary joining.now }
        ensures { result ≡ serving.serves (net_in self.now) self.now.root
            (absent_in self.now) own.device primary hop }
    {
        if hop.link == primary.link || hop.parent == primary.parent {
            return false;
        }
        match self.placed(hop.parent) {
            Some(parent) => self.may_follow(parent, own) && !self.is_joined(joining, hop),
            None => false,
        }
    }

    /// The first hop of a placed device that serves.
    fn first_serving(&self, joining: &[bool], own: Placed, primary: Hop) -> Option<Hop>
        requires range { own.device < length (net_in self.now).devices }
        requires own { placed_at (order_of self.now) own.device ≡ Some own }
        requires joining { AreJoining (net_in self.now) own.device primary joining.now }
        ensures { result
            ≡ find (serving.serves (net_in self.now) self.now.root
            (absent_in self.now) own.device primary)
            (hops_from (net_in self.now) (absent_in self.now) own.device) }
    {
        for neighbour in self.neighbours_of(own.device) {
            let hop = neighbour.hop();
            if self.serves(joining, own, primary, hop) {
                return Some(hop);
            }
        }
        None
    }

    /// The backup of a placed device other than the backup root. The flags, one for each listed
    /// domain, are lent to the search and are clear before and after it.
    pub(crate) fn ordinary_backup(
        &self,
        joining: &mut [bool],
        own: Placed,
        primary: Hop,
    ) -> Option<Hop>
        requires range { own.device < length (net_in self.now).devices }
        requires own { placed_at (order_of self.now) own.device ≡ Some own }
        requires other { own.device ≢ self.now.backup_root }
        requires clear { AreClear (net_in self.now) joining.old }
        ensures backup { result ≡ serving.backup_for (net_in self.now) self.now.root
            (absent_in self.now) own.device primary }
        ensures clear { AreClear (net_in self.now) joining.new }
    {
        self.set_joining(joining, own.device, primary);
        let backup = self.first_serving(joining, own, primary);
        self.clear_joining(joining, primary);
        backup
    }
}
