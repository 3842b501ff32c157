//! Where hit devices turn.

use crate::check_reach::aftermath::Aftermath;

/// Where a hit device turns.
#[derive(Clone, Copy)]
pub(crate) enum Turn {
    /// It comes to hear the acting end.
    Fed,
    /// It does not.
    Lost,
    /// It does if the hit device at this place does.
    To(usize),
}

impl Aftermath<'_> {
    ghost use Rattle.std.specs.Prelude.{◌≡◌, IsTrue};
    ghost use Rattle.sd_plan.specs.Walks.{is_hit};
    ghost use Rattle.sd_checker.specs.check_reach.Aftermaths.{net_of, plan_of, domain_of, hit_of};
    ghost use Rattle.sd_checker.specs.check_reach.Turns.{IsTurn};

    /// Where a hit device turns: what is not hit hears the acting end as before, and the backup
    /// root waits for it or acts itself.
    pub(crate) fn turn(&self, d: u32) -> Turn
        requires { IsTrue (is_hit (net_of self.now) (plan_of self.now) (domain_of self.now) d) }
        ensures { IsTurn (net_of self.now) (plan_of self.now) (domain_of self.now)
            (hit_of self.now) d result }
    {
        if self.outage.holds_device(d) {
            return Turn::Lost;
        }
        if d == self.outage.planned.plan.backup_root {
            return Turn::Fed;
        }
        let Some(hop) = self.next_hop(d) else {
            return Turn::Lost;
        };
        if !self.leaves(hop.link, hop.parent) {
            return Turn::Lost;
        }
        match self.outage.place_of(hop.parent) {
            Some(place) => Turn::To(place),
            None => Turn::Fed,
        }
    }
}
