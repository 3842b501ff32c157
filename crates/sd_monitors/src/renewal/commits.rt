//! What a plan asks of the world at its commit, apart from its members: which links and devices it
//! has to leave out.
ghost use Rattle.std.specs.Prelude.{◌≡◌, ◌<◌, List, length};
ghost use Rattle.sd_plan.specs.topo.Topologies.{network};
ghost use Rattle.sd_plan.specs.Plans.{is_member};
ghost use Rattle.sd_history.specs.Premises.{leaves_out_cleanly, leaves_out_failed};
ghost use Rattle.sd_history.specs.World.{Setting, Seen as Sight, in_force, staged_epoch, link_has_failed};
ghost use Rattle.sd_monitors.specs.renewal.Moments.{IsMomentOf, IsReady, staged_plan, uses_failed, parts, leads_out};

use crate::renewal::Moment;
use sd_plan::topo::Thing;

impl Moment<'_> {
    /// Whether a device is a member of the plan in force.
    pub(crate) fn is_in_force(&self, d: u32) -> bool
        requires { d < length (network self.now.topo.now).devices }
        ensures { (setting : Setting) (seen : List Sight) → IsMomentOf self.now setting seen
            → result ≡ is_member (in_force setting seen) d }
    {
        self.members.is_member(u64::from(self.world.epoch()), d)
    }

    /// The number of the plan that a window brings in.
    fn staged(&self) -> u64
        ensures { (setting : Setting) (seen : List Sight) → IsMomentOf self.now setting seen
            → result ≡ staged_epoch seen }
    {
        u64::from(self.world.epoch()) + 1
    }

    /// Whether a device is a member of that plan.
    pub(crate) fn is_staged(&self, d: u32) -> bool
        requires { d < length (network self.now.topo.now).devices }
        ensures { (setting : Setting) (seen : List Sight) → IsMomentOf self.now setting seen
            → result ≡ is_member (staged_plan setting seen) d }
    {
        self.members.is_member(self.staged(), d)
    }

    /// Whether a link is failed.
    fn has_failed(&self, l: u32) -> bool
        requires { l < length (network self.now.topo.now).links }
        ensures { (setting : Setting) (seen : List Sight) → IsMomentOf self.now setting seen
            → result ≡ link_has_failed seen l }
    {
        self.world.has_failed(Thing::Link(l))
    }

    /// Whether that plan leaves out each failed link.
    pub(crate) fn leaves_out_failed(&self) -> bool
        ensures { (setting : Setting) (seen : List Sight) → IsMomentOf self.now setting seen
            → result ≡ leaves_out_failed setting seen (staged_plan setting seen) }
    {
        for l in 0..self.topo.links() {
            if self.uses_failed(l) {
                return false;
            }
        }
        true
    }

    /// Whether a link is failed, and that plan may use it.
    fn uses_failed(&self, l: u32) -> bool
        requires { l < length (network self.now.topo.now).links }
        ensures { (setting : Setting) (seen : List Sight) → IsMomentOf self.now setting seen
            → result ≡ uses_failed setting seen l }
    {
        self.has_failed(l) && self.links.is_present(self.staged(), l)
    }

    /// Whether one device is a member of that plan, and the other is up and none.
    fn parts(&self, member: u32, other: u32) -> bool
        requires member { member < length (network self.now.topo.now).devices }
        requires other { other < length (network self.now.topo.now).devices }
        ensures { (setting : Setting) (seen : List Sight) → IsMomentOf self.now setting seen
            → result ≡ parts setting seen member other }
    {
        self.is_staged(member) && !self.is_staged(other) && self.world.is_up(other)
    }

    /// Whether a link that is not failed leads from a member of that plan to a device that is up
    /// and none.
    fn leads_out(&self, l: u32) -> bool
        requires { l < length (network self.now.topo.now).links }
        ensures { (setting : Setting) (seen : List Sight) → IsMomentOf self.now setting seen
            → result ≡ leads_out setting seen l }
    {
        let link = self.topo.link(l);
        !self.has_failed(l)
            && (self.parts(link.end_a, link.end_b) || self.parts(link.end_b, link.end_a))
    }

    /// Whether no device that is up and left out by that plan is joined to its root through devices
    /// that are up and links that are not failed. Members of a plan are joined to its root by their
    /// primary links; so where all of them are up and no link of the plan is failed, it is enough
    /// that no link leads out.
    pub(crate) fn leaves_out_cleanly(&self) -> bool
        ensures { (setting : Setting) (seen : List Sight) → IsMomentOf self.now setting seen
            → IsReady setting seen
            → result ≡ leaves_out_cleanly setting seen (staged_plan setting seen) }
    {
        for l in 0..self.topo.links() {
            if self.leads_out(l) {
                return false;
            }
        }
        true
    }
}
