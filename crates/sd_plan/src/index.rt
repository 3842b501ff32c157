//! Walks without walking: who lies below whom, by numbers of the primary tree.
ghost use Rattle.std.specs.Prelude.{◌≡◌, ◌<◌, ◌&&◌, ◌||◌, nat_eq, ℕ, length, slice_index_or, None, [], IsTrue, not, false, IfOk};
ghost use Rattle.sd_plan.specs.topo.Network.{Network};
ghost use Rattle.sd_plan.specs.topo.Topologies.{network};
ghost use Rattle.sd_plan.specs.Plans as plans;
ghost use Rattle.sd_plan.specs.Plans.{Fits, is_member};
ghost use Rattle.sd_plan.specs.Structure.{structure_breach};
ghost use Rattle.sd_plan.specs.Walks as walks;
ghost use Rattle.sd_plan.specs.IndexedPlan as indexed;
ghost use Rattle.sd_plan.specs.IndexedPlan.{IsIndexOf, span_of, has_device, has_link};
ghost use Rattle.sd_plan.specs.declared.Plan.{Plan as PlanSeen};

mod carried;
mod children;
mod preorder;
mod usable;

use crate::table::{join_rows, part_of};
use crate::topo::Topology;
use crate::{End, Plan};
use carried::all_carried;
use children::all_children;
use preorder::preorder;
use sd_num::NoMemory;
use std::alloc::Global;
use std::marker::Model;
use usable::usable_ends;

/// Places in the order of an index, from one on and before another.
#[derive(Clone, Copy, Debug, PartialEq, Eq)]
pub struct Span {
    pub from: u32,
    pub to: u32,
}

/// The walks of a plan, numbered: the members in preorder of the primary tree, so that all whose
/// walk leads over a device stand together. It is built in the time of devices and links together,
/// and then answers with no walk.
#[derive(Drop)]
pub struct WalkIndex {
    /// The members, each before those below it.
    order: Vec<u32>,
    /// By device, the places of the members whose walk leads over it; it has the first of them.
    spans: Vec<Span>,
    /// By link, the device whose primary hop goes over it.
    carried: Vec<Option<u32>>,
    /// The other ends of the usable links, by device and link.
    ends: Vec<End>,
    /// Where the ends of each device begin, and where the last ones end.
    offsets: Vec<usize>,
    backup_root: u32,
}

impl Model for WalkIndex {
    ghost use Rattle.sd_plan.specs.IndexedPlan.{IndexedPlan};

    ghost Value = { IndexedPlan };

    ghost use Rattle.sd_plan.specs.IndexView.{index_seen, IsIndex};

    ghost view = { index_seen };

    ghost invariant = { IsIndex };
}

impl WalkIndex {
    /// The index of a plan.
    pub fn new(alloc: Global, topo: &Topology, plan: &Plan) -> Result<WalkIndex, NoMemory>
        requires fits { Fits (network topo.now) plan.now }
        requires structured { structure_breach (network topo.now) plan.now ≡ None }
        ensures { IfOk result (λ index. IsIndexOf (network topo.now) plan.now index) }
    {
        let children = all_children(alloc, topo, plan)?;
        let places = preorder(alloc, &children, plan.root, topo.params().depth)?;
        let carried = all_carried(alloc, topo, plan)?;
        let rows = usable_ends(alloc, topo, plan)?;
        let joined = join_rows(alloc, &rows)?;
        Ok(WalkIndex {
            order: places.order,
            spans: places.spans,
            carried,
            ends: joined.ends,
            offsets: joined.offsets,
            backup_root: plan.backup_root,
        })
    }

    /// The members, each before those below it.
    pub fn order(&self) -> &[u32]
        ensures { result.now ≡ self.now.order }
    {
        self.order.as_slice()
    }

    /// The places in the order of the members whose walk leads over a device.
    pub fn span(&self, a: u32) -> Span
        requires { a < length self.now.spans }
        ensures { result ≡ span_of self.now a }
    {
        self.spans[a as usize]
    }

    /// The device whose primary hop goes over a link.
    pub fn carried_over(&self, link: u32) -> Option<u32>
        requires { link < length self.now.carried }
        ensures { result ≡ slice_index_or self.now.carried link None }
    {
        self.carried[link as usize]
    }

    /// The usable links of a device, ascending, each with its other end: those that are not left
    /// out, to members.
    pub fn links_at(&self, d: u32) -> &[End]
        requires { d < length self.now.spans }
        ensures { result.now ≡ slice_index_or self.now.usable d [] }
    {
        part_of(&self.ends, &self.offsets, d as usize)
    }

    /// Whether the place of a device lies among those of the members below another.
    fn stands_below(&self, d: u32, a: u32) -> bool
        requires device { d < length self.now.spans }
        requires above { a < length self.now.spans }
        ensures { result ≡ indexed.stands_below self.now d a }
    {
        let span = self.spans[a as usize];
        let place = self.spans[d as usize].from;
        span.from <= place && place < span.to
    }

    /// Whether the walk of a device comes to the backup root, after its beginning, before it comes
    /// to a device above.
    fn is_cut_before(&self, d: u32, a: u32) -> bool
        requires device { d < length self.now.spans }
        requires above { a < length self.now.spans }
        requires backup_root { self.now.backup_root < length self.now.spans }
        ensures { result ≡ indexed.is_cut_before self.now d a }
    {
        let cut = self.backup_root;
        d != cut && self.stands_below(d, cut) && !self.stands_below(a, cut)
    }

    /// Whether the walk of a device leads over another, and is not cut at the backup root before.
    fn comes_before_cut(&self, d: u32, a: u32) -> bool
        requires device { d < length self.now.spans }
        requires above { a < length self.now.spans }
        requires backup_root { self.now.backup_root < length self.now.spans }
        ensures { result
            ≡ (indexed.stands_below self.now d a && not (indexed.is_cut_before self.now d a)) }
    {
        self.stands_below(d, a) && !self.is_cut_before(d, a)
    }

    /// Whether the walk of a device leads over the hop of a child, and is not cut at the backup root
    /// before.
    fn hops_before_cut(&self, d: u32, child: u32) -> bool
        requires device { d < length self.now.spans }
        requires child { child < length self.now.spans }
        requires backup_root { self.now.backup_root < length self.now.spans }
        ensures { result ≡ ((nat_eq d child || not (nat_eq child self.now.backup_root))
            && (indexed.stands_below self.now d child
            && not (indexed.is_cut_before self.now d child))) }
    {
        (d == child || child != self.backup_root) && self.comes_before_cut(d, child)
    }

    /// Whether the walk of a member leads over a device.
    pub fn on_walk(&self, d: u32, a: u32) -> bool
        requires device { d < length self.now.spans }
        requires above { a < length self.now.spans }
        ensures { (net : Network) (plan : PlanSeen) → IsIndexOf net plan self.now
            → IsTrue (is_member plan d)
            → result ≡ walks.on_walk net plan d a }
    {
        self.stands_below(d, a)
    }

    /// Whether the path of a member other than the root, cut at the first of backup root and root,
    /// has a device.
    pub fn epath_has_device(&self, d: u32, a: u32) -> bool
        requires device { d < length self.now.spans }
        requires above { a < length self.now.spans }
        ensures { (net : Network) (plan : PlanSeen) → IsIndexOf net plan self.now
            → IsTrue (is_member plan d)
            → IsTrue (not (plans.is_root plan d)) → result ≡ has_device (walks.epath net plan d) a }
    {
        let _ = &self.order;
        d != a && self.comes_before_cut(d, a)
    }

    /// Whether that path has a link.
    pub fn epath_has_link(&self, d: u32, link: u32) -> bool
        requires device { d < length self.now.spans }
        requires range { link < length self.now.carried }
        ensures { (net : Network) (plan : PlanSeen) → IsIndexOf net plan self.now
            → IsTrue (is_member plan d)
            → IsTrue (not (plans.is_root plan d))
            → result ≡ has_link (walks.epath net plan d) link }
    {
        let _ = &self.order;
        match self.carried_over(link) {
            Some(child) => self.hops_before_cut(d, child),
            None => false,
        }
    }

    /// Whether the walk of a member to the root has a link.
    pub fn walk_has_link(&self, d: u32, link: u32) -> bool
        requires device { d < length self.now.spans }
        requires range { link < length self.now.carried }
        ensures { (net : Network) (plan : PlanSeen) → IsIndexOf net plan self.now
            → IsTrue (is_member plan d)
            → result ≡ has_link (walks.path net plan d) link }
    {
        let _ = &self.order;
        match self.carried_over(link) {
            Some(child) => self.stands_below(d, child),
            None => false,
        }
    }
}
