//! What a plan tells each member, and what lies below it, looked up by device.
ghost use Rattle.std.specs.Prelude.{◌≡◌, ◌<◌, length, Some, None, IsTrue, IfOk};
ghost use Rattle.sd_plan.specs.topo.Topologies.{network};
ghost use Rattle.sd_plan.specs.Plans.{Fits};
ghost use Rattle.sd_plan.specs.Structure.{structure_breach};
ghost use Rattle.sd_plan.specs.Tables.{table_of, row_at, has_row_at};

pub(crate) mod duties;
pub(crate) mod ends;
mod joined;

use crate::topo::Topology;
use crate::{Duty, End, Plan};
use duties::all_duties;
use ends::all_ends;
pub(crate) use joined::{join_rows, part_of};
use sd_num::NoMemory;
use std::alloc::Global;
use std::marker::Model;

/// What the table has of a member.
#[derive(Clone, Copy)]
pub struct Row<'a> {
    pub duty: &'a Duty,
    /// By ascending link.
    pub downstream: &'a [End],
}

/// A plan by device. It is built in the time of devices and links together, and then answers with
/// no search.
#[derive(Drop)]
pub struct PlanTable {
    duties: Vec<Option<Duty>>,
    /// The downstream ends of all devices, by device and link.
    ends: Vec<End>,
    /// Where the ends of each device begin, and where the last ones end.
    offsets: Vec<usize>,
}

impl Model for PlanTable {
    ghost use Rattle.std.specs.Prelude.{List, Option};
    ghost use Rattle.sd_plan.specs.Tables.{TableRow};

    ghost Value = { List (Option TableRow) };

    ghost use Rattle.sd_plan.specs.TableView.{table_seen, IsTable};

    ghost view = { table_seen };

    ghost invariant = { IsTable };
}

impl PlanTable {
    /// The table of a plan that has this number.
    pub fn new(
        alloc: Global,
        topo: &Topology,
        plan: &Plan,
        epoch: u32,
    ) -> Result<PlanTable, NoMemory>
        requires fits { Fits (network topo.now) plan.now }
        requires structured { structure_breach (network topo.now) plan.now ≡ None }
        ensures { IfOk result (λ table. table ≡ table_of (network topo.now) plan.now epoch) }
    {
        let duties = all_duties(alloc, topo, plan, epoch)?;
        let rows = all_ends(alloc, topo, plan)?;
        let joined = join_rows(alloc, &rows)?;
        Ok(PlanTable {
            duties,
            ends: joined.ends,
            offsets: joined.offsets,
        })
    }

    /// Whether a device takes part.
    pub fn is_member(&self, d: u32) -> bool
        requires { d < length self.now }
        ensures { result ≡ has_row_at self.now d }
    {
        self.duties[d as usize].is_some()
    }

    /// What a member is told, and what lies below it.
    pub fn row(&self, d: u32) -> Row<'_>
        requires { IsTrue (has_row_at self.now d) }
        ensures { row_at self.now d
            ≡ Some (record { duty = result.duty.now; downstream = result.downstream.now }) }
    {
        match &self.duties[d as usize] {
            Some(duty) => Row {
                duty,
                downstream: part_of(&self.ends, &self.offsets, d as usize),
            },
            None => unreachable!(),
        }
    }
}
