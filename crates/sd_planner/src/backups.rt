//! The rows of the greedy plan.
ghost use Rattle.std.specs.Prelude.{◌≡◌, ◌<◌, length, Some, IfOk, OnOk};
ghost use Rattle.sd_plan.specs.topo.Network.{Each};
ghost use Rattle.sd_plan.specs.Plans.{IsRow};
ghost use Rattle.sd_planner.specs.Spreading.{placed_at};
ghost use Rattle.sd_planner.specs.Views.{net_of, left_out};
ghost use Rattle.sd_planner.specs.Placing.{placed};
ghost use Rattle.sd_planner.specs.Serving as serving;
ghost use Rattle.sd_planner.specs.Surveys.{net_in, absent_in, order_of, AreClear};

mod backup_root;
mod domain_lists;
mod flags;
mod ordinary;
mod over;
mod survey;
mod things;

use crate::{Placed, Placement, Present};
use flags::no_flags;
use sd_num::NoMemory;
use sd_plan::{Hop, PlanRow, RowList};
use std::alloc::Global;
use survey::Survey;

impl Survey<'_> {
    /// The backup of a placed device, whose primary hop is given.
    fn backup(
        &self,
        alloc: Global,
        joining: &mut [bool],
        own: Placed,
        primary: Hop,
    ) -> Result<Option<Hop>, NoMemory>
        requires range { own.device < length (net_in self.now).devices }
        requires own { placed_at (order_of self.now) own.device ≡ Some own }
        requires clear { AreClear (net_in self.now) joining.old }
        ensures backup { IfOk result (λ backup. backup
            ≡ serving.backup_for (net_in self.now) self.now.root
            (absent_in self.now) own.device primary) }
        ensures clear { OnOk result (AreClear (net_in self.now) joining.new) }
    {
        if own.device == self.backup_root {
            self.backup_root_backup(alloc, own, primary)
        } else {
            Ok(self.ordinary_backup(joining, own, primary))
        }
    }

    /// The row of a device, where it is placed below another.
    fn row(&self, alloc: Global, joining: &mut [bool], d: u32) -> Result<Option<PlanRow>, NoMemory>
        requires range { d < length (net_in self.now).devices }
        requires clear { AreClear (net_in self.now) joining.old }
        ensures row { IfOk result (λ row. row
            ≡ serving.greedy_row (net_in self.now) self.now.root (absent_in self.now) d) }
        ensures clear { OnOk result (AreClear (net_in self.now) joining.new) }
    {
        let Some(own) = self.placed(d) else {
            return Ok(None);
        };
        let Some(primary) = own.hop else {
            return Ok(None);
        };
        let backup = self.backup(alloc, joining, own, primary)?;
        Ok(Some(PlanRow { primary, backup }))
    }
}

/// The rows of the greedy plan whose devices are placed: each placed device but the root with its
/// primary and, where a hop serves, its backup.
pub(crate) fn greedy_rows(
    alloc: Global,
    present: &Present,
    placement: &Placement,
    root: u32,
) -> Result<RowList, NoMemory>
    requires root { root < length (net_of present.now).devices }
    requires placement { placement.now ≡ record {
      order = placed (net_of present.now) root (left_out present.now);
      count = length (net_of present.now).devices;
    } }
    ensures rows { IfOk result
        (λ rows. rows ≡ serving.greedy_rows (net_of present.now) root (left_out present.now)) }
    ensures fit { IfOk result (Each (IsRow (net_of present.now))) }
{
    let survey = Survey::new(alloc, present, placement, root)?;
    let mut joining = no_flags(alloc, present.topo.domains() as usize)?;
    let mut rows = RowList::new(alloc);
    for d in 0..present.topo.devices() {
        let row = survey.row(alloc, joining.as_mut_slice(), d)?;
        rows.push(alloc, row)?;
    }
    Ok(rows)
}
