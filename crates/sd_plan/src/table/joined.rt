//! Rows of ends, one after another in one array.
ghost use Rattle.std.specs.Prelude.{◌≡◌, ◌+◌, ◌-◌, ◌<◌, length, IfOk};
ghost use Rattle.sd_plan.specs.Joining as joining;
ghost use Rattle.sd_plan.specs.Joining.{AreJoined, AreOrdered};

use super::ends::EndList;
use crate::End;
use sd_num::NoMemory;
use std::alloc::Global;

/// All ends, and where each row begins and the last one ends.
#[derive(Drop)]
pub(crate) struct Joined {
    pub(crate) ends: Vec<End>,
    pub(crate) offsets: Vec<usize>,
}

/// The ends of one row.
pub(crate) fn part_of<'a>(ends: &'a [End], offsets: &[usize], d: usize) -> &'a [End]
    requires ordered { AreOrdered (length offsets.now - 1) ends.now offsets.now }
    requires within { d + 1 < length offsets.now }
    ensures { result.now ≡ joining.part_of ends.now offsets.now d }
{
    let from = offsets[d];
    let to = offsets[d + 1];
    &ends[from..to]
}

/// The rows in one array.
pub(crate) fn join_rows(alloc: Global, rows: &[EndList]) -> Result<Joined, NoMemory>
    ensures { IfOk result
        (λ all. AreJoined rows.now (length rows.now) all.ends.items all.offsets.items) }
{
    let mut ends = Vec::new(alloc);
    let mut offsets = Vec::new(alloc);
    let Ok(()) = offsets.push(0) else {
        return Err(NoMemory);
    };
    for row in rows {
        let Ok(()) = ends.extend_from_slice(row.as_slice()) else {
            return Err(NoMemory);
        };
        let Ok(()) = offsets.push(ends.len()) else {
            return Err(NoMemory);
        };
    }
    Ok(Joined { ends, offsets })
}
