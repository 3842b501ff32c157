//! The pairs of roots among which a search looks.
use crate::draft::tables::push;
use crate::draft::{Ground, Pair};
use sd_num::NoMemory;
use std::alloc::Global;

/// The candidates of a topology that take part, or one root alone with those that may back it up.
#[derive(Drop)]
pub(crate) struct Candidates {
    pub roots: Vec<u32>,
    pub backup_roots: Vec<u32>,
}

/// The candidates that take part.
fn members_among(
    alloc: Global,
    ground: &Ground<'_>,
    numbers: &[u32],
) -> Result<Vec<u32>, NoMemory> {
    let mut members = Vec::new(alloc);
    for d in numbers {
        if ground.is_member(*d) {
            push(&mut members, *d)?;
        }
    }
    Ok(members)
}

impl Candidates {
    /// The candidates, where the root is given or not.
    pub(crate) fn new(
        alloc: Global,
        ground: &Ground<'_>,
        root: Option<u32>,
    ) -> Result<Candidates, NoMemory> {
        let backup_roots = members_among(alloc, ground, ground.topo.roots())?;
        let roots = match root {
            Some(root) => members_among(alloc, ground, &[root])?,
            None => members_among(alloc, ground, ground.topo.roots())?,
        };
        Ok(Candidates {
            roots,
            backup_roots,
        })
    }

    /// How many pairs there are.
    pub(crate) fn pairs(&self) -> usize {
        self.roots.len().saturating_mul(self.backup_roots.len())
    }

    /// The pair at a place: of each root in turn with each backup root. None where the two are one.
    pub(crate) fn pair(&self, place: usize) -> Option<Pair> {
        let count = self.backup_roots.len();
        if count == 0 {
            return None;
        }
        match (
            self.roots.get(place / count),
            self.backup_roots.get(place % count),
        ) {
            (Some(root), Some(backup_root)) if *root != *backup_root => Some(Pair {
                root: *root,
                backup_root: *backup_root,
            }),
            _ => None,
        }
    }
}
