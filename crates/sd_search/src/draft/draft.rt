//! A plan that is being made: its two roots, and the hops of each device.
use crate::draft::tables::{copy_entries, entry_or, set_entry};
use sd_num::NoMemory;
use sd_plan::{Hop, Plan, PlanRow};
use std::alloc::Global;

/// Who follows whom. It need not be a plan of the topology.
#[derive(Drop)]
pub struct Draft {
    pub root: u32,
    pub backup_root: u32,
    pub rows: Vec<Option<PlanRow>>,
}

/// A copy of rows.
fn copy_rows(alloc: Global, rows: &[Option<PlanRow>]) -> Result<Vec<Option<PlanRow>>, NoMemory> {
    match Vec::from_slice(alloc, rows) {
        Ok(copy) => Ok(copy),
        Err(_) => Err(NoMemory),
    }
}

impl Draft {
    /// A draft of this many devices, none of which follows another.
    pub fn new(
        alloc: Global,
        devices: u32,
        root: u32,
        backup_root: u32,
    ) -> Result<Draft, NoMemory> {
        match vec![in alloc; None; devices as usize] {
            Ok(rows) => Ok(Draft {
                root,
                backup_root,
                rows,
            }),
            Err(_) => Err(NoMemory),
        }
    }

    /// The draft of a plan.
    pub fn of_plan(alloc: Global, plan: &Plan) -> Result<Draft, NoMemory> {
        Ok(Draft {
            root: plan.root,
            backup_root: plan.backup_root,
            rows: copy_rows(alloc, plan.rows.as_slice())?,
        })
    }

    /// A second draft that is the same.
    pub fn copy(&self, alloc: Global) -> Result<Draft, NoMemory> {
        Ok(Draft {
            root: self.root,
            backup_root: self.backup_root,
            rows: copy_rows(alloc, self.rows.as_slice())?,
        })
    }

    /// Becomes the same as another draft of as many devices.
    pub fn copy_from(&mut self, other: &Draft) {
        self.root = other.root;
        self.backup_root = other.backup_root;
        copy_entries(self.rows.as_mut_slice(), other.rows.as_slice());
    }

    /// The row of a device.
    pub fn row(&self, d: u32) -> Option<PlanRow> {
        entry_or(self.rows.as_slice(), d, None)
    }

    /// The primary hop of a device.
    pub fn primary(&self, d: u32) -> Option<Hop> {
        match self.row(d) {
            Some(row) => Some(row.primary),
            None => None,
        }
    }

    /// The backup hop of a device.
    pub fn backup(&self, d: u32) -> Option<Hop> {
        match self.row(d) {
            Some(row) => row.backup,
            None => None,
        }
    }

    /// Sets the row of a device.
    pub fn set_row(&mut self, d: u32, row: Option<PlanRow>) {
        set_entry(self.rows.as_mut_slice(), d, row);
    }

    /// Sets the backup hop of a device that has a row.
    pub fn set_backup(&mut self, d: u32, backup: Option<Hop>) {
        if let Some(row) = self.row(d) {
            self.set_row(
                d,
                Some(PlanRow {
                    primary: row.primary,
                    backup,
                }),
            );
        }
    }

    /// Sets the primary hop of a device. A backup over the same link goes.
    pub fn set_primary(&mut self, d: u32, primary: Hop) {
        let backup = match self.backup(d) {
            Some(hop) if hop.link != primary.link => Some(hop),
            _ => None,
        };
        self.set_row(d, Some(PlanRow { primary, backup }));
    }

    /// Whether a device is on the walk of another, within this many hops.
    pub fn leads_over(&self, from: u32, over: u32, hops: u32) -> bool {
        let mut here = from;
        for _ in 0..hops {
            if here == over {
                return true;
            }
            match self.primary(here) {
                Some(hop) => here = hop.parent,
                None => return false,
            }
        }
        here == over
    }

    /// Whether a device is the root or the backup root.
    pub fn is_either_root(&self, d: u32) -> bool {
        d == self.root || d == self.backup_root
    }
}
