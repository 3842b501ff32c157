//! How the devices that count as live stand: whom each follows, and whether it acts as root. What
//! is asked of them after each event, the first loop of parents and the two least that act, is
//! kept, and is looked for anew only where a parent or an acting changed, and a loop first from
//! the device that changed.
ghost use Rattle.std.specs.Prelude.{◌≡◌, ◌<◌, ◌≤◌, ℕ, Some, None, false, length, replicate, slice_get, slice_set, IfOk, MatchOption};
ghost use Rattle.sd_replay.specs.watch.Watch.{parent_in, HasNoLoop, IsFirstOnLoop, acting_devices, two_least};

use crate::watch::{first_loop, loop_at, two_acting};
use sd_num::NoMemory;
use std::alloc::Global;
use std::marker::Model;

/// How one device stands. A device that does not count as live follows nobody and does not act.
#[derive(Clone, Copy, Debug, PartialEq, Eq)]
pub struct ParentRow {
    /// The device that it follows.
    pub parent: Option<u32>,
    /// Whether it acts as root.
    pub acts: bool,
}

/// How all devices stand. A change costs the way along parents from the device that changed; where
/// that finds a loop, or a loop was there before, or an acting changed, it may cost a pass over all
/// devices.
#[derive(Drop)]
pub struct ParentTable {
    /// By device: the one that it follows.
    parents: Vec<Option<u32>>,
    /// By device: whether it acts as root.
    acting: Vec<bool>,
    /// The least device on a loop of parents.
    looped: Option<u32>,
    /// The two least devices that act.
    roots: Option<(u32, u32)>,
}

impl Model for ParentTable {
    ghost use Rattle.sd_replay.specs.watch.parent_table.ParentTable.{Kept};

    ghost Value = { Kept };

    ghost use Rattle.sd_replay.specs.watch.parent_table.ParentTableView.{parent_table_seen, IsParentTable};

    ghost view = { parent_table_seen };

    ghost invariant = { IsParentTable };
}

/// No device has a parent.
fn no_parents(alloc: Global, devices: u32) -> Result<Vec<Option<u32>>, NoMemory>
    ensures { IfOk result (λ parents. parents.items ≡ replicate devices None) }
{
    match vec![in alloc; None; devices as usize] {
        Ok(parents) => Ok(parents),
        Err(_) => Err(NoMemory),
    }
}

/// No device acts.
fn nobody_acts(alloc: Global, devices: u32) -> Result<Vec<bool>, NoMemory>
    ensures { IfOk result (λ acting. acting.items ≡ replicate devices false) }
{
    match vec![in alloc; false; devices as usize] {
        Ok(acting) => Ok(acting),
        Err(_) => Err(NoMemory),
    }
}

impl ParentTable {
    /// No device counts yet.
    pub fn new(alloc: Global, devices: u32) -> Result<ParentTable, NoMemory>
        ensures parents { IfOk result (λ s. s.parents ≡ replicate devices None) }
        ensures acting { IfOk result (λ s. s.acting ≡ replicate devices false) }
    {
        let parents = no_parents(alloc, devices)?;
        let acting = nobody_acts(alloc, devices)?;
        Ok(ParentTable {
            parents,
            acting,
            looped: None,
            roots: None,
        })
    }

    /// How a device stands.
    #[inline(always)]
    pub fn row(&self, d: u32) -> ParentRow
        requires parents { d < length self.now.parents }
        requires acting { d < length self.now.acting }
        ensures parent { slice_get self.now.parents d ≡ Some result.parent }
        ensures acts { slice_get self.now.acting d ≡ Some result.acts }
    {
        ParentRow {
            parent: self.parents[d as usize],
            acts: self.acting[d as usize],
        }
    }

    /// A device stands so from now on. It takes no memory.
    // Nearly always it stands so already, which is seen at once.
    #[inline(always)]
    pub fn set(&mut self, d: u32, parent_row: ParentRow)
        requires parents { d < length self.old.parents }
        requires acting { d < length self.old.acting }
        ensures parents { self.new.parents ≡ slice_set self.old.parents d parent_row.parent }
        ensures acting { self.new.acting ≡ slice_set self.old.acting d parent_row.acts }
    {
        self.follow(d, parent_row.parent);
        self.act(d, parent_row.acts);
    }

    /// The device follows this one from now on. Where there was no loop before, a loop leads
    /// through the device itself.
    fn follow(&mut self, d: u32, parent: Option<u32>)
        requires { d < length self.old.parents }
        ensures parents { self.new.parents ≡ slice_set self.old.parents d parent }
        ensures acting { self.new.acting ≡ self.old.acting }
    {
        if self.parents[d as usize] == parent {
            return;
        }
        self.parents[d as usize] = parent;
        if self.looped.is_some() || loop_at(d, &self.parents) {
            self.looped = first_loop(&self.parents);
        }
    }

    /// The device acts as root from now on, or does not.
    fn act(&mut self, d: u32, acts: bool)
        requires { d < length self.old.acting }
        ensures parents { self.new.parents ≡ self.old.parents }
        ensures acting { self.new.acting ≡ slice_set self.old.acting d acts }
    {
        if self.acting[d as usize] == acts {
            return;
        }
        self.acting[d as usize] = acts;
        self.roots = two_acting(&self.acting);
    }

    /// The least device on a loop of parents; `None` exactly where there is no loop.
    pub fn first_loop(&self) -> Option<u32>
        ensures { MatchOption result (HasNoLoop (parent_in self.now.parents))
            (λ d. IsFirstOnLoop (parent_in self.now.parents) d) }
    {
        self.looped
    }

    /// The two least devices that act as root; `None` exactly where fewer than two do.
    pub fn two_acting(&self) -> Option<(u32, u32)>
        ensures { result ≡ two_least (acting_devices self.now.acting) }
    {
        self.roots
    }
}
