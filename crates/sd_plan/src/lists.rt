//! Short lists that are built one by one.
ghost use Rattle.std.specs.Prelude.{◌≡◌, ◌++◌, [], ◌∷◌, OnOk, OnErr, IfOk, replicate};

use crate::PlanRow;
use crate::topo::Thing;
use sd_num::NoMemory;
use std::alloc::Global;
use std::marker::Model;

/// A list of items of one type.
#[derive(Drop)]
pub struct List<T> {
    items: Vec<T>,
}

impl<T> Model for List<T> {
    ghost use Rattle.std.specs.Prelude.{List};

    ghost Value = { List T };

    ghost view = { λ l. l.items.items };
}

impl<T: Drop> List<T> {
    /// The empty list.
    pub fn new(alloc: Global) -> List<T>
        ensures { result ≡ [] }
    {
        List {
            items: Vec::new(alloc),
        }
    }

    /// The list of some items.
    pub fn from_vec(items: Vec<T>) -> List<T>
        ensures { result ≡ items.items }
    {
        List { items }
    }

    /// Adds an item at the end.
    pub fn push(&mut self, _alloc: Global, item: T) -> Result<(), NoMemory>
        ensures added { OnOk result (self.new ≡ self.old ++ (item ∷ [])) }
        ensures same { OnErr result (self.new ≡ self.old) }
    {
        match self.items.push(item) {
            Ok(()) => Ok(()),
            Err(_) => Err(NoMemory),
        }
    }

    /// The items in their order.
    pub fn as_slice(&self) -> &[T]
        ensures { result.now ≡ self.now }
    {
        self.items.as_slice()
    }

    /// The items in their order, without memory.
    pub fn into_vec(self) -> Vec<T>
        ensures { result.items ≡ self }
    {
        self.items
    }
}

/// A list of device or link numbers.
pub type DeviceList = List<u32>;

/// Perhaps a row for each device.
pub type RowList = List<Option<PlanRow>>;

/// Devices and links one after another, as those of a path.
pub type ThingList = List<Thing>;

/// This many empty lists.
pub fn empty_lists<T: Drop>(alloc: Global, count: u32) -> Result<Vec<List<T>>, NoMemory>
    ensures { IfOk result (λ lists. lists.items ≡ replicate count []) }
{
    let mut lists = Vec::new(alloc);
    for _ in 0..count {
        let Ok(()) = lists.push(List::new(alloc)) else {
            return Err(NoMemory);
        };
    }
    Ok(lists)
}
