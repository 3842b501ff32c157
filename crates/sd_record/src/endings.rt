//! The endings of messages with their names, of which the soonest is found at once.
ghost use Rattle.std.specs.Prelude.{◌≡◌, ◌+◌, ◌<◌, ◌≤◌, ◌⊎◌, [], Some, IfNone, IfSome, OnOk};
ghost use Rattle.std.specs.BinaryHeap.{heap_items, heap_len, IsHeap, IsHeap-prop};
ghost use Rattle.sd_record.specs.declared.endings.NamedEnding.{NamedEnding as AnyEnding};
ghost use Rattle.sd_record.specs.EndingOrder.{by_ending};

use crate::logs::MessageName;
use sd_num::NoMemory;
use std::alloc::Global;
use std::cmp::Reverse;
use std::collections::BinaryHeap;

/// How a message ends that nobody receives. The order is that of losses.
#[derive(Clone, Copy, Debug, PartialEq, Eq, PartialOrd, Ord)]
pub(crate) struct Ending {
    /// The last moment at which it can be received, in ps.
    pub last: u64,
    /// Its number.
    pub number: u64,
}

/// How a message ends, and its name.
#[derive(Clone, Copy, Debug, PartialEq, Eq, PartialOrd, Ord)]
pub(crate) struct NamedEnding {
    pub ending: Ending,
    pub name: MessageName,
}

/// Endings of messages. That of a message which is on its way no more stays until it is the
/// soonest: so each ending costs one push and one pop.
#[derive(Drop)]
pub(crate) struct Endings {
    heap: BinaryHeap<Reverse<NamedEnding>>,
    ghost ordered: { IsHeap by_ending
        (heap_items heap) } by { IsHeap-prop by_ending (heap_items heap) },
}

impl Endings {
    ghost use Rattle.sd_record.specs.Endings.{first_of, IsSoonest, Lists};

    /// None.
    pub(crate) fn new(alloc: Global) -> Endings
        ensures { heap_items result.heap ≡ [] }
    {
        Endings {
            heap: BinaryHeap::new(alloc),
        }
    }

    /// One more.
    pub(crate) fn add(&mut self, ending: NamedEnding) -> Result<(), NoMemory>
        ensures added { OnOk result (Lists self.new ending) }
        ensures kept { OnOk result ((other : AnyEnding) → Lists self.old other
            → Lists self.new other) }
        ensures only { OnOk result ((other : AnyEnding) → Lists self.new other
            → Lists self.old other ⊎ (ending ≡ other)) }
    {
        match self.heap.push(Reverse(ending)) {
            Ok(()) => Ok(()),
            Err(_) => Err(NoMemory),
        }
    }

    /// The soonest, if it is before the reference.
    pub(crate) fn first_before(&self, reference: u64) -> Option<NamedEnding>
        ensures soonest { IfSome result (IsSoonest self.now) }
        ensures past { IfSome result (λ first. first.ending.last < reference) }
        ensures none { IfNone result ((ending : AnyEnding) → Lists self.now ending
            → reference ≤ ending.ending.last) }
    {
        let Some(first) = self.first() else {
            return None;
        };
        if first.ending.last < reference {
            Some(first)
        } else {
            None
        }
    }

    /// The soonest.
    fn first(&self) -> Option<NamedEnding>
        ensures soonest { IfSome result (IsSoonest self.now) }
        ensures none { IfNone result ((ending : AnyEnding) → Lists self.now ending → ⊥) }
    {
        match self.heap.peek() {
            Some(Reverse(ending)) => Some(*ending),
            None => None,
        }
    }

    /// Takes out the soonest.
    pub(crate) fn drop_first(&mut self)
        requires { 0 < heap_len self.old.heap }
        ensures kept { (ending : AnyEnding) → Lists self.old ending
            → (first_of self.old ≡ Some ending) ⊎ Lists self.new ending }
        ensures less { (ending : AnyEnding) → Lists self.new ending → Lists self.old ending }
        ensures count { heap_len self.new.heap + 1 ≡ heap_len self.old.heap }
    {
        let Some(_) = self.heap.pop() else {
            unreachable!();
        };
    }
}
