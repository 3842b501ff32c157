//! The names of messages, of which the last message of a name is found by a search.
ghost use Rattle.std.specs.Prelude.{◌≡◌, ◌≢◌, ◌⊎◌, ◌<◌, ◌-◌, ◌^◌, ℕ, true, false, IfNone, IfSome, OnOk};
ghost use Rattle.std.specs.BTreeSet.{btree_set_len};
ghost use Rattle.sd_record.specs.declared.logs.MessageName.{MessageName as AnyName};

use crate::logs::MessageName;
use sd_num::NoMemory;
use std::alloc::Global;
use std::collections::BTreeSet;

/// A message with its name. The order is by name, and of one name by number.
#[derive(Clone, Copy, Debug, PartialEq, Eq, PartialOrd, Ord)]
pub(crate) struct NamedMessage {
    pub name: MessageName,
    pub number: u64,
}

/// Messages by their names.
#[derive(Drop)]
pub(crate) struct Names {
    messages: BTreeSet<NamedMessage>,
}

impl Names {
    ghost use Rattle.sd_record.specs.Names.{IsLastNamed, has_message};

    /// None.
    pub(crate) fn new(alloc: Global) -> Names
        ensures { (name : AnyName) (number : ℕ) → has_message result name number ≡ false }
    {
        Names {
            messages: BTreeSet::new(alloc),
        }
    }

    /// One more.
    pub(crate) fn add(&mut self, message: NamedMessage) -> Result<(), NoMemory>
        ensures added { OnOk result (has_message self.new message.name message.number ≡ true) }
        ensures kept { OnOk result ((name : AnyName) (number : ℕ)
            → has_message self.old name number ≡ true → has_message self.new name number ≡ true) }
        ensures only { OnOk result ((name : AnyName) (number : ℕ)
            → has_message self.new name number ≡ true
            → (has_message self.old name number ≡ true)
            ⊎ (message ≡ record { name = name; number = number })) }
    {
        match self.messages.insert(message) {
            Ok(_) => Ok(()),
            Err(_) => Err(NoMemory),
        }
    }

    /// The number of the last message that has a name.
    pub(crate) fn last(&self, name: &MessageName) -> Option<u64>
        ensures last { IfSome result (IsLastNamed self.now name.now) }
        ensures none { IfNone result ((number : ℕ) → number < 2 ^ 64 - 1
            → has_message self.now name.now number ≡ false) }
    {
        let first = NamedMessage {
            name: *name,
            number: 0,
        };
        let end = NamedMessage {
            name: *name,
            number: u64::MAX,
        };
        let Some(last) = self.messages.range(first..end).next_back() else {
            return None;
        };
        Some(last.number)
    }

    /// One less, if it is one of them.
    pub(crate) fn remove(&mut self, message: NamedMessage)
        ensures gone { has_message self.new message.name message.number ≡ false }
        ensures kept { (name : AnyName) (number : ℕ) → number ≢ message.number
            → has_message self.old name number ≡ true → has_message self.new name number ≡ true }
        ensures less { (name : AnyName) (number : ℕ) → has_message self.new name number ≡ true
            → has_message self.old name number ≡ true }
        ensures count { has_message self.old message.name message.number ≡ true
            → btree_set_len self.new.messages < btree_set_len self.old.messages }
    {
        self.messages.remove(&message);
    }
}
