//! What waits of a log, and before which reference nothing is to come of it.
ghost use Rattle.std.specs.Prelude.{◌≡◌, ◌++◌, ◌∷◌, [], drop, None, IfOk, OnErr, OnOk};
ghost use Rattle.std.specs.Option.{option_to_list};
ghost use Rattle.sd_record.specs.merge.Queues.{bound_of, ended, next_bound, passed, pushed};

use sd_num::NoMemory;
use std::alloc::Global;
use std::collections::VecDeque;
use std::marker::Model;

/// A line of a log that waits.
#[derive(Drop)]
pub struct Waiting {
    /// The number of its log.
    log: usize,
    reference: u64,
    bytes: Vec<u8>,
}

impl Model for Waiting {
    ghost use Rattle.sd_record.specs.merge.Lines.{LogLine};

    ghost Value = { LogLine };

    ghost view = { λ w. record { log = w.log; reference = w.reference; bytes = w.bytes.items } };
}

impl Waiting {
    /// A line that stands in these bytes.
    pub fn new(alloc: Global, log: usize, reference: u64, bytes: &[u8]) -> Result<Waiting, NoMemory>
        ensures { IfOk result (λ line. line
            ≡ record { log = log; reference = reference; bytes = bytes.now }) }
    {
        match Vec::from_slice(alloc, bytes) {
            Ok(bytes) => Ok(Waiting {
                log,
                reference,
                bytes,
            }),
            Err(_) => Err(NoMemory),
        }
    }

    pub fn reference(&self) -> u64
        ensures { result ≡ self.now.reference }
    {
        self.reference
    }

    pub fn bytes(&self) -> &[u8]
        ensures { result.now ≡ self.now.bytes }
    {
        self.bytes.as_slice()
    }
}

/// A log of which lines wait.
#[derive(Drop)]
pub struct Log {
    /// It brings nothing before this reference any more.
    from: u64,
    waiting: VecDeque<Waiting>,
}

impl Model for Log {
    ghost use Rattle.sd_record.specs.merge.Queues.{Queue};

    ghost Value = { Queue };

    ghost view = { λ l. record { from = l.from; waiting = l.waiting.items } };
}

impl Log {
    /// A log of which nothing is known.
    pub fn new(alloc: Global) -> Log
        ensures { result ≡ record { from = 0; waiting = [] } }
    {
        Log {
            from: 0,
            waiting: VecDeque::new(alloc),
        }
    }

    pub fn from(&self) -> u64
        ensures { result ≡ self.now.from }
    {
        self.from
    }

    /// Before this reference nothing is to come of it.
    pub fn bound(&self) -> u64
        ensures { result ≡ bound_of self.now }
    {
        match self.waiting.front() {
            Some(line) => line.reference(),
            None => self.from,
        }
    }

    /// The bound once it has gone past a reference.
    pub fn bound_past(&self, reference: u64) -> u64
        ensures { result ≡ bound_of (passed reference self.now) }
    {
        match self.waiting.front() {
            Some(line) => line.reference(),
            None => self.from.max(reference),
        }
    }

    /// The bound once its first line has left.
    pub fn next_bound(&self) -> u64
        ensures { result ≡ next_bound self.now }
    {
        match self.waiting.get(1) {
            Some(line) => line.reference(),
            None => self.from,
        }
    }

    /// It brings nothing before a reference any more.
    pub fn pass(&mut self, reference: u64)
        ensures { self.new ≡ passed reference self.old }
    {
        if self.from < reference {
            self.from = reference;
        }
    }

    /// It brings nothing any more.
    pub fn end(&mut self)
        ensures { self.new ≡ ended self.old }
    {
        self.from = u64::MAX;
    }

    /// It goes on with a line.
    pub fn push(&mut self, line: Waiting) -> Result<(), NoMemory>
        ensures pushed { OnOk result (self.new ≡ pushed line self.old) }
        ensures err { OnErr result (self.new ≡ self.old) }
    {
        let reference = line.reference();
        match self.waiting.push_back(line) {
            Ok(()) => {
                self.pass(reference);
                Ok(())
            }
            Err(_) => Err(NoMemory),
        }
    }

    /// The first line that waits leaves.
    pub fn pop(&mut self) -> Option<Waiting>
        ensures lines { self.old.waiting ≡ option_to_list result ++ self.new.waiting }
        ensures rest { self.new.waiting ≡ drop 1 self.old.waiting }
        ensures same { self.new.from ≡ self.old.from }
        ensures none { result ≡ None → self.old.waiting ≡ [] }
    {
        self.waiting.pop_front()
    }
}
