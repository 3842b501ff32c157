//! A device as a plain program: it keeps the whole list of its calls, and looks up all that it
//! needs anew at each of them.

use sd_device::Effect;
use sd_device::msg::{Message, Stamp};
use sd_num::Rates;
use sd_num::clock::Report;
use sd_plan::{Duty, Edge, Role};
use std::alloc::{AllocError, Global};

#[derive(Clone, Copy, Debug)]
pub(super) enum Call {
    Tick {
        counter: u64,
    },
    Receive {
        link: u32,
        message: Message,
        counter: u64,
    },
    Fix {
        counter: u64,
        clock: u64,
        eps: u64,
    },
    Give(Duty),
    Commit {
        counter: u64,
    },
    Seal,
}

#[derive(Clone, Copy, Debug)]
pub(super) enum Transition {
    Entered(Duty, Edge),
    Committed(Duty),
    Recommitted(Duty),
    Accepted(Edge),
    Moved,
    TookOver,
    Emitted,
    Nothing,
}

#[derive(Clone, Copy, Debug)]
pub(super) struct CallDone {
    pub(super) call: Call,
    pub(super) transition: Transition,
}

/// How it was made: with a duty, or without one.
#[derive(Clone, Copy, Debug)]
pub(super) struct Making {
    pub(super) duty: Option<Duty>,
    pub(super) rates: Rates,
    pub(super) counter: u64,
    pub(super) clock: u64,
    pub(super) eps: u64,
}

#[derive(Drop)]
pub(super) struct Plain {
    making: Making,
    did: Vec<CallDone>,
}

impl Transition {
    /// A letter for each kind.
    fn letter(&self) -> char {
        match self {
            Transition::Entered(..) => 'e',
            Transition::Committed(_) => 'c',
            Transition::Recommitted(_) => 'r',
            Transition::Accepted(_) => 'a',
            Transition::Moved => 'm',
            Transition::TookOver => 't',
            Transition::Emitted => 's',
            Transition::Nothing => 'n',
        }
    }
}

impl Call {
    fn counter(&self) -> Option<u64> {
        match self {
            Call::Tick { counter }
            | Call::Receive { counter, .. }
            | Call::Fix { counter, .. }
            | Call::Commit { counter } => Some(*counter),
            Call::Give(_) | Call::Seal => None,
        }
    }
}

impl CallDone {
    fn taken_up(&self) -> Option<Duty> {
        match self.transition {
            Transition::Entered(duty, _)
            | Transition::Committed(duty)
            | Transition::Recommitted(duty) => Some(duty),
            _ => None,
        }
    }

    fn accepted_over(&self) -> Option<Edge> {
        match self.transition {
            Transition::Entered(_, edge) | Transition::Accepted(edge) => Some(edge),
            _ => None,
        }
    }

    fn heard(&self) -> Option<u64> {
        match self.accepted_over() {
            Some(_) => self.call.counter(),
            None => None,
        }
    }

    fn moved(&self) -> Option<u64> {
        match self.transition {
            Transition::Moved => self.call.counter(),
            _ => None,
        }
    }

    fn sent(&self) -> Option<u64> {
        match self.transition {
            Transition::Committed(_) | Transition::TookOver | Transition::Emitted => self
                .call
                .counter(),
            _ => None,
        }
    }

    fn given(&self) -> Option<Duty> {
        match self.call {
            Call::Give(duty) => Some(duty),
            _ => None,
        }
    }

    /// The clock, uncertainty and counter of the estimate that it set.
    fn estimate(&self) -> Option<(u128, u128, u64)> {
        match (self.call, self.accepted_over()) {
            (
                Call::Fix {
                    counter,
                    clock,
                    eps,
                },
                _,
            ) => Some((u128::from(clock), u128::from(eps), counter)),
            (
                Call::Receive {
                    message,
                    counter,
                    ..
                },
                Some(edge),
            ) => Some((
                message.clock.saturating_add(u128::from(edge.bounds.mid)),
                message.eps.saturating_add(u128::from(edge.bounds.half)),
                counter,
            )),
            _ => None,
        }
    }

    fn stamp_after(&self, before: Stamp) -> Stamp {
        match (self.transition, self.call) {
            (Transition::Entered(..) | Transition::Accepted(_), Call::Receive { message, .. }) =>
                message.stamp,
            (Transition::Committed(_), _) => Stamp {
                term: before.term.saturating_add(1),
                round: 0,
            },
            (Transition::TookOver, _) => Stamp {
                term: before.term.saturating_add(1),
                round: 1,
            },
            (Transition::Emitted, _) => Stamp {
                term: before.term,
                round: before.round.saturating_add(1),
            },
            _ => before,
        }
    }
}

impl Plain {
    pub(super) fn new(alloc: Global, making: Making) -> Plain {
        Plain {
            making,
            did: Vec::new(alloc),
        }
    }

    /// A call, and what it sends.
    pub(super) fn call(&mut self, call: Call) -> Result<Effect, AllocError> {
        let transition = self.transition(&call);
        self.did.push(CallDone { call, transition })?;
        Ok(match (transition, call.counter()) {
            (Transition::Entered(..) | Transition::Accepted(_), _) => {
                let (clock, eps, _) = self.estimate();
                Effect::Send(self.message(Report { clock, eps }))
            }
            (Transition::TookOver | Transition::Emitted, Some(counter)) => Effect::Send(
                self.message(self.report(counter)),
            ),
            _ => Effect::Quiet,
        })
    }

    /// Whether some call did something of this letter.
    pub(super) fn has_done(&self, letter: char) -> bool {
        self.did.iter().any(|x| x.transition.letter() == letter)
    }

    fn message(&self, report: Report) -> Message {
        Message {
            epoch: self.epoch(),
            stamp: self.stamp(),
            clock: report.clock,
            eps: report.eps,
        }
    }

    fn entry(&self) -> Option<CallDone> {
        self.did
            .iter()
            .rev()
            .find(|x| x.taken_up().is_some())
            .copied()
    }

    pub(super) fn duty(&self) -> Option<Duty> {
        match self.entry() {
            Some(entry) => entry.taken_up(),
            None => self.making.duty,
        }
    }

    pub(super) fn epoch(&self) -> u32 {
        match self.duty() {
            Some(duty) => duty.epoch,
            None => 0,
        }
    }

    fn rates(&self) -> Rates {
        match self.duty() {
            Some(duty) => duty.rates,
            None => self.making.rates,
        }
    }

    pub(super) fn given(&self) -> Option<Duty> {
        self.did
            .iter()
            .rev()
            .take_while(|x| x.taken_up().is_none())
            .find_map(|x| x.given())
    }

    pub(super) fn is_sealed(&self) -> bool {
        self.entry().is_none()
            || self
                .did
                .iter()
                .rev()
                .take_while(|x| x.taken_up().is_none())
                .any(|x| matches!(x.call, Call::Seal))
    }

    fn has_moved(&self) -> bool {
        self.did
            .iter()
            .rev()
            .take_while(|x| x.taken_up().is_none())
            .any(|x| matches!(x.transition, Transition::Moved))
    }

    pub(super) fn acts(&self) -> bool {
        let from_entry = match self.entry() {
            Some(entry) => matches!(
                entry.transition,
                Transition::Committed(_) | Transition::Recommitted(_)
            ),
            None => matches!(self.making.duty, Some(duty) if duty.role == Role::Root),
        };
        from_entry
            || self
                .did
                .iter()
                .rev()
                .take_while(|x| x.taken_up().is_none())
                .any(|x| matches!(x.transition, Transition::TookOver))
    }

    fn edge(&self) -> Option<Edge> {
        match self.duty() {
            Some(_) if self.acts() => None,
            Some(duty) if self.has_moved() => duty.backup,
            Some(duty) => duty.primary,
            None => None,
        }
    }

    pub(super) fn parent(&self) -> Option<u32> {
        self.edge().map(|edge| edge.parent)
    }

    fn heard(&self) -> u64 {
        self.did
            .iter()
            .rev()
            .find_map(|x| x.heard())
            .unwrap_or(self.making.counter)
    }

    fn moved(&self) -> u64 {
        self.did.iter().rev().find_map(|x| x.moved()).unwrap_or(0)
    }

    fn sent(&self) -> u64 {
        self.did
            .iter()
            .rev()
            .find_map(|x| x.sent())
            .unwrap_or(self.making.counter)
    }

    fn stamp(&self) -> Stamp {
        let mut stamp = Stamp { term: 0, round: 0 };
        for did in &self.did {
            stamp = did.stamp_after(stamp);
        }
        stamp
    }

    fn estimate(&self) -> (u128, u128, u64) {
        let made = (
            u128::from(self.making.clock),
            u128::from(self.making.eps),
            self.making.counter,
        );
        self.did
            .iter()
            .rev()
            .find_map(|x| x.estimate())
            .unwrap_or(made)
    }

    pub(super) fn report(&self, counter: u64) -> Report {
        let (clock, base, at) = self.estimate();
        let elapsed = counter.saturating_sub(at);
        let rates = self.rates();
        let growth = (u128::from(rates.ppm) * u128::from(elapsed)).div_ceil(1_000_000);
        Report {
            clock: clock.saturating_add(u128::from(elapsed)),
            eps: base
                .saturating_add(u128::from(rates.grain))
                .saturating_add(growth),
        }
    }

    fn transition(&self, call: &Call) -> Transition {
        match *call {
            Call::Tick { counter } => match self.duty() {
                Some(duty) => self.tick(&duty, counter),
                None => Transition::Nothing,
            },
            Call::Receive { link, message, .. } => self.receipt(link, &message),
            Call::Commit { .. } => match self.given() {
                Some(duty) if self.acts() => Transition::Recommitted(duty),
                Some(duty) => Transition::Committed(duty),
                None => Transition::Nothing,
            },
            Call::Fix { .. } | Call::Give(_) | Call::Seal => Transition::Nothing,
        }
    }

    fn tick(&self, duty: &Duty, counter: u64) -> Transition {
        let since = |counter_then: u64| counter.saturating_sub(counter_then);
        if self.acts() {
            return if since(self.sent()) >= duty.period {
                Transition::Emitted
            } else {
                Transition::Nothing
            };
        }
        if self.has_moved() {
            let late = since(self.heard().max(self.moved())) >= duty.wait_second;
            return if duty.role == Role::BackupRoot && late {
                Transition::TookOver
            } else {
                Transition::Nothing
            };
        }
        let wait = match duty.role {
            Role::Root => return Transition::Nothing,
            Role::BackupRoot => duty.wait_first,
            Role::Ordinary if duty.backup.is_none() => return Transition::Nothing,
            Role::Ordinary => duty.wait,
        };
        if self.is_sealed() && since(self.heard()) >= wait {
            Transition::Moved
        } else {
            Transition::Nothing
        }
    }

    fn receipt(&self, link: u32, message: &Message) -> Transition {
        if let Some(duty) = self.given() {
            match duty.primary {
                Some(edge) if edge.link == link && duty.epoch == message.epoch =>
                    return Transition::Entered(duty, edge),
                _ => {}
            }
        }
        let stamp = self.stamp();
        let newer = (message.stamp.term, message.stamp.round) > (stamp.term, stamp.round);
        match self.edge() {
            Some(edge) if edge.link == link && newer && message.epoch == self.epoch() =>
                Transition::Accepted(edge),
            _ => Transition::Nothing,
        }
    }
}
