//! The event of a word and the numbers of its fields.
ghost use Rattle.std.specs.Prelude.{◌≡◌, IsTrue};
ghost use Rattle.sd_sched.specs.Spelled.{is_within};
ghost use Rattle.sd_sched.specs.Reading.{row_of, WithinFrom, sets_estimate, only_reads};

use crate::Event;
use crate::words::{MOST_FIELDS, Word};

/// What the field that names a device or a link counts as where it says `device`.
const DEVICE: u64 = 0;

impl Word {
    /// The event of the word's numbers; those past its fields are left aside.
    pub fn event(self, numbers: &[u64; MOST_FIELDS]) -> Event
        requires { WithinFrom 0 (row_of self).shape numbers.now }
        ensures event { result ≡ (row_of self).event numbers.now }
        ensures within { IsTrue (is_within result) }
    {
        let reference = numbers[0];
        match self {
            Word::Start | Word::Fix | Word::Join => self.setting(numbers),
            Word::Tick | Word::Recv | Word::Ask | Word::Commit => self.counter_reading(numbers),
            Word::Lose => Event::Lose {
                reference,
                message: numbers[1],
            },
            Word::Fail if numbers[1] == DEVICE => Event::FailDevice {
                reference,
                device: numbers[2] as u32,
            },
            Word::Fail => Event::FailLink {
                reference,
                link: numbers[2] as u32,
            },
            Word::Mend if numbers[1] == DEVICE => Event::MendDevice {
                reference,
                device: numbers[2] as u32,
            },
            Word::Mend => Event::MendLink {
                reference,
                link: numbers[2] as u32,
            },
            Word::Give => Event::Give {
                reference,
                device: numbers[1] as u32,
            },
            Word::Seal => Event::Seal {
                reference,
                device: numbers[1] as u32,
            },
            Word::Stage => Event::Stage { reference },
            Word::End => Event::End { reference },
        }
    }

    /// The event of a word that sets an estimate.
    fn setting(self, numbers: &[u64; MOST_FIELDS]) -> Event
        requires sets { IsTrue (sets_estimate self) }
        requires within { WithinFrom 0 (row_of self).shape numbers.now }
        ensures event { result ≡ (row_of self).event numbers.now }
        ensures within { IsTrue (is_within result) }
    {
        let [reference, device, counter, clock, eps] = *numbers;
        let device = device as u32;
        match self {
            Word::Start => Event::Start {
                reference,
                device,
                counter,
                clock,
                eps,
            },
            Word::Fix => Event::Fix {
                reference,
                device,
                counter,
                clock,
                eps,
            },
            Word::Join => Event::Join {
                reference,
                device,
                counter,
                clock,
                eps,
            },
            _ => unreachable!(),
        }
    }

    /// The event of a word at which a device reads its counter and sets no estimate.
    fn counter_reading(self, numbers: &[u64; MOST_FIELDS]) -> Event
        requires reads { IsTrue (only_reads self) }
        requires within { WithinFrom 0 (row_of self).shape numbers.now }
        ensures event { result ≡ (row_of self).event numbers.now }
        ensures within { IsTrue (is_within result) }
    {
        let [reference, device, counter, message, _] = *numbers;
        let device = device as u32;
        match self {
            Word::Tick => Event::Tick {
                reference,
                device,
                counter,
            },
            Word::Recv => Event::Recv {
                reference,
                device,
                counter,
                message,
            },
            Word::Ask => Event::Ask {
                reference,
                device,
                counter,
            },
            Word::Commit => Event::Commit {
                reference,
                device,
                counter,
            },
            _ => unreachable!(),
        }
    }
}
