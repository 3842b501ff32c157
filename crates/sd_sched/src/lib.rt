//! Schedule lines. A schedule is a text of lines, each of them one event: a line is a word and its
//! fields, parted by one space. The fourteen words and their fields are
//!
//! ```text
//! start REF DEVICE COUNTER CLOCK EPS      stage REF
//! tick REF DEVICE COUNTER                 give REF DEVICE
//! recv REF DEVICE COUNTER MESSAGE         commit REF DEVICE COUNTER
//! lose REF MESSAGE                        seal REF DEVICE
//! fail REF device|link NUMBER             join REF DEVICE COUNTER CLOCK EPS
//! fix REF DEVICE COUNTER CLOCK EPS        mend REF device|link NUMBER
//! ask REF DEVICE COUNTER                  end REF
//! ```
//!
//! Numbers are decimal, with no leading zero. Devices and links go to 2^32 - 1, all others to 2^60.
#![tactic(auto)]

mod digits_by_eight;
mod event_of_fields;
mod events;
mod fast;
mod fields;
mod numbers;
mod printing;
mod reading;
mod words;

pub use fast::{BufferedLine, read_buffered_line};
pub use fields::{Found, behind_space, first_field, read_number};
pub use printing::line_text;
pub use reading::read_line;

/// One line of a schedule: an atomic action of one device or of the world.
///
/// `reference` is the reference time of the event, `counter` what the device's counter shows then,
/// `clock` an estimate of the reference time and `eps` how far it may be off: all in picoseconds,
/// at most 2^60. Devices and links are numbered from 0, messages from 1.
#[derive(Clone, Copy, Debug, PartialEq, Eq)]
pub enum Event {
    /// `start`: a device begins, with an estimate.
    Start {
        reference: u64,
        device: u32,
        counter: u64,
        clock: u64,
        eps: u64,
    },
    /// `tick`: a device looks at its counter, and may send or change its parent.
    Tick {
        reference: u64,
        device: u32,
        counter: u64,
    },
    /// `recv`: a device receives a message.
    Recv {
        reference: u64,
        device: u32,
        counter: u64,
        message: u64,
    },
    /// `lose`: a message is lost on its way.
    Lose {
        reference: u64,
        message: u64,
    },
    /// `fail .. device`: a device stops.
    FailDevice {
        reference: u64,
        device: u32,
    },
    /// `fail .. link`: a link breaks.
    FailLink {
        reference: u64,
        link: u32,
    },
    /// `fix`: the estimate of a device is set anew.
    Fix {
        reference: u64,
        device: u32,
        counter: u64,
        clock: u64,
        eps: u64,
    },
    /// `ask`: a device reports the time.
    Ask {
        reference: u64,
        device: u32,
        counter: u64,
    },
    /// `stage`: the next plan is prepared.
    Stage {
        reference: u64,
    },
    /// `give`: a device is given its duty of the staged plan.
    Give {
        reference: u64,
        device: u32,
    },
    /// `commit`: the root of the staged plan goes over to it.
    Commit {
        reference: u64,
        device: u32,
        counter: u64,
    },
    /// `seal`: a device that went over may change its parent or take over again.
    Seal {
        reference: u64,
        device: u32,
    },
    /// `join`: a device begins during a change of plan, with an estimate and no duty.
    Join {
        reference: u64,
        device: u32,
        counter: u64,
        clock: u64,
        eps: u64,
    },
    /// `mend .. device`: a device that failed may start or join again.
    MendDevice {
        reference: u64,
        device: u32,
    },
    /// `mend .. link`: a link that broke carries messages again.
    MendLink {
        reference: u64,
        link: u32,
    },
    /// `end`: the schedule is over.
    End {
        reference: u64,
    },
}

/// Why bytes are no line of a schedule. The first that holds is answered, in the order written,
/// but that a `fail` or `mend` of neither a device nor a link is told only where the number of
/// fields is right.
#[derive(Clone, Copy, Debug, PartialEq, Eq)]
pub enum LineFault {
    /// The first field is none of the words, or the second says neither `device` nor `link`.
    UnknownWord,
    /// The word has another number of fields.
    FieldCount,
    /// This field, from 1 after the word, is the first that is no number or is past its limit.
    Number(u8),
}
