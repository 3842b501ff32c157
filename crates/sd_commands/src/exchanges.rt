//! Delay bounds from recorded two-way exchanges.
//!
//! One device, the beginner, sends at its counter `t1`; the other receives at its counter `t2` and
//! replies at its counter `t3`; the beginner receives the reply at its counter `t4`. Each counter
//! drifts within its device's rates, and the delays of the two ways differ by at most `asym`. So
//! both delays lie in a span that the four counters give. All are picoseconds.
pub mod bounds;
mod by_link;
mod fields;
mod reading;

pub use by_link::Spans;
pub use reading::read_exchange;

/// A recorded two-way exchange, in picoseconds.
#[derive(Clone, Copy, Debug, PartialEq, Eq)]
pub struct Exchange {
    /// By how much the two delays may differ.
    pub asym: u64,
    /// The beginner's counter where it sends.
    pub t1: u64,
    /// The other's counter where it receives.
    pub t2: u64,
    /// The other's counter where it replies.
    pub t3: u64,
    /// The beginner's counter where it receives the reply.
    pub t4: u64,
}

/// Bounds, in picoseconds, that both delays of an exchange lie in.
#[derive(Clone, Copy, Debug, PartialEq, Eq)]
pub struct Span {
    pub min: u64,
    pub max: u64,
}

/// Why an exchange has no span. The first that holds is answered, in the order written.
#[derive(Clone, Copy, Debug, PartialEq, Eq)]
pub enum ExchangeFault {
    /// A counter falls: `t4` is less than `t1`, or `t3` less than `t2`.
    Backwards,
    /// The other took longer between its readings than the beginner did between its own, by more
    /// than their rates allow.
    Impossible,
    /// A delay may exceed 10^12 ps, the most that a topology's bounds can be.
    TooLarge,
}

/// A line of an exchanges text.
#[derive(Clone, Copy, Debug, PartialEq, Eq)]
pub enum ExchangeLine {
    /// `exchange`: an exchange over a link, begun by its first end (side 0) or its second (side 1).
    Exchange {
        link: u32,
        side: u8,
        exchange: Exchange,
    },
    /// `end`: the text is over.
    End,
}

/// Why bytes are no line of an exchanges text. The first that holds is answered, in the order
/// written.
#[derive(Clone, Copy, Debug, PartialEq, Eq)]
pub enum ExchangeLineFault {
    /// The first field is neither of the two words.
    UnknownWord,
    /// The word has another number of fields.
    FieldCount,
    /// This field, from 1 after the word, is the first that is no number or is past its limit.
    Number(u8),
}
