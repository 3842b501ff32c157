//! Why a line was not lent, or a text not read whole.

/// Why no line was lent.
#[derive(Clone, Copy, Debug, PartialEq, Eq)]
pub enum StreamFault {
    /// The outside failed. The next call goes on from the same place.
    ReadFault,
    /// The next line has more than 4096 bytes.
    LongLine,
    /// The text has more than 2^32 bytes, and the next line does not end within the first 2^32.
    Limit,
}

/// Why a text was not read whole.
#[derive(Clone, Copy, Debug, PartialEq, Eq)]
pub enum WholeFault {
    /// The outside failed.
    ReadFault,
    /// More than 2^26 bytes were left.
    TooLong,
    /// Memory could not be had.
    Memory,
}
