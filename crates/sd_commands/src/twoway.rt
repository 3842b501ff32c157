//! A text of exchanges over a topology, line by line, and the bounds of its links.
mod lines;
mod reasons;
mod state;
mod tally;
mod work;
mod writing;

use crate::exchanges::{ExchangeFault, ExchangeLineFault};
pub use state::Exchanges;

/// Why a line is refused after those before it. The first that holds is answered, in the order
/// written.
#[derive(Clone, Copy, Debug, PartialEq, Eq)]
pub enum TwowayFault {
    /// The line is no line of an exchanges text.
    Line(ExchangeLineFault),
    /// An `end` stands before.
    AfterEnd,
    /// The link's number is not below the number of links.
    UnknownLink,
    /// The exchange has no span.
    Spanless(ExchangeFault),
}
