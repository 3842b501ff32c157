//! A plain slow replay: after each event it judges the premises and the alarms by passes over the
//! whole list of events, and prints the lines of the event. Tests compare the replay with it; it is
//! for tests alone.
//!
//! It keeps no registers: a premise is broken where an event so far was against it. No function has
//! an `ensures`: a wrong body here makes a test above fail.

mod alarms;
mod clocks;
mod failures;
mod lines;
mod premises;
mod renewals;
mod replay;
mod rounds;
mod site;
mod ticks;

pub use lines::Found;
pub use premises::{PREMISES, Premise};
pub use replay::PlainReplay;
pub use site::Site;
