//! The monitors of the premises on clocks: that starts are true, that oscillators do not drift too
//! far, that links keep their delays, and that devices tick often enough. Each stands for the list
//! of what was seen so far, and answers with each event whether its premise holds still.
//!
//! No monitor takes memory once it is made. An event costs constant time but for the tick monitor:
//! at the first event, a stage and a closing it looks at each device, and so it does where ticks
//! that it has not in order may be too old. Another event lets go of ticks of earlier events, each
//! tick once, so that the average over all events is constant.
mod delay;
mod drift;
mod offsets;
mod present_rows;
mod queue;
mod seen;
mod start;
mod tick;
mod ticks;

pub use delay::DelayMonitor;
pub use drift::DriftMonitor;
pub use offsets::Offsets;
pub use present_rows::PresentRows;
pub use seen::Seen;
pub use start::StartMonitor;
pub use tick::TickMonitor;
