//! The lines of a text, each lent from one buffer, and texts read whole.
mod buffer;
mod faults;
mod judge;
mod reader;
#[cfg(test)]
mod tests;
mod whole;

pub use buffer::Buffer;
pub use faults::{StreamFault, WholeFault};
pub use reader::LineReader;
pub use whole::read_whole;
