//! Where a program meets the system: the words that it takes, and how it ends. A run that was
//! stopped from outside says why by one line on standard error.
mod complaint;
mod ending;
mod words;

pub use complaint::Complaint;
pub use ending::{ErrorLines, ErrorOutput, end_without_words, exit_of, say_why};
pub use words::words_of;
