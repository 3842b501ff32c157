//! Where bytes come from and go to. A `Shelf` gives named texts in pieces and a
//! `Sink` takes bytes; each counts how often the outside has failed, so that a
//! caller that blames the outside can be held to it.
mod again;
mod file_shelf;
mod line_buffer;
mod mem_shelf;
mod mem_sink;
mod no_fault;
mod room;
mod shelf;
mod sink;
mod std_sink;
mod system;
mod texts;

pub use file_shelf::{FileShelf, LastFault};
pub use line_buffer::LineBuffer;
pub use mem_shelf::MemShelf;
pub use mem_sink::MemSink;
pub use no_fault::{NoFaultShelf, NoFaultSink};
pub use shelf::{Failed, Shelf};
pub use sink::Sink;
pub use std_sink::StdSink;
pub use system::{SystemFile, SystemFiles, SystemWriter};
