//! The files of a command: how they are read, why one is refused, and what a run that reads them
//! writes and answers; and where a program meets the system (`edge`).
#![tactic(auto)]

mod breach;
mod command_error;
pub mod edge;
mod lines;
mod load;
pub mod planfiles;
mod reasons;
mod whole;
pub mod work;
mod write;

pub use breach::refused_plan;
pub use command_error::{Answer, CommandError, FileFault, Input, IoError, Refusal};
pub use load::{load_absent, load_plan, load_topology};
pub use write::{send, write_answer};

/// How a run ended. The order of the variants is the exit code of the program.
#[derive(Clone, Copy, Debug, PartialEq, Eq)]
pub enum Status {
    /// The work ended.
    Done,
    /// A plan was refused.
    PlanRefused,
    /// The words are not in the table.
    Usage,
    /// A file, a line or an event was refused.
    InputRefused,
    /// A file could not be begun or read.
    ShelfFault,
    /// The output could not be written.
    SinkFault,
    /// Memory could not be had.
    Memory,
    /// The schedule ended, and a premise broke or an alarm was due.
    Broken,
}

impl Status {
    ghost use Rattle.std.specs.Prelude.{◌≡◌};
    ghost use Rattle.sd_files.specs.Statuses.{code_of};

    /// The exit code, 0 to 7.
    pub fn code(self) -> u8
        ensures { result ≡ code_of self }
    {
        self as u8
    }
}
