//! What a command makes of its files, and why it ends before.
ghost use Rattle.std.specs.Prelude.{◌≡◌};

use crate::Status;
use sd_io::stream::WholeFault;
use sd_num::NoMemory;
use sd_plantext::PlanFault;
use sd_topotext::TopoFault;
use std::alloc::AllocError;

/// All that a run writes, by one write, and its status.
#[derive(Drop)]
pub struct Answer {
    pub text: Vec<u8>,
    pub status: Status,
}

/// A file by its part in the command.
#[derive(Clone, Copy, Debug, PartialEq, Eq)]
pub enum Input {
    Topology,
    /// The plan at a place among the plans of the command, from 1.
    Plan(u32),
    Absent,
}

/// Why a file that is read whole is refused.
#[derive(Debug, Drop)]
pub enum FileFault {
    /// It has more than 2^26 bytes.
    TooLong,
    /// Its text is no topology.
    Topology(TopoFault),
    /// Its text is no plan of the topology, or no list of what is absent.
    Plan(PlanFault),
}

/// A file that is refused.
#[derive(Debug, Drop)]
pub struct Refusal {
    pub input: Input,
    pub fault: FileFault,
}

/// Why a command ends before its work is done.
#[derive(Debug, Drop)]
pub enum CommandError {
    /// One of its files is refused, which is its answer.
    Refused(Refusal),
    /// A file could not be begun or read.
    Shelf,
    /// Memory could not be had.
    Memory,
}

impl CommandError {
    ghost use Rattle.sd_files.specs.Loads.{ended_unread, ended_by_topology, ended_by_plan};

    /// A file that was not read to its end.
    pub fn unread(input: Input, fault: WholeFault) -> CommandError
        ensures { result ≡ ended_unread input fault }
    {
        match fault {
            WholeFault::ReadFault => CommandError::Shelf,
            WholeFault::Memory => CommandError::Memory,
            WholeFault::TooLong => CommandError::Refused(Refusal {
                input,
                fault: FileFault::TooLong,
            }),
        }
    }

    /// A topology whose text has a fault.
    pub fn by_topology(fault: TopoFault) -> CommandError
        ensures { result ≡ ended_by_topology fault }
    {
        match fault {
            TopoFault::Memory => CommandError::Memory,
            _ => CommandError::Refused(Refusal {
                input: Input::Topology,
                fault: FileFault::Topology(fault),
            }),
        }
    }

    /// A plan or a list of what is absent whose text has a fault.
    pub fn by_plan(input: Input, fault: PlanFault) -> CommandError
        ensures { result ≡ ended_by_plan input fault }
    {
        match fault {
            PlanFault::Memory => CommandError::Memory,
            _ => CommandError::Refused(Refusal {
                input,
                fault: FileFault::Plan(fault),
            }),
        }
    }
}

impl From<AllocError> for CommandError {
    ghost use Rattle.sd_files.specs.declared.command_error.CommandError.TheVariants.{Memory};

    ghost from_gives = { λ error ended. ended ≡ Memory };

    fn from(_error: AllocError) -> CommandError {
        CommandError::Memory
    }
}

impl From<NoMemory> for CommandError {
    ghost use Rattle.sd_files.specs.declared.command_error.CommandError.TheVariants.{Memory};

    ghost from_gives = { λ error ended. ended ≡ Memory };

    fn from(_error: NoMemory) -> CommandError {
        CommandError::Memory
    }
}

/// What stops a run from outside, before its work has ended.
#[derive(Clone, Copy, Debug, PartialEq, Eq)]
pub enum IoError {
    /// A file could not be begun or read.
    Shelf,
    /// The output could not be written.
    Sink,
    /// Memory could not be had.
    Memory,
}

impl IoError {
    ghost use Rattle.sd_files.specs.Stops.{status_of};

    /// The status of a run that was stopped.
    pub fn status(self) -> Status
        ensures { result ≡ status_of self }
    {
        match self {
            IoError::Shelf => Status::ShelfFault,
            IoError::Sink => Status::SinkFault,
            IoError::Memory => Status::Memory,
        }
    }
}

impl From<AllocError> for IoError {
    ghost use Rattle.sd_files.specs.declared.command_error.IoError.TheVariants.{Memory};

    ghost from_gives = { λ error stop. stop ≡ Memory };

    fn from(_error: AllocError) -> IoError {
        IoError::Memory
    }
}

impl From<NoMemory> for IoError {
    ghost use Rattle.sd_files.specs.declared.command_error.IoError.TheVariants.{Memory};

    ghost from_gives = { λ error stop. stop ≡ Memory };

    fn from(_error: NoMemory) -> IoError {
        IoError::Memory
    }
}
