//! Why a command ends before its plans are there.
ghost use Rattle.std.specs.Prelude.{◌≡◌};
ghost use Rattle.sd_files.specs.planfiles.SetupError.{made_of};

use crate::{Answer, CommandError};
use sd_num::NoMemory;
use std::alloc::AllocError;

/// Why a command ends before its plans are there.
#[derive(Drop)]
pub enum SetupError {
    /// A plan breaks a condition, which is the command's answer.
    Answered(Answer),
    /// A file is refused, or the run is stopped.
    Stopped(CommandError),
}

impl SetupError {
    /// The answer, or why there is none.
    pub fn made(self) -> Result<Answer, CommandError>
        ensures { result ≡ made_of self }
    {
        match self {
            SetupError::Answered(answer) => Ok(answer),
            SetupError::Stopped(why) => Err(why),
        }
    }
}

impl From<CommandError> for SetupError {
    ghost use Rattle.std.specs.Prelude.{◌≡◌};
    ghost use Rattle.sd_files.specs.declared.planfiles.setup_error.SetupError.TheVariants.{Stopped};

    ghost from_gives = { λ why early. early ≡ Stopped why };

    fn from(why: CommandError) -> SetupError {
        SetupError::Stopped(why)
    }
}

impl From<NoMemory> for SetupError {
    ghost use Rattle.std.specs.Prelude.{◌≡◌};
    ghost use Rattle.sd_files.specs.declared.command_error.CommandError.TheVariants.{Memory};
    ghost use Rattle.sd_files.specs.declared.planfiles.setup_error.SetupError.TheVariants.{Stopped};

    ghost from_gives = { λ error early. early ≡ Stopped Memory };

    fn from(_error: NoMemory) -> SetupError {
        SetupError::Stopped(CommandError::Memory)
    }
}

impl From<AllocError> for SetupError {
    ghost use Rattle.std.specs.Prelude.{◌≡◌};
    ghost use Rattle.sd_files.specs.declared.command_error.CommandError.TheVariants.{Memory};
    ghost use Rattle.sd_files.specs.declared.planfiles.setup_error.SetupError.TheVariants.{Stopped};

    ghost from_gives = { λ error early. early ≡ Stopped Memory };

    fn from(_error: AllocError) -> SetupError {
        SetupError::Stopped(CommandError::Memory)
    }
}
