//! How a command ends at a line that is refused.
ghost use Rattle.std.specs.Prelude.{◌≡◌, ◌∷◌, [], IfOk, codes, decimal, string_bytes};
ghost use Rattle.sd_num.specs.Texts.{text_of};
ghost use Rattle.sd_resume.specs.command.Played.{EndsWithLine};

use sd_files::planfiles::SetupError;
use sd_files::{Answer, CommandError, Status};
use std::alloc::{AllocError, Global};

/// The line of a text that is refused at one of its lines.
fn refused_line(alloc: Global, word: &str, number: u64, why: &str) -> Result<String, AllocError>
    ensures { IfOk result (λ line. string_bytes line
        ≡ text_of (codes "input" ∷ word.now ∷ decimal number ∷ why.now ∷ [])) }
{
    let line = format!(in alloc; "input {word} {number} {why}\n")?;
    Ok(line)
}

/// A command ends with that line.
pub(crate) fn refusal(alloc: Global, word: &str, number: u64, why: &str) -> SetupError
    ensures { EndsWithLine
        (text_of (codes "input" ∷ word.now ∷ decimal number ∷ why.now ∷ [])) result }
{
    match refused_line(alloc, word, number, why) {
        Ok(line) => SetupError::Answered(Answer {
            text: line.into_bytes(),
            status: Status::InputRefused,
        }),
        Err(_) => SetupError::Stopped(CommandError::Memory),
    }
}
