//! The line of a file that is refused.
ghost use Rattle.std.specs.Prelude.{◌≡◌, IfOk, string_bytes};
ghost use Rattle.sd_files.specs.Reasons as texts;

use crate::command_error::Refusal;
use std::alloc::{AllocError, Global};

/// The line that ends a run one of whose files is refused.
pub fn refusal_line(alloc: Global, refusal: &Refusal) -> Result<String, AllocError>
    ensures { IfOk result (λ line. string_bytes line ≡ texts.refusal_line refusal.now) }
{
    let Refusal { input, fault } = refusal;
    let text = format!(in alloc; "input {input} {fault}\n")?;
    Ok(text)
}
