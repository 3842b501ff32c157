//! A line's event: its word, the numbers of its fields, and the event of these.
ghost use Rattle.std.specs.Prelude.{◌≡◌, IfOk, IsTrue};
ghost use Rattle.sd_sched.specs.Lines.{event_of_line};
ghost use Rattle.sd_sched.specs.Spelled.{is_within};

use crate::fields::{first_field, read_fields};
use crate::words::Word;
use crate::{Event, LineFault};

/// The event of a line without its newline, or why it is none.
pub fn read_line(bytes: &[u8]) -> Result<Event, LineFault>
    ensures event { result ≡ event_of_line bytes.now }
    ensures within { IfOk result (λ e. IsTrue (is_within e)) }
{
    let first = first_field(bytes);
    let Some(word) = Word::of(first) else {
        return Err(LineFault::UnknownWord);
    };
    let numbers = read_fields(word.shape(), &bytes[first.len()..])?;
    Ok(word.event(&numbers))
}
