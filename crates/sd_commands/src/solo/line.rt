//! A line of a schedule, as one device alone reads it.
ghost use Rattle.std.specs.Prelude.{◌≡◌, ◌≤◌, take, position, nat_eq, Some, Ok, IfOk, IfSome, IsTrue};
ghost use Rattle.sd_commands.specs.solo.Histories.{is_known as is_known_event};
ghost use Rattle.sd_commands.specs.solo.Lines.{solo_event, knows};

use sd_sched::{BufferedLine, Event, LineFault, first_field, read_buffered_line, read_line};

/// The event of a line, or why it is none. Four words are known here, and a line with another word
/// is `UnknownWord` whatever its fields.
#[tactic(auto, unfolding(crate::specs::solo::Lines::solo_event))]
pub fn read_solo_line(line: &[u8]) -> Result<Event, LineFault>
    ensures event { result ≡ solo_event line.now }
    ensures known { IfOk result (λ e. IsTrue (is_known_event e)) }
{
    // The event tells whether its word is known, so that a line with one is looked at once.
    match read_line(line) {
        Ok(event) => {
            if is_known(&event) {
                Ok(event)
            } else {
                Err(LineFault::UnknownWord)
            }
        }
        Err(fault) => {
            if is_known_word(first_field(line)) {
                Err(fault)
            } else {
                Err(LineFault::UnknownWord)
            }
        }
    }
}

/// The first line of a text, if it is an ask or a fix and ends with a newline. Any other may be one
/// that is known here all the same: `read_solo_line` says.
pub fn read_solo_front(text: &[u8]) -> Option<BufferedLine>
    ensures newline { IfSome result
        (λ front. position (λ byte. nat_eq byte 10) text.now ≡ Some front.len) }
    ensures short { IfSome result (λ front. front.len ≤ 4096) }
    ensures event { IfSome result
        (λ front. solo_event (take front.len text.now) ≡ Ok front.event) }
    ensures known { IfSome result (λ front. IsTrue (is_known_event front.event)) }
{
    let Some(front) = read_buffered_line(text) else {
        return None;
    };
    if is_known(&front.event) {
        Some(front)
    } else {
        None
    }
}

/// Whether an event is one of those that are known here.
fn is_known(event: &Event) -> bool
    ensures { result ≡ is_known_event event.now }
{
    matches!(
        event,
        Event::Start { .. } | Event::Fix { .. } | Event::Ask { .. } | Event::End { .. }
    )
}

/// Whether a word is one of the four that are known here.
#[tactic(auto, unfolding(crate::specs::solo::Lines::knows))]
fn is_known_word(word: &[u8]) -> bool
    ensures { result ≡ knows word.now }
{
    match word {
        b"start" | b"fix" | b"ask" | b"end" => true,
        _ => false,
    }
}
