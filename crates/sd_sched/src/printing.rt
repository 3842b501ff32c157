//! An event's line.
ghost use Rattle.std.specs.Prelude.{◌≡◌, ◌∷◌, ◌++◌, [], IfOk, IsNone, IsSome, IsTrue};
ghost use Rattle.std.specs.String.{string_bytes};
ghost use Rattle.sd_sched.specs.Events.{counter_of};
ghost use Rattle.sd_sched.specs.Clocks.{clock_of};
ghost use Rattle.sd_sched.specs.Lines.{event_of_line};
ghost use Rattle.sd_sched.specs.Spelled.{line_of_event, spelled_fields, is_within};
ghost use Rattle.sd_sched.specs.Printing.{terminated};

use crate::Event;
use sd_num::NoMemory;
use std::alloc::{AllocError, Global};

/// The line of an event, with its newline.
#[tactic(auto, unfolding(crate::specs::Spelled::line_of_event))]
pub fn line_text(alloc: Global, event: &Event) -> Result<Vec<u8>, NoMemory>
    ensures text { IfOk result (λ v. v.items ≡ line_of_event event.now ++ 10 ∷ []) }
    // A printed line reads back.
    ensures reads_back { IsTrue (is_within event.now)
        → event_of_line (line_of_event event.now) ≡ Ok event.now }
{
    match text_of(alloc, event) {
        Ok(text) => Ok(text.into_bytes()),
        Err(_) => Err(NoMemory),
    }
}

/// The line as text.
fn text_of(alloc: Global, event: &Event) -> Result<String, AllocError>
    ensures { IfOk result (λ s. string_bytes s ≡ terminated (spelled_fields event.now)) }
{
    match *event {
        Event::Start { .. } | Event::Fix { .. } | Event::Join { .. } => estimate_text(alloc, event),
        Event::Tick { .. } | Event::Recv { .. } | Event::Ask { .. } | Event::Commit { .. } => {
            reading_text(alloc, event)
        }
        Event::Lose { reference, message } => format!(in alloc; "lose {reference} {message}\n"),
        Event::FailDevice { reference, device } => {
            format!(in alloc; "fail {reference} device {device}\n")
        }
        Event::FailLink { reference, link } => format!(in alloc; "fail {reference} link {link}\n"),
        Event::Stage { reference } => format!(in alloc; "stage {reference}\n"),
        Event::Give { reference, device } => format!(in alloc; "give {reference} {device}\n"),
        Event::Seal { reference, device } => format!(in alloc; "seal {reference} {device}\n"),
        Event::MendDevice { reference, device } => {
            format!(in alloc; "mend {reference} device {device}\n")
        }
        Event::MendLink { reference, link } => format!(in alloc; "mend {reference} link {link}\n"),
        Event::End { reference } => format!(in alloc; "end {reference}\n"),
    }
}

/// The line, as text, of an event at which a device reads its counter and sets no estimate.
fn reading_text(alloc: Global, event: &Event) -> Result<String, AllocError>
    requires reads { IsSome (counter_of event.now) }
    requires sets_none { IsNone (clock_of event.now) }
    ensures { IfOk result (λ s. string_bytes s ≡ terminated (spelled_fields event.now)) }
{
    match *event {
        Event::Tick {
            reference,
            device,
            counter,
        } => { format!(in alloc; "tick {reference} {device} {counter}\n") }
        Event::Recv {
            reference,
            device,
            counter,
            message,
        } => { format!(in alloc; "recv {reference} {device} {counter} {message}\n") }
        Event::Ask {
            reference,
            device,
            counter,
        } => { format!(in alloc; "ask {reference} {device} {counter}\n") }
        Event::Commit {
            reference,
            device,
            counter,
        } => { format!(in alloc; "commit {reference} {device} {counter}\n") }
        _ => unreachable!(),
    }
}

/// The line, as text, of an event that sets the estimate of a device.
fn estimate_text(alloc: Global, event: &Event) -> Result<String, AllocError>
    requires { IsSome (clock_of event.now) }
    ensures { IfOk result (λ s. string_bytes s ≡ terminated (spelled_fields event.now)) }
{
    match *event {
        Event::Start {
            reference,
            device,
            counter,
            clock,
            eps,
        } => { format!(in alloc; "start {reference} {device} {counter} {clock} {eps}\n") }
        Event::Fix {
            reference,
            device,
            counter,
            clock,
            eps,
        } => { format!(in alloc; "fix {reference} {device} {counter} {clock} {eps}\n") }
        Event::Join {
            reference,
            device,
            counter,
            clock,
            eps,
        } => { format!(in alloc; "join {reference} {device} {counter} {clock} {eps}\n") }
        _ => unreachable!(),
    }
}
