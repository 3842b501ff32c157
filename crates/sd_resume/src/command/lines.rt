//! The lines of a comparison.
ghost use Rattle.std.specs.Prelude.{◌≡◌, ◌∷◌, [], None, Some, IfOk, codes, decimal, string_bytes};
ghost use Rattle.sd_num.specs.Texts.{text_of};
ghost use Rattle.sd_resume.specs.command.Printed as words;

use crate::{Difference, Dishonesty, Register};
use sd_plan::topo::Thing;
use std::alloc::{AllocError, Global};

/// The opening stands for the schedule and is honest, and this many events they have.
pub(crate) fn agree_line(alloc: Global, one: u64, other: u64) -> Result<String, AllocError>
    ensures { IfOk result (λ line. string_bytes line ≡ words.agree_line one other) }
{
    let line = format!(in alloc; "agree {one} {other}\n")?;
    Ok(line)
}

/// The word of a register.
fn register_word(register: Register) -> &'static str
    ensures { result.now ≡ words.register_word register }
{
    match register {
        Register::Duty => "duty",
        Register::Given => "given",
        Register::Mode => "mode",
        Register::Sealed => "sealed",
        Register::Rates => "rates",
        Register::Stamp => "stamp",
        Register::Last => "last",
        Register::Sent => "sent",
        Register::Estimate => "estimate",
    }
}

/// The word of a device or a link.
fn thing_word(thing: Thing) -> &'static str
    ensures { result.now ≡ words.thing_word thing }
{
    match thing {
        Thing::Device(_) => "device",
        Thing::Link(_) => "link",
    }
}

/// The word of a difference.
fn word_of(difference: Difference) -> &'static str
    ensures { result.now ≡ words.word_of difference }
{
    match difference {
        Difference::Network => "network",
        Difference::Window => "window",
        Difference::Time => "time",
        Difference::Plan => "plan",
        Difference::End => "end",
        Difference::Messages => "messages",
        Difference::Sent => "opening-sends",
        Difference::OnItsWay { .. } => "message",
        Difference::Up { .. } => "up",
        Difference::Failed { thing } => thing_word(thing),
        Difference::Reading { .. } => "counter",
        Difference::Register { register, .. } => register_word(register),
    }
}

/// The number of a device or a link.
fn thing_number(thing: Thing) -> u64
    ensures { result ≡ words.thing_number thing }
{
    match thing {
        Thing::Device(d) => u64::from(d),
        Thing::Link(l) => u64::from(l),
    }
}

/// The number after the word of a difference, if there is one.
fn number_of(difference: Difference) -> Option<u64>
    ensures { result ≡ words.number_of difference }
{
    match difference {
        Difference::OnItsWay { number } => Some(number),
        Difference::Up { device }
        | Difference::Reading { device }
        | Difference::Register { device, .. } => Some(u64::from(device)),
        Difference::Failed { thing } => Some(thing_number(thing)),
        Difference::Network
        | Difference::Window
        | Difference::Time
        | Difference::Plan
        | Difference::End
        | Difference::Messages
        | Difference::Sent => None,
    }
}

/// A word.
fn word_line(alloc: Global, word: &str) -> Result<String, AllocError>
    ensures { IfOk result (λ line. string_bytes line ≡ words.line_with word.now None) }
{
    let line = format!(in alloc; "differ {word}\n")?;
    Ok(line)
}

/// A word with a number.
fn number_line(alloc: Global, word: &str, number: u64) -> Result<String, AllocError>
    ensures { IfOk result (λ line. string_bytes line ≡ words.line_with word.now (Some number)) }
{
    let line = format!(in alloc; "differ {word} {number}\n")?;
    Ok(line)
}

/// In what they differ.
pub(crate) fn differ_line(alloc: Global, difference: Difference) -> Result<String, AllocError>
    ensures { IfOk result (λ line. string_bytes line ≡ words.differ_line difference) }
{
    let word = word_of(difference);
    match number_of(difference) {
        Some(number) => number_line(alloc, word, number),
        None => word_line(alloc, word),
    }
}

/// The word of what failed since the latest closing.
fn failed_word(thing: Thing) -> &'static str
    ensures { result.now ≡ words.failed_word thing }
{
    match thing {
        Thing::Device(_) => "failed-device",
        Thing::Link(_) => "failed-link",
    }
}

/// The word of a dishonesty.
fn dishonesty_word(dishonesty: Dishonesty) -> &'static str
    ensures { result.now ≡ words.dishonesty_word dishonesty }
{
    match dishonesty {
        Dishonesty::Broken => "broken",
        Dishonesty::Drift { .. } => "drift",
        Dishonesty::Tick { .. } => "tick",
        Dishonesty::Awaited { .. } => "awaited",
        Dishonesty::Untouched { .. } => "untouched",
        Dishonesty::FailedSince { thing } => failed_word(thing),
    }
}

/// The number after the word of a dishonesty, if there is one.
fn dishonesty_number(dishonesty: Dishonesty) -> Option<u64>
    ensures { result ≡ words.dishonesty_number dishonesty }
{
    match dishonesty {
        Dishonesty::Broken => None,
        Dishonesty::Drift { device }
        | Dishonesty::Tick { device }
        | Dishonesty::Awaited { device }
        | Dishonesty::Untouched { device } => Some(u64::from(device)),
        Dishonesty::FailedSince { thing } => Some(thing_number(thing)),
    }
}

/// In what the opening is not honest.
pub(crate) fn dishonest_line(alloc: Global, dishonesty: Dishonesty) -> Result<String, AllocError>
    ensures { IfOk result (λ line. string_bytes line ≡ words.dishonest_line dishonesty) }
{
    let word = dishonesty_word(dishonesty);
    match dishonesty_number(dishonesty) {
        Some(number) => number_line(alloc, word, number),
        None => word_line(alloc, word),
    }
}
