//! The lines of the numbers of devices.
ghost use Rattle.std.specs.Prelude.{◌≡◌, ◌++◌, [], ◌∷◌, IfOk, OnOk, string_bytes, codes, decimal};
ghost use Rattle.sd_ctl_top.specs.bounding.Printed as words;
ghost use Rattle.sd_num.specs.Texts.{text_of};

use sd_drill_text::lines::Named;
use sd_num::NoMemory;
use std::alloc::{AllocError, Global};

/// The numbers of a device in ps. Where it has no bound of the drill it has no tight number either.
#[derive(Clone, Copy)]
pub(crate) struct Numbers {
    pub drill: Option<u128>,
    pub tight: Option<u128>,
    pub calm: u128,
}

/// The line of a device that has no bound.
fn boundless_line(
    alloc: Global,
    domain: Named<'_>,
    device: &str,
    calm: u128,
) -> Result<String, AllocError>
    ensures { IfOk result (λ line. string_bytes line
        ≡ text_of (codes "nobound" ∷ domain.entry.kind.now ∷ domain.entry.name.now ∷ device.now
        ∷ decimal calm ∷ [])) }
{
    let Named { kind, name } = domain;
    let line = format!(in alloc; "nobound {kind} {name} {device} {calm}\n")?;
    Ok(line)
}

/// The line of a device that has both numbers.
fn bounded_line(
    alloc: Global,
    domain: Named<'_>,
    device: &str,
    drill: u128,
    tight: u128,
    calm: u128,
) -> Result<String, AllocError>
    ensures { IfOk result (λ line. string_bytes line
        ≡ text_of (codes "bounds" ∷ domain.entry.kind.now ∷ domain.entry.name.now ∷ device.now
        ∷ decimal drill ∷ decimal tight ∷ decimal calm ∷ [])) }
{
    let Named { kind, name } = domain;
    let line = format!(in alloc; "bounds {kind} {name} {device} {drill} {tight} {calm}\n")?;
    Ok(line)
}

/// The line of a device.
fn line(
    alloc: Global,
    domain: Named<'_>,
    device: &str,
    numbers: Numbers,
) -> Result<String, AllocError>
    ensures { IfOk result (λ line. string_bytes line
        ≡ words.line_of (domain.entry.kind.now ∷ domain.entry.name.now ∷ []) device.now
        numbers.drill numbers.tight numbers.calm) }
{
    let calm = numbers.calm;
    match (numbers.drill, numbers.tight) {
        (Some(drill), Some(tight)) => bounded_line(alloc, domain, device, drill, tight, calm),
        (Some(_), None) => boundless_line(alloc, domain, device, calm),
        (None, _) => boundless_line(alloc, domain, device, calm),
    }
}

/// Adds bytes to a text.
fn append(text: &mut Vec<u8>, bytes: &[u8]) -> Result<(), NoMemory>
    ensures { OnOk result (text.new.items ≡ text.old.items ++ bytes.now) }
{
    match text.extend_from_slice(bytes) {
        Ok(()) => Ok(()),
        Err(_) => Err(NoMemory),
    }
}

/// Adds the line of a device to a text.
pub(crate) fn add_line(
    alloc: Global,
    text: &mut Vec<u8>,
    domain: Named<'_>,
    device: &str,
    numbers: Numbers,
) -> Result<(), NoMemory>
    ensures { OnOk result (text.new.items ≡ text.old.items
        ++ words.line_of (domain.entry.kind.now ∷ domain.entry.name.now ∷ []) device.now
        numbers.drill numbers.tight numbers.calm) }
{
    match line(alloc, domain, device, numbers) {
        Ok(line) => append(text, line.as_bytes()),
        Err(_) => Err(NoMemory),
    }
}
