//! The names of devices, links and racks.
ghost use Rattle.std.specs.Prelude.{◌≡◌, ◌++◌, IfOk, OnOk, string_bytes, codes, decimal};
ghost use Rattle.sd_gen.specs.fabric.Fabrics.{link_name as link_named};
ghost use Rattle.sd_gen.specs.fabric.Numbered.{numbered_device_name as device_named};

use sd_num::NoMemory;
use std::alloc::Global;

/// As many bytes as any name has.
const LONGEST: usize = 24;

/// A name that begins with a word, with room for what follows it.
fn begin(alloc: Global, word: &str) -> Result<String, NoMemory>
    ensures { IfOk result (λ name. string_bytes name ≡ word.now) }
{
    let Ok(mut name) = String::with_capacity(alloc, LONGEST) else {
        return Err(NoMemory);
    };
    push_text(&mut name, word)?;
    Ok(name)
}

/// Adds a text at the end of another.
pub(crate) fn push_text(text: &mut String, more: &str) -> Result<(), NoMemory>
    ensures { OnOk result (string_bytes text.new ≡ string_bytes text.old ++ more.now) }
{
    match text.push_str(more) {
        Ok(()) => Ok(()),
        Err(_) => Err(NoMemory),
    }
}

/// Adds a number at the end of a name.
fn push_number(name: &mut String, number: u32) -> Result<(), NoMemory>
    ensures { OnOk result (string_bytes name.new ≡ string_bytes name.old ++ decimal number) }
{
    let mut digits = itoa::Buffer::new();
    push_text(name, digits.format(number))
}

/// A word with a number after it.
fn numbered(alloc: Global, word: &str, number: u32) -> Result<String, NoMemory>
    ensures { IfOk result (λ name. string_bytes name ≡ word.now ++ decimal number) }
{
    let mut name = begin(alloc, word)?;
    push_number(&mut name, number)?;
    Ok(name)
}

/// The name of a device: the spines come first, then the leaves.
pub(crate) fn device_name(alloc: Global, spines: u32, device: u32) -> Result<String, NoMemory>
    ensures { IfOk result (λ name. string_bytes name ≡ device_named spines device) }
{
    if device < spines {
        return numbered(alloc, "s", device);
    }
    numbered(alloc, "l", device - spines)
}

/// The name of the link between a leaf and a spine.
pub(crate) fn link_name(alloc: Global, leaf: u32, spine: u32) -> Result<String, NoMemory>
    ensures { IfOk result (λ name. string_bytes name ≡ link_named leaf spine) }
{
    let mut name = numbered(alloc, "k", leaf)?;
    push_text(&mut name, "-")?;
    push_number(&mut name, spine)?;
    Ok(name)
}

/// The name of a leaf's rack.
pub(crate) fn rack_name(alloc: Global, leaf: u32) -> Result<String, NoMemory>
    ensures { IfOk result (λ name. string_bytes name ≡ codes "rack" ++ decimal leaf) }
{
    numbered(alloc, "rack", leaf)
}
