//! A text that is replayed, line by line.
ghost use Rattle.std.specs.Prelude.{◌≡◌, [], Err, IsTrue, IfErr, IfSome, OnOk};
ghost use Rattle.sd_io.specs.outside.Shelves.{KeepsShelf};
ghost use Rattle.sd_history.specs.World.{Setting};
ghost use Rattle.sd_files.specs.Texts.{texts_of};
ghost use Rattle.sd_files.specs.Writes.{IsAllowed};
ghost use Rattle.sd_files.specs.planfiles.Refusing.{Nothing};
ghost use Rattle.sd_files.specs.planfiles.SetupError.{made_of};
ghost use Rattle.sd_resume.specs.command.Parts.{AfterPart, part_work};
ghost use Rattle.sd_resume.specs.command.Played.{HasPlayed, HasRead, IsInputRefused};

use crate::command::taking::take_line;
use sd_device::Device;
use sd_device::msg::NoObserver;
use sd_files::CommandError;
use sd_files::planfiles::SetupError;
use sd_io::outside::Shelf;
use sd_io::stream::{Buffer, LineReader};
use sd_replay::Replay;
use std::alloc::Global;

/// A replay of devices, which tells nobody of its reports.
pub(crate) type DeviceReplay = Replay<Device, NoObserver>;

/// A text: what it is called where it is refused, and the name of its file.
#[derive(Clone, Copy)]
pub(crate) struct Text<'w> {
    pub word: &'w str,
    pub name: &'w str,
}

/// Begins a text, and replays it.
pub(crate) fn play<S: Shelf>(
    alloc: Global,
    shelf: &mut S,
    replay: &mut DeviceReplay,
    text: Text<'_>,
) -> Result<(), SetupError>
    requires name { IsTrue (S.serves shelf.old text.name.now) }
    ensures read { OnOk result ((setting : Setting) → HasPlayed replay.old setting []
        → IfSome (S.held shelf.old) (λ held.
        HasRead text.entry.word.now setting (texts_of held text.entry.name.now) replay.new)) }
    ensures makes { IfErr result (λ early. (setting : Setting) → HasPlayed replay.old setting []
        → IfSome (S.held shelf.old) (λ held. IsAllowed
        (AfterPart (part_work text.entry.word.now setting)
        (texts_of held text.entry.name.now) Nothing) (made_of early))) }
    ensures gives { IfErr result IsInputRefused }
    ensures shelf { KeepsShelf S.Shelf (result ≡ Err (SetupError.Stopped CommandError.Shelf))
        shelf.old shelf.new }
{
    match shelf.begin(text.name) {
        Ok(()) => play_begun(alloc, shelf, replay, text.word),
        Err(_) => Err(SetupError::Stopped(CommandError::Shelf)),
    }
}

/// Goes through the begun text of a shelf.
fn play_begun<S: Shelf>(
    alloc: Global,
    shelf: &mut S,
    replay: &mut DeviceReplay,
    word: &str,
) -> Result<(), SetupError>
    requires begun { IsTrue (S.begun shelf.old) }
    ensures read { OnOk result ((setting : Setting) → HasPlayed replay.old setting []
        → IfSome (S.rest shelf.old) (λ text. HasRead word.now setting text replay.new)) }
    ensures makes { IfErr result (λ early. (setting : Setting) → HasPlayed replay.old setting []
        → IfSome (S.rest shelf.old)
        (λ text. IsAllowed (AfterPart (part_work word.now setting) text Nothing)
        (made_of early))) }
    ensures gives { IfErr result IsInputRefused }
    ensures shelf { KeepsShelf S.Shelf (result ≡ Err (SetupError.Stopped CommandError.Shelf))
        shelf.old shelf.new }
{
    let buffer = Buffer::new(alloc)?;
    let mut reader = LineReader::over(shelf, buffer);
    'lines: loop {
        match take_line(alloc, &mut reader, replay, word) {
            Ok(true) => {}
            Ok(false) => return Ok(()),
            Err(early) => return Err(early),
        }
    }
}
