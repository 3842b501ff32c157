//! The second program, `sundialctl`: `run` over the files of the system and standard output. Its
//! status is the exit code, and a run that was stopped from outside says why by one line on standard
//! error.
#![tactic(auto)]

ghost use Rattle.std.specs.Prelude.{◌≡◌, ◌≤◌, drop, length, map, slice_get, string_bytes};
ghost use Rattle.sundialctl.specs.Naming as meaning;
ghost use Rattle.sundialctl.specs.Naming.{EndsCtlRun};

use sd_ctl_top::run;
use sd_files::edge::{ErrorLines, ErrorOutput, end_without_words, exit_of, say_why, words_of};
use sd_io::outside::{FileShelf, LastFault, StdSink, SystemFiles, SystemWriter};
use sd_num::NoMemory;
use std::alloc::Global;
use std::process::ExitCode;
use std::{env, io};

/// Whether this word stands in a place.
fn is_word(words: &[String], place: usize, text: &str) -> bool
    ensures { result
        ≡ meaning.is_word (slice_get (map string_bytes words.now) place) text.now }
{
    match words.get(place) {
        Some(word) => word.as_str() == text,
        None => false,
    }
}

/// The words after the first ones.
fn words_behind(words: &[String], place: usize) -> &[String]
    requires { place ≤ length words.now }
    ensures { result.now ≡ drop place words.now }
{
    &words[place..]
}

/// The words by which a file is named, where its number points to its name: an opening is opened
/// where the slash stands, and is the last word.
fn words_for(words: &[String], file: u64) -> &[String]
    ensures { map string_bytes result.now
        ≡ meaning.words_for (map string_bytes words.now) file }
{
    let place = file as usize;
    if is_word(words, 0, "resume") && place > 1 && is_word(words, place, "/") {
        words_behind(words, words.len() - 1 - place)
    } else {
        words
    }
}

/// The words by which a file of a command is named: the feed of a merge is after the number of the
/// logs.
fn words_by_command(words: &[String], file: u64) -> &[String]
    ensures { map string_bytes result.now
        ≡ meaning.words_by_command (map string_bytes words.now) file }
{
    let [command, others @ ..] = words else {
        return words;
    };
    if command.as_str() == "merge" {
        others
    } else {
        words_for(words, file)
    }
}

/// The words by which the file is named that could not be read, if there is one.
fn naming(words: &[String], fault: Option<LastFault>) -> &[String]
    ensures { map string_bytes result.now ≡ meaning.naming (map string_bytes words.now) fault }
{
    match fault {
        Some(LastFault { file, .. }) => words_by_command(words, file),
        None => words,
    }
}

/// A whole run over these words, with the files and the outputs of a system.
fn run_to_end<F: SystemFiles + Drop, W: SystemWriter + Drop, E: ErrorOutput>(
    alloc: Global,
    words: &[String],
    files: F,
    writer: W,
    errors: &mut E,
) -> ExitCode
    ensures { EndsCtlRun E.writes (map string_bytes words.now) errors.old errors.new result }
{
    let mut shelf = FileShelf::new(files);
    let mut out = StdSink::new(writer);
    let status = run(alloc, words, &mut shelf, &mut out);
    say_why(
        status,
        naming(words, shelf.last_fault()),
        &shelf,
        &out,
        errors,
    );
    exit_of(status)
}

fn main(rt: HostRuntime) -> ExitCode {
    let mut errors = ErrorLines {
        program: "sundialctl",
        system: &rt,
    };
    match words_of(rt.alloc(), env::args(&rt)) {
        Ok(words) => {
            let words = words.as_slice();
            run_to_end(rt.alloc(), words, &rt, io::writer(&rt), &mut errors)
        }
        Err(NoMemory) => end_without_words(&mut errors),
    }
}
