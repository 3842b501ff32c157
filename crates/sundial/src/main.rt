//! The program: `run` over the files of the system and standard output. Its status is the
//! exit code, and a run that was stopped from outside says why by one line on standard error.
#![tactic(auto)]

ghost use Rattle.std.specs.Prelude.{map, string_bytes};
ghost use Rattle.sd_files.specs.edge.Endings.{EndsRun};

use sd_files::edge::{ErrorLines, ErrorOutput, end_without_words, exit_of, say_why, words_of};
use sd_io::outside::{FileShelf, StdSink, SystemFiles, SystemWriter};
use sd_num::NoMemory;
use sd_top::run;
use std::alloc::Global;
use std::process::ExitCode;
use std::{env, io};

/// A whole run over these words, with the files and the outputs of a system.
fn run_to_end<F: SystemFiles + Drop, W: SystemWriter + Drop, E: ErrorOutput>(
    alloc: Global,
    words: &[String],
    files: F,
    writer: W,
    errors: &mut E,
) -> ExitCode
    ensures { EndsRun E.writes (map string_bytes words.now) errors.old errors.new result }
{
    let mut shelf = FileShelf::new(files);
    let mut out = StdSink::new(writer);
    let status = run(alloc, words, &mut shelf, &mut out);
    say_why(status, words, &shelf, &out, errors);
    exit_of(status)
}

fn main(rt: HostRuntime) -> ExitCode {
    let mut errors = ErrorLines {
        program: "sundial",
        system: &rt,
    };
    match words_of(rt.alloc(), env::args(&rt)) {
        Ok(words) => {
            let words = words.as_slice();
            run_to_end(rt.alloc(), words, &rt, io::writer(&rt), &mut errors)
        }
        Err(NoMemory) => end_without_words(&mut errors),
    }
}
