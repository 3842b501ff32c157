//! The words that a program was called with.
ghost use Rattle.sd_files.specs.edge.Words.{AreWords};

use sd_num::NoMemory;
use std::alloc::Global;
use std::env::Args;
use std::io;
use std::io::ErrorKind;

/// All words but the first, which is the program's own name. Words that are not UTF-8 match no
/// command, so they count as none at all.
pub fn words_of(alloc: Global, args: io::Result<Args>) -> Result<Vec<String>, NoMemory>
    ensures { AreWords args result }
{
    let mut words = Vec::new(alloc);
    let mut args = match args {
        Ok(args) => args,
        Err(error) if error.kind() == ErrorKind::OutOfMemory => return Err(NoMemory),
        Err(_) => return Ok(words),
    };
    let _name = args.next();
    for word in args {
        if words.push(word).is_err() {
            return Err(NoMemory);
        }
    }
    Ok(words)
}
