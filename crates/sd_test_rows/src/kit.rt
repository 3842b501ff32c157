//! One run of a program over texts in memory, and where the outside fails in it.

ghost use Rattle.std.specs.Prelude.{◌≡◌, ◌≤◌, false, IfOk};

use sd_io::outside::{MemShelf, MemSink};
use sd_num::NoMemory;
use sd_top::{Status, run};
use std::alloc::{AllocError, Global};
use std::process::Abort;
use std::test::Fail;

/// A run: its words, the texts under their names, and what it writes and answers where nothing
/// fails.
#[derive(Clone, Copy)]
pub(crate) struct Case<'a> {
    /// Whether it is one of the second program, `sundialctl`.
    pub(crate) ctl: bool,
    pub(crate) words: &'a [&'a str],
    pub(crate) texts: &'a [(&'a str, &'a str)],
    pub(crate) output: &'a str,
    pub(crate) status: Status,
}

/// How a shelf lends texts, and where it and a sink fail.
#[derive(Clone, Copy)]
pub(crate) struct Outside<'a> {
    /// A read gives at most this many bytes.
    pub(crate) piece: usize,
    /// The calls of the shelf that fail, counted from 1.
    pub(crate) calls: &'a [u64],
    /// The writes that fail, counted from 1, and how many bytes each keeps.
    pub(crate) writes: &'a [(u64, usize)],
}

/// What a run has answered, and where it has written.
#[derive(Drop)]
struct Ran {
    status: Status,
    out: MemSink,
}

/// A shelf that holds these texts under their names and lends them in pieces of at most `piece`
/// bytes. Its calls whose numbers are listed fail.
fn shelf_of(
    alloc: Global,
    texts: &[(&str, &str)],
    piece: usize,
    failing: &[u64],
) -> Result<MemShelf, AllocError>
    requires { 1 ≤ piece }
    ensures { IfOk result (λ shelf. shelf.begun ≡ false) }
{
    let mut files = Vec::new(alloc);
    for text in texts {
        files.push((
            String::from_str(alloc, text.0)?,
            Vec::from_slice(alloc, text.1.as_bytes())?,
        ))?;
    }
    Ok(MemShelf::new(files, piece, Vec::from_slice(alloc, failing)?))
}

/// Words as a program takes them.
fn list_of(alloc: Global, words: &[&str]) -> Result<Vec<String>, AllocError> {
    let mut list = Vec::new(alloc);
    for word in words {
        list.push(String::from_str(alloc, word)?)?;
    }
    Ok(list)
}

/// A sink of 10,000 bytes.
fn sink_of(alloc: Global, failing: &[(u64, usize)]) -> Result<MemSink, AllocError> {
    match MemSink::new(alloc, 10_000, Vec::from_slice(alloc, failing)?) {
        Ok(out) => Ok(out),
        Err(NoMemory) => Err(AllocError),
    }
}

/// Runs the words of a case over a shelf and a sink of 10,000 bytes.
///
/// Nothing is promised here of what the run answers: a test compares that, and its proof need not go
/// through all that `run` promises.
fn run_words(
    alloc: Global,
    case: &Case<'_>,
    shelf: &mut MemShelf,
    failing: &[(u64, usize)],
) -> Result<Ran, AllocError>
    requires { shelf.old.begun ≡ false }
{
    let list = list_of(alloc, case.words)?;
    let mut out = sink_of(alloc, failing)?;
    let status = if case.ctl {
        sd_ctl_top::run(alloc, list.as_slice(), shelf, &mut out)
    } else {
        run(alloc, list.as_slice(), shelf, &mut out)
    };
    Ok(Ran { status, out })
}

/// A run writes and answers what is due, and leaves at least this many bytes of the text that it
/// began last.
pub(crate) fn assert_leaves(
    rt: &(impl Abort + AllocGlobal),
    case: &Case<'_>,
    outside: Outside<'_>,
    due: (&str, Status),
    least: usize,
) -> Result<(), Fail>
    requires { 1 ≤ outside.piece }
{
    let Outside {
        piece,
        calls,
        writes,
    } = outside;
    let (output, status) = due;
    let words = case.words;
    let mut shelf = shelf_of(rt.alloc(), case.texts, piece, calls)?;
    let ran = run_words(rt.alloc(), case, &mut shelf, writes)?;
    let wrote = std::str::from_utf8(ran.out.bytes());
    assert_eq!(rt;
        wrote,
        Ok(output),
        "{words:?} in pieces of {piece}, {calls:?}, {writes:?}"
    );
    assert_eq!(rt;
        ran.status,
        status,
        "{words:?} in pieces of {piece}, {calls:?}, {writes:?}"
    );
    assert!(rt; shelf.left().len() >= least);
    Ok(())
}

/// A run writes and answers what is due.
pub(crate) fn assert_ran(
    rt: &(impl Abort + AllocGlobal),
    case: &Case<'_>,
    outside: Outside<'_>,
    due: (&str, Status),
) -> Result<(), Fail>
    requires { 1 ≤ outside.piece }
{
    assert_leaves(rt, case, outside, due, 0)
}
