//! Texts in memory as a shelf, which gives them in pieces and fails where it is told to.
ghost use Rattle.std.specs.Prelude.{◌≡◌, ◌≤◌, ◌||◌, [], min, Some, true, false, length, IsTrue, IfOk, OnOk, OnErr, is_err, is_none};
ghost use Rattle.std.specs.Io.{ReadsAtMost};
ghost use Rattle.std.specs.Io.KnownBytes.{ReadConsumes, IsAtEnd};
ghost use Rattle.sd_io.specs.outside.Causes.{HasCause, raised};
ghost use Rattle.sd_io.specs.outside.Counts.{faults_after};
ghost use Rattle.sd_io.specs.outside.Texts.{files_seen, text_in};
ghost use Rattle.sd_io.specs.outside.Rests.{RestIs};
ghost use Rattle.sd_io.specs.outside.MemShelf.{is_listed};

use crate::outside::shelf::{Failed, Shelf};
use crate::outside::texts::Texts;
use std::marker::Model;

/// Texts in memory, read in pieces. The calls whose numbers are listed fail, and
/// so does `begin` with a name that is not held.
#[derive(Drop)]
pub struct MemShelf {
    texts: Texts,
    begun: bool,
    piece: usize,
    failing: Vec<u64>,
    calls: u64,
    faults: u64,
}

impl Model for MemShelf {
    ghost use Rattle.sd_io.specs.outside.MemShelf.{Seen};

    ghost Value = { Seen };

    ghost use Rattle.sd_io.specs.outside.MemShelfView.{seen_of, IsMemShelf};

    ghost view = { seen_of };

    ghost invariant = { IsMemShelf };
}

impl MemShelf {
    /// Of two files with one name the first counts. A read gives at most `piece` bytes. Calls of
    /// `begin` and `read` are numbered together, from 1; those with a number in `failing` fail.
    pub fn new(files: Vec<(String, Vec<u8>)>, piece: usize, failing: Vec<u64>) -> MemShelf
        requires { 1 ≤ piece }
        ensures files { result.files ≡ files_seen files.items }
        ensures piece { result.piece ≡ piece }
        ensures failing { result.failing ≡ failing.items }
        ensures calls { result.calls ≡ 0 }
        ensures begun { result.begun ≡ false }
        ensures rest { result.rest ≡ [] }
        ensures faults { result.faults ≡ 0 }
    {
        MemShelf {
            texts: Texts::new(files),
            begun: false,
            piece,
            failing,
            calls: 0,
            faults: 0,
        }
    }

    /// What is left of the begun text.
    pub fn left(&self) -> &[u8]
        ensures { result.now ≡ self.now.rest }
    {
        self.texts.left()
    }

    /// Counts a call, and says whether it is to fail.
    fn fails(&mut self) -> bool
        ensures listed { result ≡ is_listed self.old }
        ensures counted { self.new ≡ record self.old { calls = raised self.old.calls } }
    {
        self.calls = self.calls.saturating_add(1);
        self.failing.contains(&self.calls)
    }
}

impl Shelf for MemShelf {
    ghost serves = { λ s name. true };

    ghost begun = { λ s. s.begun };

    ghost held = { λ s. Some (text_in s.files) };

    ghost rest = { λ s. Some s.rest };

    ghost faults = { λ s. s.faults };

    fn begin(&mut self, name: &str) -> Result<(), Failed>
        // It fails exactly where it is listed or the name is not held.
        ensures exactly { is_err result
            ≡ (is_listed self.old || is_none (text_in self.old.files name.now)) }
        ensures text { OnOk result
            (RestIs (Some (text_in self.old.files)) name.now (Some self.new.rest)) }
        ensures begun { OnOk result (IsTrue self.new.begun) }
        ensures failed { OnErr result ((self.new.begun ≡ false) × IsAtEnd (Some self.new.rest)) }
        ensures cause { HasCause self.old.faults self.new.faults result }

        ensures calls { self.new.calls ≡ raised self.old.calls }
        ensures faults { self.new.faults ≡ faults_after self.old.faults result }
        ensures same_held { self.new.files ≡ self.old.files }
        ensures same_failing { self.new.failing ≡ self.old.failing }
        ensures same_piece { self.new.piece ≡ self.old.piece }
    {
        let fails = self.fails();
        let held = self.texts.begin(name);
        if held && !fails {
            self.begun = true;
            return Ok(());
        }
        self.texts.leave();
        self.begun = false;
        self.faults = self.faults.saturating_add(1);
        Err(Failed)
    }

    fn read(&mut self, buf: &mut [u8]) -> Result<usize, Failed>
        requires { IsTrue self.old.begun }
        // It fails exactly where it is listed, and else gives all that may be given.
        ensures exactly { is_err result ≡ is_listed self.old }
        ensures count { IfOk result
            (λ n. n ≡ min self.old.piece (min (length buf.old) (length self.old.rest))) }
        ensures bound { ReadsAtMost result buf.new }
        ensures bytes { ReadConsumes (Some self.old.rest) (Some self.new.rest) result buf.new }
        ensures begun { IsTrue self.new.begun }
        ensures cause { HasCause self.old.faults self.new.faults result }

        ensures calls { self.new.calls ≡ raised self.old.calls }
        ensures faults { self.new.faults ≡ faults_after self.old.faults result }
        ensures same_held { self.new.files ≡ self.old.files }
        ensures same_failing { self.new.failing ≡ self.old.failing }
        ensures same_piece { self.new.piece ≡ self.old.piece }
    {
        if self.fails() {
            self.faults = self.faults.saturating_add(1);
            return Err(Failed);
        }
        Ok(self.texts.read(self.piece, buf))
    }
}

#[cfg(test)]
mod tests {
    use super::*;
    use std::alloc::Global;
    use std::process::Abort;
    use std::test::Fail;

    /// Two texts of one name, in pieces of two bytes, and the third call fails. It promises nothing:
    /// what the shelf does is compared.
    fn shelf_of_two(alloc: Global) -> Result<MemShelf, Fail> {
        let mut files = Vec::new(alloc);
        for text in [b"hello".as_slice(), b"no".as_slice()] {
            let name = String::from_str(alloc, "a")?;
            files.push((name, Vec::from_slice(alloc, text)?))?;
        }
        Ok(MemShelf::new(files, 2, Vec::from_slice(alloc, &[3])?))
    }

    fn begin(shelf: &mut MemShelf, name: &str) -> Result<(), Failed>
        ensures { OnOk result (IsTrue shelf.new.begun) }
    {
        shelf.begin(name)
    }

    /// A read of at most this many bytes gives these.
    fn assert_read(
        rt: &impl Abort,
        shelf: &mut MemShelf,
        most: usize,
        wanted: Result<&[u8], Failed>,
    )
        requires begun { IsTrue shelf.old.begun }
        requires most { most ≤ 8 }
        ensures { IsTrue shelf.new.begun }
    {
        let mut buf = [0; 8];
        match shelf.read(&mut buf[..most]) {
            Ok(count) => assert_eq!(rt; Ok(&buf[..count]), wanted),
            Err(Failed) => assert_eq!(rt; wanted, Err(Failed)),
        }
    }

    /// The pieces of a text that is begun. The third call fails.
    fn assert_pieces(rt: &impl Abort, shelf: &mut MemShelf)
        requires { IsTrue shelf.old.begun }
    {
        assert_read(rt, shelf, 8, Ok(b"he".as_slice()));
        assert_read(rt, shelf, 8, Err(Failed));
        assert_eq!(rt; shelf.left(), b"llo".as_slice());
        assert_read(rt, shelf, 1, Ok(b"l".as_slice()));
        assert_read(rt, shelf, 8, Ok(b"lo".as_slice()));
        assert_read(rt, shelf, 8, Ok(b"".as_slice()));
    }

    #[test]
    fn gives_pieces_and_fails_where_listed(rt: HostRuntime) -> Result<(), Fail> {
        let mut shelf = shelf_of_two(rt.alloc())?;
        begin(&mut shelf, "a")?;
        assert_pieces(&rt, &mut shelf);
        assert_eq!(rt; begin(&mut shelf, "b"), Err(Failed));
        assert_eq!(rt; shelf.faults, 2);
        Ok(())
    }
}
