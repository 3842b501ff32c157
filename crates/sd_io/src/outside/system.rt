//! The calls of the system that the adapters make, as traits. Each tells by a relation of its own
//! why a call failed, so that a contract can hold the adapters to the reason that the system gave.
ghost use Rattle.std.specs.Prelude.{ℕ, List, Option, Result, IfOk, IfErr};
ghost use Rattle.std.specs.Io.{ReadsAtMost, WritesAtMost};
ghost use Rattle.std.specs.Io.KnownBytes.{ReadConsumes, WriteAppends};
ghost use Rattle.std.specs.declared.io.Error.{Error};

use std::io::{Read, Write};
use std::rt::Files;
use std::{fs, io};

/// What opens the files of the system.
pub trait SystemFiles {
    type File: SystemFile + Drop;

    /// A call that opens the file of this name fails for this reason, and leaves this behind.
    ghost refuses: { Self → List ℕ → Error → Self → Type 0 };

    /// A call that opens the file of this name gives this file, and leaves this behind.
    ghost opens: { Self → List ℕ → Self.File → Self → Type 0 };

    /// Opens a file for reading, by one call.
    fn open_once(&mut self, name: &str) -> io::Result<Self::File>
        ensures opened { IfOk result (λ file. opens self.old name.now file self.new) }
        ensures reason { IfErr result (λ reason. refuses self.old name.now reason self.new) };
}

/// An open file of the system.
pub trait SystemFile {
    /// What is left to read, where it is told.
    ghost left: { Self → Option (List ℕ) };

    /// A call that reads fails for this reason, and leaves this behind.
    ghost fails: { Self → Error → Self → Type 0 };

    /// Reads by one call.
    fn read_once(&mut self, buf: &mut [u8]) -> io::Result<usize>
        ensures bound { ReadsAtMost result buf.new }
        ensures bytes { ReadConsumes (left self.old) (left self.new) result buf.new }
        ensures reason { IfErr result (λ reason. fails self.old reason self.new) };
}

/// What takes bytes for the system.
pub trait SystemWriter {
    /// The bytes that it has taken, where they are told.
    ghost taken: { Self → Option (List ℕ) };

    /// A call that writes these bytes gives this answer, and leaves this behind.
    ghost answers: { Self → List ℕ → Result ℕ Error → Self → Type 0 };

    /// Writes by one call, and says how many of the bytes it took.
    fn write_once(&mut self, bytes: &[u8]) -> io::Result<usize>
        ensures bound { WritesAtMost result bytes.now }
        ensures bytes { WriteAppends (taken self.old) (taken self.new) result bytes.now }
        ensures answer { answers self.old bytes.now result self.new };
}

impl<R: Files> SystemFiles for &R {
    type File = R::File;

    ghost refuses = { λ old name reason new. Unit {0} };

    ghost opens = { λ old name file new. Unit {0} };

    fn open_once(&mut self, name: &str) -> io::Result<R::File> {
        fs::open(*self, name)
    }
}

impl<S: Read> SystemFile for S {
    ghost left = { λ s. S.remaining s };

    ghost fails = { λ old reason new. Unit {0} };

    fn read_once(&mut self, buf: &mut [u8]) -> io::Result<usize> {
        self.read(buf)
    }
}

impl<W: Write> SystemWriter for W {
    ghost taken = { λ s. W.contents s };

    ghost answers = { λ old bytes answer new. Unit {0} };

    fn write_once(&mut self, bytes: &[u8]) -> io::Result<usize> {
        self.write(bytes)
    }
}
