//! A shelf and a sink over memory that never fail.
ghost use Rattle.std.specs.Prelude.{◌≡◌, [], min, None, Some, true, false, length, IsTrue, IsOk, IfOk, OnOk, OnErr};
ghost use Rattle.std.specs.Io.{ReadsAtMost};
ghost use Rattle.std.specs.Io.KnownBytes.{ReadConsumes, IsAtEnd};
ghost use Rattle.sd_io.specs.outside.Causes.{HasCause};
ghost use Rattle.sd_io.specs.outside.Pieces.{AddsFront, AddsPieces, piece_of};
ghost use Rattle.sd_io.specs.outside.Texts.{files_seen, text_in};
ghost use Rattle.sd_io.specs.outside.Rests.{RestIs};

use crate::outside::shelf::{Failed, Shelf};
use crate::outside::sink::Sink;
use crate::outside::texts::Texts;
use std::marker::Model;

/// Texts in memory over which no call fails: a caller proves that it meets no fault of a shelf.
#[derive(Drop)]
pub struct NoFaultShelf {
    texts: Texts,
    begun: bool,
}

impl Model for NoFaultShelf {
    ghost use Rattle.sd_io.specs.outside.NoFaultShelf.{Reading};

    ghost Value = { Reading };

    ghost view = { λ s. record { files = s.texts.files; begun = s.begun; rest = s.texts.rest } };
}

impl NoFaultShelf {
    /// Of two files with one name the first counts. A name that is not held is an empty text.
    pub fn new(files: Vec<(String, Vec<u8>)>) -> NoFaultShelf
        ensures files { result.files ≡ files_seen files.items }
        ensures begun { result.begun ≡ false }
        ensures rest { result.rest ≡ [] }
        ensures faults { ⟦<NoFaultShelf as Shelf>⟧.faults result ≡ 0 }
    {
        NoFaultShelf {
            texts: Texts::new(files),
            begun: false,
        }
    }
}

impl Shelf for NoFaultShelf {
    ghost serves = { λ s name. true };

    ghost begun = { λ s. s.begun };

    ghost held = { λ s. Some (text_in s.files) };

    ghost rest = { λ s. Some s.rest };

    ghost faults = { λ s. 0 };

    fn begin(&mut self, name: &str) -> Result<(), Failed>
        ensures never { IsOk result }
        ensures text { OnOk result
            (RestIs (Some (text_in self.old.files)) name.now (Some self.new.rest)) }
        ensures begun { OnOk result (IsTrue self.new.begun) }
        ensures failed { OnErr result ((self.new.begun ≡ false) × IsAtEnd (Some self.new.rest)) }
        ensures cause { HasCause 0 0 result }
        ensures same_held { self.new.files ≡ self.old.files }
    {
        let _held = self.texts.begin(name);
        self.begun = true;
        Ok(())
    }

    fn read(&mut self, buf: &mut [u8]) -> Result<usize, Failed>
        requires { IsTrue self.old.begun }
        ensures never { IsOk result }
        ensures count { IfOk result (λ n. n ≡ min (length buf.old) (length self.old.rest)) }
        ensures bound { ReadsAtMost result buf.new }
        ensures bytes { ReadConsumes (Some self.old.rest) (Some self.new.rest) result buf.new }
        ensures begun { IsTrue self.new.begun }
        ensures cause { HasCause 0 0 result }
        ensures same_held { self.new.files ≡ self.old.files }
    {
        Ok(self.texts.read(buf.len(), buf))
    }
}

/// Takes all bytes and keeps none, with no memory: a caller proves that it meets no fault of a sink.
#[derive(Drop)]
#[non_exhaustive]
pub struct NoFaultSink;

impl NoFaultSink {
    pub fn new() -> NoFaultSink
        ensures { ⟦<NoFaultSink as Sink>⟧.faults result ≡ 0 }
    {
        NoFaultSink
    }
}

impl Sink for NoFaultSink {
    ghost written = { λ s. None };

    ghost faults = { λ s. 0 };

    fn write(&mut self, _bytes: &[u8]) -> Result<(), Failed>
        ensures never { IsOk result }
        ensures all { OnOk result (AddsPieces None None (piece_of _bytes.now)) }
        ensures front { OnErr result (AddsFront None None (piece_of _bytes.now)) }
        ensures cause { HasCause 0 0 result }
    {
        Ok(())
    }
}

#[cfg(test)]
mod tests {
    use super::*;
    use std::test::Fail;

    #[test]
    fn never_fails(rt: HostRuntime) -> Result<(), Fail> {
        let name = String::from_str(rt.alloc(), "a")?;
        let mut files = Vec::new(rt.alloc());
        files.push((name, Vec::from_slice(rt.alloc(), b"text")?))?;
        let mut shelf = NoFaultShelf::new(files);
        let mut buf = [0; 3];

        shelf.begin("a")?;
        assert_eq!(rt; shelf.read(&mut buf)?, 3);
        assert_eq!(rt; buf, *b"tex");
        shelf.begin("b")?;
        assert_eq!(rt; shelf.read(&mut buf)?, 0);
        NoFaultSink::new().write(&buf)?;
        Ok(())
    }
}
