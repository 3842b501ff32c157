//! A writer of the system as a sink.
ghost use Rattle.std.specs.Prelude.{◌≡◌, None, OnOk, OnErr};
ghost use Rattle.std.specs.Io.KnownBytes.{Appends};
ghost use Rattle.sd_io.specs.outside.Reasons.{WriteFailsFor};
ghost use Rattle.sd_io.specs.outside.Causes.{HasCause};
ghost use Rattle.sd_io.specs.outside.Counts.{faults_after};
ghost use Rattle.sd_io.specs.outside.LastFaults.{KeepsReason};
ghost use Rattle.sd_io.specs.outside.Pieces.{AddsFront, AddsPieces, piece_of};
ghost use Rattle.sd_io.specs.outside.Prefixes.{WritesPrefix};

use crate::outside::again::write_whole;
use crate::outside::shelf::Failed;
use crate::outside::sink::Sink;
use crate::outside::system::SystemWriter;
use std::io;
use std::marker::Model;

/// A writer of the system, as standard output. It tells nothing of what it holds. It never
/// flushes, so the writer is one that keeps nothing back.
#[derive(Drop)]
pub struct StdSink<W: SystemWriter> {
    writer: W,
    last_fault: Option<io::Error>,
    faults: u64,
}

impl<W: SystemWriter> Model for StdSink<W> {
    ghost use Rattle.sd_io.specs.outside.System.{Counted};

    ghost Value = { Counted W };

    ghost view = { λ s. record {
      writer = s.writer;
      taken = W.taken s.writer;
      last_fault = s.last_fault;
      faults = s.faults;
    } };
}

impl<W: SystemWriter> StdSink<W> {
    pub fn new(writer: W) -> StdSink<W>
        ensures faults { ⟦<StdSink<W> as Sink>⟧.faults result ≡ 0 }
        ensures last_fault { result.last_fault ≡ None }
    {
        StdSink {
            writer,
            last_fault: None,
            faults: 0,
        }
    }

    /// The system's reason of the last write that failed, and nothing before the first.
    pub fn last_fault(&self) -> Option<io::Error>
        ensures { result ≡ self.now.last_fault }
    {
        self.last_fault
    }
}

impl<W: SystemWriter> Sink for StdSink<W> {
    ghost written = { λ s. None };

    ghost faults = { λ s. s.faults };

    fn write(&mut self, bytes: &[u8]) -> Result<(), Failed>
        ensures all { OnOk result (AddsPieces None None (piece_of bytes.now)) }
        ensures front { OnErr result (AddsFront None None (piece_of bytes.now)) }
        // The writer itself, where its type tells what it holds.
        ensures writer_all { OnOk result (Appends self.old.taken self.new.taken bytes.now) }
        ensures writer_front { OnErr result (WritesPrefix self.old.taken self.new.taken bytes.now) }

        ensures cause { HasCause self.old.faults self.new.faults result }
        ensures faults { self.new.faults ≡ faults_after self.old.faults result }
        ensures last_fault { KeepsReason
            (λ reason. WriteFailsFor W.answers bytes.now reason self.new.writer)
            self.old.last_fault self.new.last_fault result }
    {
        match write_whole(&mut self.writer, bytes) {
            Ok(()) => Ok(()),
            Err(reason) => {
                self.last_fault = Some(reason);
                self.faults = self.faults.saturating_add(1);
                Err(Failed)
            }
        }
    }
}

#[cfg(test)]
mod tests {
    use super::*;
    use std::io::{Error, ErrorKind, Write};
    use std::process::Abort;

    /// Takes two bytes a call. The first call is interrupted; the fourth and the sixth fail.
    #[derive(Drop)]
    struct Limping {
        calls: u32,
        taken: Vec<u8>,
    }

    impl Write for Limping {
        fn write(&mut self, bytes: &[u8]) -> io::Result<usize> {
            self.calls = self.calls.saturating_add(1);
            match self.calls {
                1 => Err(Error::from(ErrorKind::Interrupted)),
                4 => Err(Error::from(ErrorKind::BrokenPipe)),
                6 => Err(Error::from(ErrorKind::StorageFull)),
                _ => {
                    let count = bytes.len().min(2);
                    self.taken.extend_from_slice(&bytes[..count])?;
                    Ok(count)
                }
            }
        }

        fn flush(&mut self) -> io::Result<()> {
            Ok(())
        }
    }

    /// A write is answered so. Then this many have failed, the last for this reason.
    fn assert_write(
        rt: &impl Abort,
        sink: &mut StdSink<Limping>,
        bytes: &[u8],
        wanted: Result<(), Failed>,
        (faults, kind): (u64, Option<ErrorKind>),
    ) {
        assert_eq!(rt; sink.write(bytes), wanted);
        assert_eq!(rt; sink.faults, faults);
        assert_eq!(rt; sink.last_fault().map(|e| e.kind()), kind);
    }

    #[test]
    fn writes_on_and_counts_a_fault(rt: HostRuntime) {
        let mut sink = StdSink::new(Limping {
            calls: 0,
            taken: Vec::new(rt.alloc()),
        });
        let broken = Some(ErrorKind::BrokenPipe);
        for (bytes, wanted, fault) in [
            (b"abc".as_slice(), Ok(()), (0, None)),
            (b"de".as_slice(), Err(Failed), (1, broken)),
            (b"f".as_slice(), Ok(()), (1, broken)),
        ] {
            assert_write(&rt, &mut sink, bytes, wanted, fault);
        }
        assert_eq!(rt; sink.writer.taken.as_slice(), b"abcf".as_slice());
        let full = Some(ErrorKind::StorageFull);
        assert_write(&rt, &mut sink, b"g", Err(Failed), (2, full));
    }
}
