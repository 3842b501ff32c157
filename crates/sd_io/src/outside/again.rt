//! Calls of the system. One that a signal interrupted is made again; it is no fault. Each other
//! failure is answered with the system's reason.
ghost use Rattle.std.specs.Prelude.{◌≡◌, ◌<◌, ◌≤◌, ◌↔◌, length, Some, IsTrue, IfOk, IfErr, OnOk, OnErr};
ghost use Rattle.std.specs.IoError.{error_kind};
ghost use Rattle.std.specs.Io.{ReadsAtMost};
ghost use Rattle.std.specs.Io.KnownBytes.{Appends, ReadConsumes, WriteAppends};
ghost use Rattle.sd_io.specs.outside.Reasons.{FailsFor, IsFileNamed, WriteFails, WriteFailsFor};
ghost use Rattle.sd_io.specs.outside.Prefixes.{WritesPrefix};

use crate::outside::system::{SystemFile, SystemFiles, SystemWriter};
use std::io;
use std::io::ErrorKind;

/// Whether the call that gave this error is to be made again.
fn is_interrupted(error: &io::Error) -> bool
    ensures { IsTrue result ↔ (error_kind error.now ≡ ErrorKind.Interrupted) }
{
    error.kind() == ErrorKind::Interrupted
}

/// Opens a file for reading.
#[tactic(auto, using(crate::proofs::outside::Reasons::interruptions_more, crate::proofs::outside::Reasons::fails_at_once, crate::proofs::outside::Reasons::fails_at_last, crate::proofs::outside::Reasons::gives_after))]
pub(crate) fn open_file<F: SystemFiles>(files: &mut F, name: &str) -> io::Result<F::File>
    ensures opened { IfOk result
        (λ file. IsFileNamed F.refuses F.opens name.now files.old (Some file) files.new) }
    ensures reason { IfErr result (λ reason. FailsFor
        (λ old e new. F.refuses old name.now e new) files.old reason files.new) }
{
    for _ in 0..u64::MAX {
        match files.open_once(name) {
            Ok(file) => return Ok(file),
            Err(error) => {
                if !is_interrupted(&error) {
                    return Err(error);
                }
            }
        }
    }
    files.open_once(name)
}

/// Reads once.
#[tactic(auto, using(crate::proofs::outside::Reasons::interruptions_more, crate::proofs::outside::Reasons::fails_at_once, crate::proofs::outside::Reasons::fails_at_last))]
pub(crate) fn read_file<S: SystemFile>(source: &mut S, buf: &mut [u8]) -> io::Result<usize>
    ensures bound { ReadsAtMost result buf.new }
    ensures bytes { ReadConsumes (S.left source.old) (S.left source.new) result buf.new }
    ensures reason { IfErr result (λ reason. FailsFor S.fails source.old reason source.new) }
{
    for _ in 0..u64::MAX {
        match source.read_once(buf) {
            Ok(count) => return Ok(count),
            Err(error) => {
                if !is_interrupted(&error) {
                    return Err(error);
                }
            }
        }
    }
    source.read_once(buf)
}

/// Writes by one call, at least one byte.
fn write_some<W: SystemWriter>(writer: &mut W, bytes: &[u8]) -> io::Result<usize>
    ensures some { IfOk result (λ n. (0 < n) × (n ≤ length bytes.now)) }
    ensures bytes { WriteAppends (W.taken writer.old) (W.taken writer.new) result bytes.now }
    ensures reason { IfErr result
        (λ reason. WriteFails W.answers bytes.now writer.old reason writer.new) }
{
    match writer.write_once(bytes) {
        Ok(0) => Err(io::Error::from(ErrorKind::WriteZero)),
        answer => answer,
    }
}

/// Writes once, at least one byte.
#[tactic(auto, using(crate::proofs::outside::Reasons::interruptions_more, crate::proofs::outside::Reasons::fails_at_once, crate::proofs::outside::Reasons::fails_at_last))]
fn write_again<W: SystemWriter>(writer: &mut W, bytes: &[u8]) -> io::Result<usize>
    ensures some { IfOk result (λ n. (0 < n) × (n ≤ length bytes.now)) }
    ensures bytes { WriteAppends (W.taken writer.old) (W.taken writer.new) result bytes.now }
    ensures reason { IfErr result (λ reason. FailsFor
        (WriteFails W.answers bytes.now) writer.old reason writer.new) }
{
    for _ in 0..u64::MAX {
        match write_some(writer, bytes) {
            Ok(count) => return Ok(count),
            Err(error) => {
                if !is_interrupted(&error) {
                    return Err(error);
                }
            }
        }
    }
    write_some(writer, bytes)
}

/// Writes all bytes, in as many calls as that takes. A call that takes none of them has failed.
pub(crate) fn write_whole<W: SystemWriter>(writer: &mut W, bytes: &[u8]) -> io::Result<()>
    ensures all { OnOk result (Appends (W.taken writer.old) (W.taken writer.new) bytes.now) }
    ensures front { OnErr result
        (WritesPrefix (W.taken writer.old) (W.taken writer.new) bytes.now) }
    ensures reason { IfErr result
        (λ reason. WriteFailsFor W.answers bytes.now reason writer.new) }
{
    let mut done = 0;
    while done < bytes.len() {
        done += write_again(writer, &bytes[done..])?;
    }
    Ok(())
}

#[cfg(test)]
mod tests {
    use super::*;
    use std::io::Read;

    /// Its first call is interrupted, its second gives a byte and its third fails.
    #[derive(Drop)]
    struct Limping {
        calls: u32,
    }

    impl Read for Limping {
        fn read(&mut self, buf: &mut [u8]) -> io::Result<usize> {
            self.calls = self.calls.saturating_add(1);
            match self.calls {
                1 => Err(io::Error::from(ErrorKind::Interrupted)),
                2 => Ok(buf.len().min(1)),
                _ => Err(io::Error::from(ErrorKind::UnexpectedEof)),
            }
        }
    }

    #[test]
    fn reads_on_after_an_interruption(rt: HostRuntime) {
        let mut source = Limping { calls: 0 };
        let mut buf = [0; 4];
        assert_eq!(rt; read_file(&mut source, &mut buf).ok(), Some(1));
        let reason = read_file(&mut source, &mut buf).err();
        assert_eq!(rt; reason.map(|e| e.kind()), Some(ErrorKind::UnexpectedEof));
    }
}
