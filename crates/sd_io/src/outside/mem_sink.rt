//! Bytes in memory as a sink, which fails where it is told to.
ghost use Rattle.std.specs.Prelude.{◌≡◌, ◌+◌, ◌≤◌, ◌++◌, ◌||◌, [], Some, length, take, vec_len, IfOk, OnOk, OnErr, is_some, is_err, nat_lt};
ghost use Rattle.sd_io.specs.outside.Causes.{HasCause, raised};
ghost use Rattle.sd_io.specs.outside.Counts.{faults_after};
ghost use Rattle.std.specs.List.{concat};
ghost use Rattle.sd_io.specs.outside.Pieces.{AddsFront, AddsPieces, piece_of};
ghost use Rattle.sd_io.specs.outside.MemSink.{added_count, kept_in, listed_count, room_left};

use crate::outside::room::add_piece;
use crate::outside::shelf::Failed;
use crate::outside::sink::Sink;
use sd_num::NoMemory;
use std::alloc::Global;
use std::marker::Model;

/// Bytes in memory, with a room that is never passed. The writes that are listed fail, and so
/// does each whose bytes exceed the room that is left.
#[derive(Drop)]
pub struct MemSink {
    bytes: Vec<u8>,
    /// How many bytes each write has added, of those that added some.
    counts: Vec<usize>,
    room: usize,
    failing: Vec<(u64, usize)>,
    calls: u64,
    faults: u64,
}

impl Model for MemSink {
    ghost use Rattle.sd_io.specs.outside.MemSink.{Kept};

    ghost Value = { Kept };

    ghost use Rattle.sd_io.specs.outside.MemSinkView.{kept_of, IsMemSink};

    ghost view = { kept_of };

    ghost invariant = { IsMemSink };
}

/// How many bytes a call keeps, where it is listed.
fn kept_at(failing: &[(u64, usize)], call: u64) -> Option<usize>
    ensures { result ≡ kept_in failing.now call }
{
    for (number, count) in failing {
        if *number == call {
            return Some(*count);
        }
    }
    None
}

impl MemSink {
    /// Takes its memory for `room` bytes and as many pieces here; no write takes memory. An entry of `failing` is the
    /// number of a write, from 1, and how many of its first bytes that write adds before it fails.
    /// Of two entries with one number the first counts.
    pub fn new(alloc: Global, room: usize, failing: Vec<(u64, usize)>) -> Result<MemSink, NoMemory>
        ensures bytes { IfOk result (λ s. s.bytes ≡ []) }
        ensures pieces { IfOk result (λ s. s.pieces ≡ []) }
        ensures room { IfOk result (λ s. s.room ≡ room) }
        ensures failing { IfOk result (λ s. s.failing ≡ failing.items) }
        ensures calls { IfOk result (λ s. s.calls ≡ 0) }
        ensures faults { IfOk result (λ s. s.faults ≡ 0) }
    {
        let (Ok(bytes), Ok(counts)) = (
            Vec::with_capacity(alloc, room),
            Vec::with_capacity(alloc, room),
        ) else {
            return Err(NoMemory);
        };
        Ok(MemSink {
            bytes,
            counts,
            room,
            failing,
            calls: 0,
            faults: 0,
        })
    }

    /// All bytes so far, which are those of the pieces.
    pub fn bytes(&self) -> &[u8]
        ensures bytes { result.now ≡ self.now.bytes }
        ensures pieces { result.now ≡ concat self.now.pieces }
    {
        self.bytes.as_slice()
    }
}

impl Sink for MemSink {
    ghost written = { λ s. Some s.pieces };

    ghost faults = { λ s. s.faults };

    fn write(&mut self, bytes: &[u8]) -> Result<(), Failed>
        // It fails exactly where it is listed or its bytes exceed the room that is left.
        ensures exactly { is_err result ≡ (is_some (listed_count self.old)
            || nat_lt (room_left self.old) (length bytes.now)) }
        ensures bytes { self.new.bytes ≡ self.old.bytes
            ++ take (added_count self.old bytes.now) bytes.now }
        ensures piece { self.new.pieces ≡ self.old.pieces
            ++ piece_of (take (added_count self.old bytes.now) bytes.now) }
        ensures all { OnOk result
            (AddsPieces (Some self.old.pieces) (Some self.new.pieces) (piece_of bytes.now)) }
        ensures front { OnErr result
            (AddsFront (Some self.old.pieces) (Some self.new.pieces) (piece_of bytes.now)) }
        ensures cause { HasCause self.old.faults self.new.faults result }

        ensures calls { self.new.calls ≡ raised self.old.calls }
        ensures faults { self.new.faults ≡ faults_after self.old.faults result }
        ensures same_room { self.new.room ≡ self.old.room }
        ensures same_failing { self.new.failing ≡ self.old.failing }
    {
        self.calls = self.calls.saturating_add(1);
        let left = self.room - self.bytes.len();
        let listed = kept_at(&self.failing, self.calls);
        let count = listed.unwrap_or(bytes.len()).min(bytes.len().min(left));
        add_piece(&mut self.bytes, &mut self.counts, &bytes[..count]);
        if listed.is_some() || left < bytes.len() {
            self.faults = self.faults.saturating_add(1);
            return Err(Failed);
        }
        Ok(())
    }
}

#[cfg(test)]
mod tests {
    use super::*;
    use std::process::Abort;
    use std::test::Fail;

    /// A write is answered so, and these are all bytes that were kept.
    fn assert_write(
        rt: &impl Abort,
        sink: &mut MemSink,
        bytes: &[u8],
        wanted: Result<(), Failed>,
        kept: &[u8],
    ) {
        assert_eq!(rt; sink.write(bytes), wanted);
        assert_eq!(rt; sink.bytes(), kept);
    }

    #[test]
    fn keeps_fronts(rt: HostRuntime) -> Result<(), Fail> {
        let failing = Vec::from_slice(rt.alloc(), &[(2, 3), (2, 0), (3, 9)])?;
        let mut sink = MemSink::new(rt.alloc(), 10, failing)?;
        for (bytes, wanted, kept) in [
            (b"ab".as_slice(), Ok(()), b"ab".as_slice()),
            (b"cdefg".as_slice(), Err(Failed), b"abcde".as_slice()),
            (b"f".as_slice(), Err(Failed), b"abcdef".as_slice()),
            (b"ghijk".as_slice(), Err(Failed), b"abcdefghij".as_slice()),
        ] {
            assert_write(&rt, &mut sink, bytes, wanted, kept);
        }
        assert_eq!(rt; sink.faults, 3);
        Ok(())
    }
}
