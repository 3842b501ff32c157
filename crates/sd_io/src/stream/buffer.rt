//! The one buffer of a reader.
ghost use Rattle.std.specs.Prelude.{◌≡◌, ◌≤◌, ◌+◌, ◌-◌, ◌<◌, length, take, drop, [], IsTrue, IfOk, OnErr, vec_len, slice_range};
ghost use Rattle.std.specs.List.{copy_within};
ghost use Rattle.std.specs.Io.KnownBytes.{Keeps, IsAtEnd, Consumes, prepend_known};
ghost use Rattle.sd_io.specs.outside.Causes.{HasCause};

use crate::outside::{Failed, Shelf};
use sd_num::NoMemory;
use std::alloc::Global;

/// How many bytes a buffer has.
const SIZE: usize = 8192;

/// The bytes that a reader took from its shelf and has not yet lent.
#[derive(Drop)]
pub struct Buffer {
    bytes: Vec<u8>,
    start: usize,
    end: usize,
    ghost ordered: { start ≤ end },
    ghost within: { end ≤ vec_len bytes },
    ghost size: { vec_len bytes ≡ 8192 },
}

/// Brings a range to the front.
fn move_to_front(bytes: &mut Vec<u8>, start: usize, end: usize)
    requires ordered { start ≤ end }
    requires within { end ≤ vec_len bytes.old }
    ensures front { take (end - start) bytes.new.items ≡ slice_range bytes.old.items start end }
    ensures len { vec_len bytes.new ≡ vec_len bytes.old }
{
    bytes.copy_within(start..end, 0);
}

/// Reads into the place after `end`.
fn read_at<S: Shelf>(shelf: &mut S, bytes: &mut Vec<u8>, end: usize) -> Result<usize, Failed>
    requires begun { IsTrue (S.begun shelf.old) }
    requires room { end < vec_len bytes.old }
    ensures front { take end bytes.new.items ≡ take end bytes.old.items }
    ensures len { vec_len bytes.new ≡ vec_len bytes.old }
    ensures bound { IfOk result (λ n. end + n ≤ vec_len bytes.old) }
    ensures bytes { IfOk result (λ n.
        Consumes (S.rest shelf.old) (S.rest shelf.new)
        (slice_range bytes.new.items end (end + n))) }
    ensures end { IfOk result (λ n. n ≡ 0 → IsAtEnd (S.rest shelf.new)) }
    ensures err { OnErr result (Keeps (S.rest shelf.old) (S.rest shelf.new)) }
    ensures begun { IsTrue (S.begun shelf.new) }
    ensures cause { HasCause (S.faults shelf.old) (S.faults shelf.new) result }
    ensures same_held { S.held shelf.new ≡ S.held shelf.old }
    ensures same_names { S.serves shelf.new ≡ S.serves shelf.old }
{
    shelf.read(&mut bytes[end..])
}

impl Buffer {
    ghost use Rattle.sd_io.specs.stream.Buffered.{buffered};

    /// An empty buffer of 8192 bytes.
    pub fn new(alloc: Global) -> Result<Buffer, NoMemory>
        ensures { IfOk result (λ b. buffered b ≡ []) }
    {
        match vec![in alloc; 0; SIZE] {
            Ok(bytes) => Ok(Buffer {
                bytes,
                start: 0,
                end: 0,
            }),
            Err(_) => Err(NoMemory),
        }
    }

    /// The bytes that were not yet lent.
    pub(crate) fn waiting(&self) -> &[u8]
        ensures { result.now ≡ buffered self.now }
    {
        &self.bytes[self.start..self.end]
    }

    /// Goes past the first bytes that were not yet lent, and says from where on the first `len` of
    /// them stand.
    pub(crate) fn pass(&mut self, len: usize, past: usize) -> usize
        requires ordered { len ≤ past }
        requires waiting { past ≤ length (buffered self.old) }
        ensures line { slice_range self.new.bytes.items result (result + len)
            ≡ take len (buffered self.old) }
        ensures rest { buffered self.new ≡ drop past (buffered self.old) }
        ensures within { result + len ≤ 8192 }
    {
        let from = self.start;
        self.start = from + past;
        from
    }

    /// The bytes of a range of the buffer.
    pub(crate) fn range(&self, from: usize, to: usize) -> &[u8]
        requires ordered { from ≤ to }
        requires within { to ≤ 8192 }
        ensures { result.now ≡ slice_range self.now.bytes.items from to }
    {
        &self.bytes[from..to]
    }

    /// Brings what was not yet lent to the front.
    fn make_room(&mut self)
        requires { length (buffered self.old) < 8192 }
        ensures room { self.new.end < 8192 }
        ensures same { buffered self.new ≡ buffered self.old }
    {
        if self.start == 0 {
            return;
        }
        let start = self.start;
        let end = self.end;
        move_to_front(&mut self.bytes, start, end);
        self.start = 0;
        self.end = end - start;
    }

    /// Reads on. It answers how many bytes came, none at the end of the text.
    pub(crate) fn fill<S: Shelf>(&mut self, shelf: &mut S) -> Result<usize, Failed>
        requires begun { IsTrue (S.begun shelf.old) }
        requires room { length (buffered self.old) < 8192 }
        ensures left { Keeps (prepend_known (buffered self.old) (S.rest shelf.old))
            (prepend_known (buffered self.new) (S.rest shelf.new)) }
        ensures front { take (length (buffered self.old)) (buffered self.new) ≡ buffered self.old }
        ensures grown { IfOk result
            (λ n. length (buffered self.new) ≡ length (buffered self.old) + n) }
        ensures end { IfOk result (λ n. n ≡ 0 → IsAtEnd (S.rest shelf.new)) }
        ensures err { OnErr result (buffered self.new ≡ buffered self.old) }
        ensures begun { IsTrue (S.begun shelf.new) }
        ensures cause { HasCause (S.faults shelf.old) (S.faults shelf.new) result }
        ensures same_held { S.held shelf.new ≡ S.held shelf.old }
        ensures same_names { S.serves shelf.new ≡ S.serves shelf.old }
    {
        self.make_room();
        let count = read_at(shelf, &mut self.bytes, self.end)?;
        self.end += count;
        Ok(count)
    }
}
