//! A text lent line by line.
ghost use Rattle.std.specs.Prelude.{◌≡◌, ◌≢◌, ◌≤◌, ◌+◌, ◌^◌, ◌<◌, length, take, drop, [], Ok, Some, Err, true, IsTrue, IfOk, IfSome, IfErr, OnOk, OnErr, OnSome, slice_range};
ghost use Rattle.std.specs.Result.{IsErrOf};
ghost use Rattle.std.specs.Io.KnownBytes.{Keeps};
ghost use Rattle.sd_io.specs.outside.Shelves.{KeepsShelf};
ghost use Rattle.sd_io.specs.stream.Limits.{answer_of, IsAnswerTo};
ghost use Rattle.sd_io.specs.stream.Buffered.{buffered};

use crate::outside::Shelf;
use crate::stream::buffer::Buffer;
use crate::stream::faults::StreamFault;
use crate::stream::judge::{Finding, TEXT, judge};
use sd_num::NoMemory;
use std::alloc::Global;

/// A shelf whose begun text is lent line by line, from one buffer. A line has at most 4096 bytes,
/// its newline not counted, and a text at most 2^32.
///
/// ```
/// shelf.begin("schedule")?;
/// let mut reader = LineReader::new(alloc, &mut shelf)?;
/// loop {
///     match reader.next_line() {
///         Ok(Some(line)) => take(line),
///         Ok(None) => break,
///         // The next call goes on from the same place.
///         Err(StreamFault::ReadFault) => {}
///         Err(fault) => return Err(fault),
///     }
/// }
/// ```
pub struct LineReader<'s, S: Shelf, B = Buffer> {
    shelf: &'s mut S,
    buffer: B,
    before: u64,
    ghost begun: { S.begun shelf.now ≡ true },
    ghost within: { before ≤ 2 ^ 32 },
}

impl<'s, S: Shelf> LineReader<'s, S> {
    ghost use Rattle.sd_io.specs.stream.Reader.{shelf_of, text_left, bytes_before, buffered_answer, IsNear, AnswersAt, GoesPast, StaysAt, LeavesReader};
    ghost use Rattle.sd_io.specs.stream.Windows.{window_of, EndsAt};
    ghost use Rattle.std.specs.Borrow.{sem};

    /// Takes one buffer, all the memory that a reader needs.
    pub fn new(alloc: Global, shelf: &'s mut S) -> Result<LineReader<'s, S>, NoMemory>
        requires { IsTrue (S.begun shelf.old) }
        ensures same_shelf { IfOk result (λ r. (shelf_of r).ghost_name ≡ shelf.entry.ghost_name) }
        ensures shelf { IfOk result (λ r. (shelf_of r).now ≡ shelf.old) }
        ensures left { IfOk result (λ r. text_left S.Shelf r ≡ S.rest shelf.old) }
        ensures before { IfOk result (λ r. bytes_before r ≡ 0) }
    {
        let buffer = Buffer::new(alloc)?;
        Ok(LineReader::over(shelf, buffer))
    }

    /// A reader over a buffer that was made before, for a caller that goes on with the shelf
    /// where there was no memory for the buffer.
    pub fn over(shelf: &'s mut S, buffer: Buffer) -> LineReader<'s, S>
        requires begun { IsTrue (S.begun shelf.old) }
        requires empty { buffered buffer ≡ [] }
        ensures same_shelf { (shelf_of result).ghost_name ≡ shelf.entry.ghost_name }
        ensures shelf { (shelf_of result).now ≡ shelf.old }
        ensures left { text_left S.Shelf result ≡ S.rest shelf.old }
        ensures before { bytes_before result ≡ 0 }
    {
        LineReader {
            shelf,
            buffer,
            before: 0,
        }
    }

    /// Goes past the first bytes that are left, and says where the first `len` of them stand.
    fn pass(&mut self, len: usize, past: usize) -> (usize, usize)
        requires ordered { len ≤ past }
        requires waiting { past ≤ length (buffered self.old.buffer) }
        requires within { bytes_before self.old + past ≤ 2 ^ 32 }
        ensures line { slice_range self.new.buffer.bytes.items result.0 result.1
            ≡ take len (buffered self.old.buffer) }
        ensures len { result.1 ≡ result.0 + len }
        ensures within { result.1 ≤ 8192 }
        ensures rest { buffered self.new.buffer ≡ drop past (buffered self.old.buffer) }
        ensures before { bytes_before self.new ≡ bytes_before self.old + past }
        ensures shelf { self.new.shelf.now ≡ self.old.shelf.now }
        ensures same_shelf { self.new.shelf.ghost_name ≡ self.old.shelf.ghost_name }
    {
        let from = self.buffer.pass(len, past);
        self.before += past as u64;
        (from, from + len)
    }

    /// Brings the next line into the buffer, and goes past it. It answers where the line stands.
    fn seek_line(&mut self) -> Result<Option<(usize, usize)>, StreamFault>
        ensures answer { IfSome (text_left S.Shelf self.old) (λ text.
            AnswersAt (answer_of (bytes_before self.old) text) self.new.buffer.bytes.items result) }
        ensures range { IfOk result
            (λ place. IfSome place (λ p. (p.0 ≤ p.1) × (p.1 ≤ p.0 + 4096) × (p.1 ≤ 8192))) }
        ensures repeats { IfErr (buffered_answer self.old) (λ f. result ≡ Err f) }
        ensures past { OnOk result (IfSome (text_left S.Shelf self.old)
            (GoesPast (bytes_before self.old) (bytes_before self.new)
            (text_left S.Shelf self.new))) }
        ensures moves { IfOk result
            (λ place. OnSome place (bytes_before self.old < bytes_before self.new)) }
        ensures kept { OnErr result (StaysAt S.Shelf self.old self.new) }
        ensures settled { IfErr result
            (λ f. f ≢ StreamFault.ReadFault → buffered_answer self.new ≡ Err f) }
        ensures near { IsNear (text_left S.Shelf self.old) (S.rest self.new.shelf.now) }
        ensures same_shelf { self.new.shelf.ghost_name ≡ self.old.shelf.ghost_name }
        ensures shelf { KeepsShelf S.Shelf (IsErrOf result StreamFault.ReadFault)
            self.old.shelf.now self.new.shelf.now }
    {
        let mut searched = 0;
        'turns: loop {
            match judge(self.buffer.waiting(), searched, self.before) {
                Finding::Ends(len) => return Ok(Some(self.pass(len, len + 1))),
                Finding::Refused(fault) => return Err(fault),
                Finding::Open => searched = self.buffer.waiting().len(),
            }
            match self.buffer.fill(self.shelf) {
                Ok(0) if searched == 0 => return Ok(None),
                Ok(0) => return Ok(Some(self.pass(searched, searched))),
                Ok(_) => {}
                Err(_) => return Err(StreamFault::ReadFault),
            }
        }
    }

    /// Lends the next line, without its newline, from the buffer; the last line may lack its
    /// newline. `None` is the end of the text. After `ReadFault` the next call goes on from the same
    /// place, and after `LongLine` or `Limit` each later call answers the same.
    pub fn next_line(&mut self) -> Result<Option<&[u8]>, StreamFault>
        ensures answer { IfSome (text_left S.Shelf self.old) (λ text.
            IsAnswerTo (answer_of (bytes_before self.old) text) result) }
        ensures short { IfOk result (λ line. IfSome line (λ l. length l.now ≤ 4096)) }
        ensures repeats { IfErr (buffered_answer self.old) (λ f. result ≡ Err f) }
        ensures* leaves { sem 𝓛 (LeavesReader S.row S.Shelf self.entry result) }
    {
        match self.seek_line()? {
            Some((from, to)) => Ok(Some(self.buffer.range(from, to))),
            None => Ok(None),
        }
    }

    /// Lends what waits in the buffer, as far as a text may go. It begins with the next line, and
    /// may hold more lines, or not all of one.
    pub fn window(&self) -> &[u8]
        ensures window { result.now ≡ window_of self.now }
        ensures near { IsNear (text_left S.Shelf self.now) (S.rest (shelf_of self.now).now) }
    {
        let waiting = self.buffer.waiting();
        let most = (TEXT - self.before) as usize;
        &waiting[..waiting.len().min(most)]
    }

    /// Goes past the next line, which ends in the window after this many bytes, as if it had been
    /// lent.
    pub fn pass_line(&mut self, len: usize)
        requires { EndsAt (window_of self.old) len }
        ensures answer { IfSome (text_left S.Shelf self.old) (λ text.
            answer_of (bytes_before self.old) text ≡ Ok (Some (take len (window_of self.old)))) }
        ensures past { IfSome (text_left S.Shelf self.old)
            (GoesPast (bytes_before self.old) (bytes_before self.new)
            (text_left S.Shelf self.new)) }
        ensures moves { bytes_before self.old < bytes_before self.new }
        ensures within { bytes_before self.new ≤ 2 ^ 32 }
        ensures near { IsNear (text_left S.Shelf self.old) (S.rest (shelf_of self.new).now) }
        ensures shelf { (shelf_of self.new).now ≡ (shelf_of self.old).now }
        ensures same_shelf { (shelf_of self.new).ghost_name ≡ (shelf_of self.old).ghost_name }
    {
        self.pass(len, len + 1);
    }
}

impl<S: Shelf, B: Drop> Drop for LineReader<'_, S, B> {
    ghost use Rattle.sd_io.specs.stream.Reader.{shelf_of};

    fn drop(self)
        ensures same { self.exit.0.now ≡ (shelf_of self.entry).now }
        ensures begun { S.begun self.exit.0.now ≡ true }
    {
        let LineReader {
            shelf: _,
            buffer: _,
            before: _,
        } = self;
    }
}
