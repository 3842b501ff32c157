//! What the bytes in the buffer say of the next line.
ghost use Rattle.std.specs.Prelude.{◌≡◌, ◌≤◌, ◌+◌, ◌^◌, length};
ghost use Rattle.sd_io.specs.stream.Lines.{line_len};
ghost use Rattle.sd_io.specs.stream.Findings.{Shows};

use crate::stream::faults::StreamFault;
use memchr::memchr;

/// The most bytes that a line may have, without its newline.
const LINE: usize = 4096;

/// The most bytes that a text may have.
pub(crate) const TEXT: u64 = 1 << 32;

/// What the first bytes of a text say of its next line.
#[derive(Clone, Copy)]
pub(crate) enum Finding {
    /// It ends here, at a newline, and may be lent.
    Ends(usize),
    /// It is refused, whatever follows.
    Refused(StreamFault),
    /// It does not end among these bytes, and they are within every limit.
    Open,
}

/// How many bytes stand before the first newline, or all of them.
fn line_len_of(bytes: &[u8]) -> usize
    ensures { result ≡ line_len bytes.now }
{
    memchr(b'\n', bytes).unwrap_or(bytes.len())
}

/// Judges the next line by the first bytes of what is left of a text. Before them stand `before`
/// bytes of it, and no newline stands in the first `searched` of them.
pub(crate) fn judge(bytes: &[u8], searched: usize, before: u64) -> Finding
    requires searched { searched ≤ line_len bytes.now }
    requires among { searched ≤ length bytes.now }
    requires short { searched ≤ 4096 }
    requires within { before + searched ≤ 2 ^ 32 }
    ensures { Shows before bytes.now result }
{
    // A newline from `reach` on would end a line that is too long, or end it past the limit.
    let budget = (TEXT - before) as usize;
    let reach = bytes.len().min(LINE + 1).min(budget);
    let len = searched + line_len_of(&bytes[searched..reach]);
    if len < reach {
        Finding::Ends(len)
    } else if reach > LINE {
        Finding::Refused(StreamFault::LongLine)
    } else if reach < bytes.len() {
        Finding::Refused(StreamFault::Limit)
    } else {
        Finding::Open
    }
}
