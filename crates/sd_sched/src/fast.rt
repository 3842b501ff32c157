//! The kinds of line that nearly all are, a tick, a receipt, an ask and a fix, each read in one go
//! where it stands.
ghost use Rattle.std.specs.Prelude.{◌≡◌, ◌+◌, ◌≤◌, ◌∷◌, length, take, position, nat_eq, Ok, Some, IfSome, IsTrue};
ghost use Rattle.sd_sched.specs.Lines.{event_of_line, limit};
ghost use Rattle.sd_sched.specs.Spelled.{is_within};
ghost use Rattle.sd_sched.specs.Reading.{row_of};
ghost use Rattle.sd_sched.specs.declared.words.Field.TheVariants.{Amount, Which};
ghost use Rattle.sd_sched.specs.InPlace.{HasHead, HasLine, is_at};

use crate::Event;
use crate::numbers::{number_at, short_at};
use crate::words::Word;

/// A text with this many bytes has room for each of these lines, and for what is looked at after
/// the place where its last number begins.
const ROOM: usize = 80;

/// A line at the front of bytes.
#[derive(Clone, Copy)]
pub struct BufferedLine {
    /// Its event.
    pub event: Event,
    /// How many bytes it has, its newline not counted.
    pub len: usize,
}

/// The numbers that each of these lines begins with, and where they end.
#[derive(Clone, Copy)]
struct Head {
    reference: u64,
    device: u32,
    end: usize,
}

/// The first line of a text, if it is of one of these kinds and ends with a newline. Any other may
/// be one all the same: `read_line` says.
// A part of its callers: the event is taken up where it was read.
#[inline(always)]
pub fn read_buffered_line(text: &[u8]) -> Option<BufferedLine>
    ensures newline { IfSome result
        (λ front. position (λ byte. nat_eq byte 10) text.now ≡ Some front.len) }
    ensures short { IfSome result (λ front. front.len ≤ 4096) }
    ensures event { IfSome result
        (λ front. event_of_line (take front.len text.now) ≡ Ok front.event) }
    ensures within { IfSome result (λ front. IsTrue (is_within front.event)) }
{
    if text.len() < ROOM {
        return None;
    }
    fast_line(text)
}

/// The line of one of these kinds at the front of a text.
#[inline(always)]
fn fast_line(text: &[u8]) -> Option<BufferedLine>
    requires { 80 ≤ length text.now }
    ensures { IfSome result (λ front. HasLine text.now front.event front.len) }
{
    let (word, place) = fast_word(text)?;
    let Head {
        reference,
        device,
        end,
    } = read_head(text, place)?;
    match word {
        Word::Tick => {
            let counter = number_at(text, end + 1, b'\n')?;
            Some(BufferedLine {
                event: Event::Tick {
                    reference,
                    device,
                    counter: counter.number,
                },
                len: counter.end,
            })
        }
        Word::Ask => {
            let counter = number_at(text, end + 1, b'\n')?;
            Some(BufferedLine {
                event: Event::Ask {
                    reference,
                    device,
                    counter: counter.number,
                },
                len: counter.end,
            })
        }
        Word::Recv => {
            let counter = number_at(text, end + 1, b' ')?;
            let message = number_at(text, counter.end + 1, b'\n')?;
            Some(BufferedLine {
                event: Event::Recv {
                    reference,
                    device,
                    counter: counter.number,
                    message: message.number,
                },
                len: message.end,
            })
        }
        Word::Fix => {
            let counter = number_at(text, end + 1, b' ')?;
            let clock = number_at(text, counter.end + 1, b' ')?;
            let eps = number_at(text, clock.end + 1, b'\n')?;
            Some(BufferedLine {
                event: Event::Fix {
                    reference,
                    device,
                    counter: counter.number,
                    clock: clock.number,
                    eps: eps.number,
                },
                len: eps.end,
            })
        }
        _ => None,
    }
}

/// Which of these words the text begins with, and where the space after it is.
#[inline(always)]
fn fast_word(text: &[u8]) -> Option<(Word, usize)>
    ensures spelled { IfSome result
        (λ found. take found.1 text.now ≡ (row_of found.0).spelled) }
    ensures space { IfSome result (λ found. IsTrue (is_at text.now found.1 32)) }
    ensures short { IfSome result (λ found. found.1 ≤ 4) }
{
    match text {
        [b't', b'i', b'c', b'k', b' ', ..] => Some((Word::Tick, 4)),
        [b'r', b'e', b'c', b'v', b' ', ..] => Some((Word::Recv, 4)),
        [b'a', b's', b'k', b' ', ..] => Some((Word::Ask, 3)),
        [b'f', b'i', b'x', b' ', ..] => Some((Word::Fix, 3)),
        _ => None,
    }
}

/// Reads the reference time and the device after the space at a place. A space follows them.
#[inline(always)]
fn read_head(text: &[u8], place: usize) -> Option<Head>
    requires room { place + 44 ≤ length text.now }
    requires space { IsTrue (is_at text.now place 32) }
    ensures head { IfSome result
        (λ head. HasHead text.now place head.end head.reference head.device) }
    ensures space { IfSome result (λ head. IsTrue (is_at text.now head.end 32)) }
    ensures short { IfSome result (λ head. head.end ≤ place + 24) }
    ensures reference { IfSome result (λ head. head.reference ≤ limit Amount) }
    ensures device { IfSome result (λ head. head.device ≤ limit Which) }
{
    let reference = number_at(text, place + 1, b' ')?;
    let device = short_at(text, reference.end + 1, b' ')?;
    Some(Head {
        reference: reference.number,
        device: device.number as u32,
        end: device.end,
    })
}
