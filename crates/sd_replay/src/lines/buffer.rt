//! A buffer for the lines of one event: its memory is taken once, and printing takes none.
ghost use Rattle.std.specs.Prelude.{◌≡◌, ◌+◌, ◌≤◌, ◌++◌, [], length, decimal, IfOk};
ghost use Rattle.std.specs.Vec.{vec_capacity};

use sd_num::NoMemory;
use std::alloc::Global;

/// For how many bytes there is room.
const ROOM: usize = 2048;

/// The lines of one event, 2048 bytes at most.
#[derive(Drop)]
pub struct EventLines {
    bytes: Vec<u8>,
    ghost room: { 2048 ≤ vec_capacity bytes },
}

impl EventLines {
    ghost use Rattle.sd_replay.specs.lines.Printed.{printed};

    /// Takes the memory for the lines of any event. None are printed yet.
    pub fn new(alloc: Global) -> Result<EventLines, NoMemory>
        ensures { IfOk result (λ lines. printed lines ≡ []) }
    {
        match Vec::with_capacity(alloc, ROOM) {
            Ok(bytes) => Ok(EventLines { bytes }),
            Err(_) => Err(NoMemory),
        }
    }

    /// The lines.
    pub fn as_bytes(&self) -> &[u8]
        ensures { result.now ≡ printed self.now }
    {
        self.bytes.as_slice()
    }

    /// Forgets what was printed.
    pub fn clear(&mut self)
        ensures { printed self.new ≡ [] }
    {
        self.bytes.clear();
    }

    /// Adds bytes.
    pub(crate) fn push(&mut self, more: &[u8])
        requires { length (printed self.old) + length more.now ≤ 2048 }
        ensures { printed self.new ≡ printed self.old ++ more.now }
    {
        match self.bytes.extend_from_slice(more) {
            Ok(()) => {}
            Err(_) => unreachable!(),
        }
    }

    /// Adds the digits of a number, of which there are at most 40.
    pub(crate) fn push_number(&mut self, number: u128)
        requires { length (printed self.old) + 40 ≤ 2048 }
        ensures text { printed self.new ≡ printed self.old ++ decimal number }
        ensures short { length (printed self.new) ≤ length (printed self.old) + 40 }
    {
        let mut digits = itoa::Buffer::new();
        self.push(digits.format(number).as_bytes());
    }
}
