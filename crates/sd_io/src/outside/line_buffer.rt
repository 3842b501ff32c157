//! One buffer for the lines of a step: its memory is taken once, and printing takes none.
ghost use Rattle.std.specs.Prelude.{◌≡◌, ◌+◌, ◌≤◌, ◌++◌, [], length, decimal, IfOk, IfSome, OnOk};
ghost use Rattle.std.specs.Vec.{vec_capacity};

use crate::outside::room::append;
use sd_num::NoMemory;
use std::alloc::Global;
use std::fmt;
use std::fmt::Write;

/// For how many bytes a line buffer has room.
const ROOM: usize = 256;

/// The printed lines of a step, 256 bytes at most.
#[derive(Drop)]
pub struct LineBuffer {
    bytes: Vec<u8>,
    ghost room: { 256 ≤ vec_capacity bytes },
}

impl LineBuffer {
    ghost use Rattle.sd_io.specs.outside.Printed.{printed};

    /// Takes the memory for all lines that are ever printed into it.
    pub fn new(alloc: Global) -> Result<LineBuffer, NoMemory>
        ensures { IfOk result (λ b. printed b ≡ []) }
    {
        match Vec::with_capacity(alloc, ROOM) {
            Ok(bytes) => Ok(LineBuffer { bytes }),
            Err(_) => Err(NoMemory),
        }
    }

    /// What was printed since the last `clear`.
    pub fn printed(&self) -> &[u8]
        ensures { result.now ≡ printed self.now }
    {
        self.bytes.as_slice()
    }

    /// Forgets what was printed.
    pub fn clear(&mut self)
        ensures { printed self.new ≡ [] }
    {
        self.bytes.clear();
    }

    /// Adds bytes.
    pub fn push(&mut self, more: &[u8])
        requires { length (printed self.old) + length more.now ≤ 256 }
        ensures { printed self.new ≡ printed self.old ++ more.now }
    {
        append(&mut self.bytes, more);
    }

    /// Adds the digits of a number, of which there are at most 40.
    pub fn push_number(&mut self, number: u128)
        requires { length (printed self.old) + 40 ≤ 256 }
        ensures text { printed self.new ≡ printed self.old ++ decimal number }
        ensures short { length (printed self.new) ≤ length (printed self.old) + 40 }
    {
        let mut digits = itoa::Buffer::new();
        self.push(digits.format(number).as_bytes());
    }

    /// Adds what is displayed. Where there is no room for all of it, some front of it is added.
    pub fn push_displayed<D: fmt::Display + Drop>(&mut self, value: D) -> Result<(), NoMemory>
        ensures { OnOk result
            (IfSome (D.output value) (λ text. printed self.new ≡ printed self.old ++ text)) }
    {
        match self.write(value) {
            Ok(()) => Ok(()),
            Err(_) => Err(NoMemory),
        }
    }
}

impl fmt::Write for LineBuffer {
    ghost use Rattle.sd_io.specs.outside.Printed.{Prints};

    ghost write_str_gives = { Prints };

    fn write_str(&mut self, text: &str) -> fmt::Result {
        if self.bytes.len() > ROOM || text.len() > ROOM - self.bytes.len() {
            return Err(fmt::Error);
        }
        self.push(text.as_bytes());
        Ok(())
    }
}

#[cfg(test)]
mod tests {
    use super::*;
    use std::test::Fail;

    #[test]
    fn prints_line_after_line(rt: HostRuntime) -> Result<(), Fail> {
        let mut line = LineBuffer::new(rt.alloc())?;
        line.push(b"report ");
        line.push_number(340_282_366_920_938_463_463_374_607_431_768_211_455);
        assert_eq!(rt;
            line.printed(),
            b"report 340282366920938463463374607431768211455".as_slice()
        );
        line.clear();
        line.push_number(0);
        assert_eq!(rt; line.printed(), b"0".as_slice());
        Ok(())
    }
}
