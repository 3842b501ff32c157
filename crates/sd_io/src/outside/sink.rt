//! What a sink is: where bytes go to.
ghost use Rattle.std.specs.Prelude.{ℕ, Option, OnOk, OnErr};
ghost use Rattle.sd_io.specs.outside.Causes.{HasCause};
ghost use Rattle.sd_io.specs.outside.Pieces.{AddsFront, AddsPieces, Pieces, piece_of};

use crate::outside::shelf::Failed;

/// Where bytes go.
pub trait Sink {
    /// The bytes of each write so far, in order, where they are told. A write of no bytes is none.
    ghost written: { Self → Option Pieces };

    /// How often the outside has failed, counted up to the end of a `u64`.
    ghost faults: { Self → ℕ };

    /// Adds all of the bytes as one piece, or fails and has added a front of them.
    fn write(&mut self, bytes: &[u8]) -> Result<(), Failed>
        ensures all { OnOk result
            (AddsPieces (written self.old) (written self.new) (piece_of bytes.now)) }
        ensures front { OnErr result
            (AddsFront (written self.old) (written self.new) (piece_of bytes.now)) }
        ensures cause { HasCause (faults self.old) (faults self.new) result };
}
