//! A text read whole.
ghost use Rattle.std.specs.Prelude.{◌≡◌, ◌^◌, ◌<◌, ◌≤◌, ℕ, List, length, Err, IsTrue, IfOk, OnOk, OnErr, IfSome, vec_len};
ghost use Rattle.std.specs.Result.{IsErrOf};
ghost use Rattle.std.specs.Io.KnownBytes.{Consumes, IsAtEnd};
ghost use Rattle.sd_io.specs.outside.Shelves.{KeepsShelf};

use crate::outside::Shelf;
use crate::stream::faults::WholeFault;
use std::alloc::Global;

/// The most bytes of a text that is read whole: 2^26.
const LIMIT: usize = 67_108_864;

/// All that is left of the begun text.
pub fn read_whole<S: Shelf>(alloc: Global, shelf: &mut S) -> Result<Vec<u8>, WholeFault>
    requires { IsTrue (S.begun shelf.old) }

    // The text, and that it has no more than 2^26 bytes.
    ensures whole { IfOk result (λ v. IfSome (S.rest shelf.old) (λ bytes. v.items ≡ bytes)) }
    ensures end { OnOk result (IsAtEnd (S.rest shelf.new)) }
    ensures short { IfOk result (λ v. vec_len v ≤ 2 ^ 26) }

    // Each fault. After it the shelf has given a prefix of what was left.
    ensures too_long { IsErrOf result WholeFault.TooLong
        → IfSome (S.rest shelf.old) (λ bytes. 2 ^ 26 < length bytes) }
    ensures given { OnErr result
        ((front : List ℕ) × Consumes (S.rest shelf.old) (S.rest shelf.new) front) }

    ensures begun { IsTrue (S.begun shelf.new) }
    ensures shelf { KeepsShelf S.Shelf (result ≡ Err WholeFault.ReadFault) shelf.old shelf.new }
{
    let mut bytes = Vec::new(alloc);
    let mut piece = [0u8; 4096];
    while bytes.len() <= LIMIT {
        let count = match shelf.read(&mut piece) {
            Ok(count) => count,
            Err(_) => return Err(WholeFault::ReadFault),
        };
        if count == 0 {
            return Ok(bytes);
        }
        match bytes.extend_from_slice(&piece[..count]) {
            Ok(()) => {}
            Err(_) => return Err(WholeFault::Memory),
        }
    }
    Err(WholeFault::TooLong)
}
