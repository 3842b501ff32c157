//! A file that is read whole.
ghost use Rattle.std.specs.Prelude.{◌≡◌, ◌<◌, ◌≤◌, ◌^◌, length, vec_len, Err, IsTrue, IfOk, IfSome};
ghost use Rattle.sd_io.specs.outside.Shelves.{KeepsShelf};
ghost use Rattle.sd_files.specs.Texts.{texts_of};

use sd_io::outside::Shelf;
use sd_io::stream::{WholeFault, read_whole};
use std::alloc::Global;

/// Begins a file and reads all of it.
pub fn read_file<S: Shelf>(alloc: Global, shelf: &mut S, name: &str) -> Result<Vec<u8>, WholeFault>
    requires { IsTrue (S.serves shelf.old name.now) }
    ensures whole { IfOk result
        (λ text. IfSome (S.held shelf.old) (λ held. text.items ≡ texts_of held name.now)) }
    ensures short { IfOk result (λ text. vec_len text ≤ 2 ^ 26) }
    ensures too_long { result ≡ Err WholeFault.TooLong
        → IfSome (S.held shelf.old) (λ held. 2 ^ 26 < length (texts_of held name.now)) }
    ensures shelf { KeepsShelf S.Shelf (result ≡ Err WholeFault.ReadFault) shelf.old shelf.new }
{
    match shelf.begin(name) {
        Ok(()) => read_whole(alloc, shelf),
        Err(_) => Err(WholeFault::ReadFault),
    }
}
