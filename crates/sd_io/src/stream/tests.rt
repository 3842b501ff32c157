//! Lines from any pieces, refusals, and a caller's loop.
ghost use Rattle.std.specs.Prelude.{◌≡◌, ◌≤◌, [], length, IsTrue, IfOk, IfSome};
ghost use Rattle.std.specs.Result.{IsErrOf};
ghost use Rattle.sd_io.specs.outside.Shelves.{KeepsShelf};
ghost use Rattle.sd_io.specs.stream.Lines.{lines};
ghost use Rattle.sd_io.specs.stream.Buffered.{buffered};

use crate::outside::{MemShelf, Shelf};
use crate::stream::buffer::Buffer;
use crate::stream::faults::{StreamFault, WholeFault};
use crate::stream::reader::LineReader;
use crate::stream::whole::read_whole;
use std::test::Fail;

/// A caller's loop over any shelf. It ends, counts the lines where the text is told, and knows of
/// the shelf afterwards what a caller needs to go on with it.
fn count_lines<S: Shelf>(shelf: &mut S, buffer: Buffer) -> Result<u64, StreamFault>
    requires begun { IsTrue (S.begun shelf.old) }
    requires empty { buffered buffer ≡ [] }
    ensures count { IfOk result (λ n. IfSome (S.rest shelf.old) (λ text. n ≡ length (lines text))) }
    ensures begun { IsTrue (S.begun shelf.new) }
    ensures shelf { KeepsShelf S.Shelf (IsErrOf result StreamFault.ReadFault) shelf.old shelf.new }
{
    let mut reader = LineReader::over(shelf, buffer);
    let mut count = 0;
    'lines: loop {
        match reader.next_line()? {
            Some(_) => count += 1,
            None => return Ok(count),
        }
    }
}

/// A shelf whose one text is begun, and the calls that fail. Beginning is the first call.
fn begun_shelf(
    rt: &HostRuntime,
    text: &[u8],
    piece: usize,
    failing: &[u64],
) -> Result<MemShelf, Fail>
    requires { 1 ≤ piece }
    ensures { IfOk result (λ s. IsTrue s.begun) }
{
    let mut files = Vec::new(rt.alloc());
    let name = String::from_str(rt.alloc(), "text")?;
    files.push((name, Vec::from_slice(rt.alloc(), text)?))?;
    let failing = Vec::from_slice(rt.alloc(), failing)?;
    let mut shelf = MemShelf::new(files, piece, failing);
    shelf.begin("text")?;
    Ok(shelf)
}

#[test]
fn goes_on_after_a_fault(rt: HostRuntime) -> Result<(), Fail> {
    let mut shelf = begun_shelf(&rt, b"a\nb\n", 2, &[3])?;
    let mut reader = LineReader::new(rt.alloc(), &mut shelf)?;
    assert_eq!(rt; reader.next_line(), Ok(Some(b"a".as_slice())));
    assert_eq!(rt; reader.next_line(), Err(StreamFault::ReadFault));
    assert_eq!(rt; reader.next_line(), Ok(Some(b"b".as_slice())));
    assert_eq!(rt; reader.next_line(), Ok(None));
    assert_eq!(rt; reader.next_line(), Ok(None));
    Ok(())
}

/// The lengths of the lines of a text, the last of which lacks its newline.
const LENGTHS: [usize; 7] = [0, 1, 4096, 44, 4095, 4096, 5];

#[test]
fn lends_lines_from_any_pieces(rt: HostRuntime) -> Result<(), Fail> {
    let mut text = Vec::new(rt.alloc());
    for length in LENGTHS {
        text.extend_from_slice(vec![in rt.alloc(); b'x'; length]?.as_slice())?;
        text.push(b'\n')?;
    }
    text.pop();
    for piece in [1, 7, 4096, 8192] {
        assert!(rt; piece >= 1);
        let mut shelf = begun_shelf(&rt, text.as_slice(), piece, &[])?;
        let mut reader = LineReader::new(rt.alloc(), &mut shelf)?;
        for length in LENGTHS {
            let line = vec![in rt.alloc(); b'x'; length]?;
            assert_eq!(rt;
                reader.next_line(),
                Ok(Some(line.as_slice())),
                "{length} from {piece}"
            );
        }
        assert_eq!(rt; reader.next_line(), Ok(None));
    }
    Ok(())
}

#[test]
fn refuses_a_long_line_again_and_reads_no_further(rt: HostRuntime) -> Result<(), Fail> {
    let mut text = Vec::from_slice(rt.alloc(), b"x\n")?;
    text.extend_from_slice(vec![in rt.alloc(); b'y'; 20000]?.as_slice())?;
    let mut shelf = begun_shelf(&rt, text.as_slice(), 8192, &[3])?;
    let mut reader = LineReader::new(rt.alloc(), &mut shelf)?;
    assert_eq!(rt; reader.next_line(), Ok(Some(b"x".as_slice())));
    assert_eq!(rt; reader.next_line(), Err(StreamFault::LongLine));
    assert_eq!(rt; reader.next_line(), Err(StreamFault::LongLine));
    drop(reader);
    assert_eq!(rt; shelf.left().len(), 11810);
    Ok(())
}

#[test]
fn counts_lines_as_a_caller_does(rt: HostRuntime) -> Result<(), Fail> {
    for (text, count) in [
        (b"".as_slice(), 0),
        (b"\n".as_slice(), 1),
        (b"a\n\nb".as_slice(), 3),
    ] {
        let mut shelf = begun_shelf(&rt, text, 1, &[])?;
        assert_eq!(rt;
            count_lines(&mut shelf, Buffer::new(rt.alloc())?),
            Ok(count)
        );
    }
    Ok(())
}

#[test]
fn reads_texts_whole(rt: HostRuntime) -> Result<(), Fail> {
    let text = vec![in rt.alloc(); b'x'; 10000]?;
    let mut shelf = begun_shelf(&rt, text.as_slice(), 4000, &[])?;
    assert_eq!(rt;
        read_whole(rt.alloc(), &mut shelf)?.as_slice(),
        text.as_slice()
    );

    let mut shelf = begun_shelf(&rt, text.as_slice(), 4000, &[3])?;
    match read_whole(rt.alloc(), &mut shelf) {
        Ok(_) => assert!(rt; false, "a failed read is no end of the text"),
        Err(fault) => assert_eq!(rt; fault, WholeFault::ReadFault),
    }
    assert_eq!(rt; shelf.left().len(), 6000);
    assert_eq!(rt; read_whole(rt.alloc(), &mut shelf)?.len(), 6000);
    Ok(())
}
