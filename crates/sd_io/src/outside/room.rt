//! Bytes and numbers added where room was made before.
ghost use Rattle.std.specs.Prelude.{◌≡◌, ◌+◌, ◌<◌, ◌≤◌, ◌++◌, ◌∷◌, [], length, vec_len};
ghost use Rattle.std.specs.Vec.{vec_capacity};
ghost use Rattle.sd_io.specs.outside.Pieces.{piece_of};
ghost use Rattle.sd_io.specs.outside.MemSink.{cut_by, total};

/// Adds bytes for which there is room.
pub(crate) fn append(bytes: &mut Vec<u8>, more: &[u8])
    requires { vec_len bytes.old + length more.now ≤ vec_capacity bytes.old }
    ensures items { bytes.new.items ≡ bytes.old.items ++ more.now }
    ensures len { vec_len bytes.new ≡ vec_len bytes.old + length more.now }
    ensures capacity { vec_capacity bytes.old ≤ vec_capacity bytes.new }
{
    match bytes.extend_from_slice(more) {
        Ok(()) => {}
        Err(_) => unreachable!(),
    }
}

/// Adds a number for which there is room.
fn push(numbers: &mut Vec<usize>, number: usize)
    requires { vec_len numbers.old < vec_capacity numbers.old }
    ensures items { numbers.new.items ≡ numbers.old.items ++ number ∷ [] }
    ensures len { vec_len numbers.new ≡ vec_len numbers.old + 1 }
    ensures capacity { vec_capacity numbers.old ≤ vec_capacity numbers.new }
{
    match numbers.push(number) {
        Ok(()) => {}
        Err(_) => unreachable!(),
    }
}

/// Adds a piece to bytes that stand in pieces of this many bytes each.
pub(crate) fn add_piece(bytes: &mut Vec<u8>, counts: &mut Vec<usize>, more: &[u8])
    requires whole { total counts.old.items ≡ length bytes.old.items }
    requires few { vec_len counts.old ≤ vec_len bytes.old }
    requires room { vec_len bytes.old + length more.now ≤ vec_capacity bytes.old }
    requires room_for_count { vec_len bytes.old + length more.now ≤ vec_capacity counts.old }
    ensures bytes { bytes.new.items ≡ bytes.old.items ++ more.now }
    ensures pieces { cut_by counts.new.items bytes.new.items
        ≡ cut_by counts.old.items bytes.old.items ++ piece_of more.now }
    ensures whole { total counts.new.items ≡ length bytes.new.items }
    ensures few { vec_len counts.new ≤ vec_len bytes.new }
    ensures len { vec_len bytes.new ≡ vec_len bytes.old + length more.now }
    ensures capacity { vec_capacity bytes.old ≤ vec_capacity bytes.new }
    ensures count_capacity { vec_capacity counts.old ≤ vec_capacity counts.new }
{
    if more.is_empty() {
        return;
    }
    append(bytes, more);
    push(counts, more.len());
}
