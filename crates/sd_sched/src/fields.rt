//! The fields of a line, each read as it is found: the bytes of a line that is no refusal are
//! looked at once.
ghost use Rattle.std.specs.Prelude.{◌≡◌, ◌≤◌, length, take, drop, [], position, nat_eq, nat_lt, not, ◌&&◌, slice_get, true, false, Err, Ok, Some, IfOk, IfErr, IfSome, IfNone};
ghost use Rattle.sd_num.specs.Lists.{map_or};
ghost use Rattle.sd_num.specs.Decimals.{number as number_of, leads_with_zero};
ghost use Rattle.sd_sched.specs.Lines.{fields, first_field as first_of, event_of_line, field_number, limit, number_within};
ghost use Rattle.sd_sched.specs.Spelled.{is_word};
ghost use Rattle.sd_sched.specs.Reading.{WithinFrom, fault_of as fault_at, fields_behind, reported_first as reported_first_of, numbers_from};
ghost use Rattle.sd_sched.specs.declared.LineFault.TheVariants.{UnknownWord};

use crate::LineFault;
use crate::words::{Field, MOST_FIELDS};
use sd_num::{leading_number, read_u64};

/// The greatest number of a field that names no device and no link.
const MOST_AMOUNT: u64 = 1 << 60;

/// The greatest number of a device or a link.
const MOST_WHICH: u64 = (1 << 32) - 1;

/// A field that was read.
#[derive(Clone, Copy)]
pub struct Found<'a> {
    /// Its number, unless it has none within its limit.
    pub number: Option<u64>,
    /// What is left of the line after it: nothing, or a space and more fields.
    pub left: &'a [u8],
}

/// The numbers of the fields after a word, or the fault of the line. What is after the word is
/// nothing, or a space and the fields.
pub fn read_fields(shape: &[Field], behind: &[u8]) -> Result<[u64; MOST_FIELDS], LineFault>
    requires { length shape.now ≤ MOST_FIELDS }
    ensures numbers { IfOk result (λ ns. numbers_from 1 shape.now (fields_behind behind.now)
        ≡ Ok (take (length shape.now) ns)) }
    ensures fault { IfErr result
        (λ f. numbers_from 1 shape.now (fields_behind behind.now) ≡ Err f) }
    ensures within { IfOk result (λ ns. WithinFrom 0 shape.now ns) }
{
    let mut numbers = [0; MOST_FIELDS];
    let mut fault = None;
    let mut left = behind;
    for (place, field) in shape.iter().enumerate() {
        let Some(bytes) = behind_space(left) else {
            return Err(LineFault::FieldCount);
        };
        let found = read_field(*field, bytes);
        match found.number {
            Some(number) => numbers[place] = number,
            None => fault = Some(reported_first(fault, fault_of(*field, place as u8 + 1))),
        }
        left = found.left;
    }
    if !left.is_empty() {
        return Err(LineFault::FieldCount);
    }
    match fault {
        None => Ok(numbers),
        Some(fault) => Err(fault),
    }
}

/// What follows the space that ends a field, unless the line ends with the field.
pub fn behind_space(left: &[u8]) -> Option<&[u8]>
    ensures more { IfSome result (λ bytes. fields_behind left.now ≡ fields bytes.now) }
    ensures none { IfNone result (fields_behind left.now ≡ []) }
{
    match left {
        [] => None,
        [_, bytes @ ..] => Some(bytes),
    }
}

/// Why a field that has no number is refused: its place is counted from 1.
fn fault_of(field: Field, place: u8) -> LineFault
    ensures { result ≡ fault_at field place }
{
    match field {
        Field::Amount | Field::Which => LineFault::Number(place),
        Field::Kind => LineFault::UnknownWord,
    }
}

/// The fault that is answered where there are two.
fn reported_first(first: Option<LineFault>, second: LineFault) -> LineFault
    ensures { result ≡ map_or first second (λ f. reported_first_of f second) }
{
    match (first, second) {
        (Some(first), LineFault::Number(_)) => first,
        _ => second,
    }
}

/// Reads the field at the front of the bytes.
#[inline(always)]
pub fn read_field(field: Field, bytes: &[u8]) -> Found<'_>
    ensures number { result.number ≡ field_number field (first_of bytes.now) }
    ensures within { IfSome result.number (λ n. n ≤ limit field) }
    ensures left { result.left.now ≡ drop (length (first_of bytes.now)) bytes.now }
{
    match field {
        Field::Amount => read_number(bytes, MOST_AMOUNT),
        Field::Which => read_number(bytes, MOST_WHICH),
        Field::Kind => read_kind(bytes),
    }
}

/// Reads the number at the front of the bytes, which is to be at most the given one.
#[inline(always)]
pub fn read_number(bytes: &[u8], most: u64) -> Found<'_>
    ensures number { result.number ≡ number_within most (number_of (first_of bytes.now)) }
    ensures within { IfSome result.number (λ n. n ≤ most) }
    ensures left { result.left.now ≡ drop (length (first_of bytes.now)) bytes.now }
{
    let digits = leading_number(bytes);
    if !ends_at(bytes, digits.len) || !is_plain(&bytes[..digits.len]) {
        return read_refused(bytes, most);
    }
    Found {
        number: within(digits.value, most),
        left: &bytes[digits.len..],
    }
}

/// A number, where it is at most the given one.
fn within(number: u64, most: u64) -> Option<u64>
    ensures number { result ≡ number_within most (Ok number) }
    ensures within { IfSome result (λ n. n ≤ most) }
{
    if number <= most { Some(number) } else { None }
}

/// Whether digits are a number: there is one, and no other stands after a leading `0`.
pub fn is_plain(digits: &[u8]) -> bool
    ensures { result ≡ (nat_lt 0 (length digits.now) && not (leads_with_zero digits.now)) }
{
    match digits {
        [] => false,
        [b'0', more @ ..] => more.is_empty(),
        _ => true,
    }
}

/// Whether a field ends at a place: with the line, or at a space.
fn ends_at(bytes: &[u8], place: usize) -> bool
    ensures { result ≡ map_or (slice_get bytes.now place) true (λ byte. nat_eq byte 32) }
{
    match bytes.get(place) {
        Some(byte) => *byte == b' ',
        None => true,
    }
}

/// Reads a field that does not begin as a number within the limits does, once more from its start:
/// its line is refused.
#[cold]
#[inline(never)]
fn read_refused(bytes: &[u8], most: u64) -> Found<'_>
    ensures number { result.number ≡ number_within most (number_of (first_of bytes.now)) }
    ensures within { IfSome result.number (λ n. n ≤ most) }
    ensures left { result.left.now ≡ drop (length (first_of bytes.now)) bytes.now }
{
    let field = first_field(bytes);
    let number = match read_u64(field) {
        Ok(number) => within(number, most),
        Err(_) => None,
    };
    Found {
        number,
        left: &bytes[field.len()..],
    }
}

/// Reads the field at the front of the bytes, which says what the number after it names.
fn read_kind(bytes: &[u8]) -> Found<'_>
    ensures number { result.number ≡ field_number Field.Kind (first_of bytes.now) }
    ensures within { IfSome result.number (λ n. n ≤ 1) }
    ensures left { result.left.now ≡ drop (length (first_of bytes.now)) bytes.now }
{
    let field = first_field(bytes);
    let number = match field {
        b"device" => Some(0),
        b"link" => Some(1),
        _ => None,
    };
    Found {
        number,
        left: &bytes[field.len()..],
    }
}

/// What stands before the first space of a line, or all of it.
pub fn first_field(bytes: &[u8]) -> &[u8]
    ensures field { result.now ≡ first_of bytes.now }
    ensures len { length result.now ≤ length bytes.now }
    // A line that begins with no word of the schedule is refused, whatever follows.
    ensures unknown { is_word result.now ≡ false → event_of_line bytes.now ≡ Err UnknownWord }
{
    match space_in(bytes) {
        Some(end) => &bytes[..end],
        None => bytes,
    }
}

/// Where the first space is.
fn space_in(bytes: &[u8]) -> Option<usize>
    ensures { result ≡ position (λ byte. nat_eq byte 32) bytes.now }
{
    bytes.iter().position(|byte| *byte == b' ')
}
