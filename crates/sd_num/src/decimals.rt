//! Decimal numbers: the digits at the front of bytes, and bytes that are a number.
ghost use Rattle.std.specs.Prelude.{not, position, ◌≡◌, ◌≤◌, ◌<◌, ◌^◌, length, min, take, IsTrue, Some, None, nat_lt, if◌then◌else◌};
ghost use Rattle.std.specs.List.{list_all};
ghost use Rattle.sd_num.specs.Decimals.{number, number_of_digits, is_digit, value};
ghost use Rattle.sd_num.specs.Digits.{leading_digits};

use crate::NumFault;

/// How many digits fit a `u64` whatever they are.
const SAFE_DIGITS: usize = 19;

/// The digits at the front of bytes, at most 19 of them.
#[derive(Clone, Copy, Debug, PartialEq, Eq)]
pub struct Leading {
    /// How many digits there are.
    pub len: usize,
    /// What they mean.
    pub value: u64,
}

/// Reads the digits at the front of bytes, up to 19 of them: these fit a `u64` whatever they are.
pub fn leading_number(bytes: &[u8]) -> Leading
    ensures len { result.len ≡ min 19 (leading_digits bytes.now) }
    ensures inside { result.len ≤ length bytes.now }
    ensures value { result.value ≡ value (take result.len bytes.now) }
    ensures digits { IsTrue (list_all is_digit (take result.len bytes.now)) }
{
    let reach = bytes.len().min(SAFE_DIGITS);
    let mut value = 0u64;
    for place in 0..reach {
        let byte = bytes[place];
        if !byte.is_ascii_digit() {
            return Leading { len: place, value };
        }
        value = value * 10 + u64::from(byte - b'0');
    }
    Leading { len: reach, value }
}

/// Reads a number of decimal digits, or says the first fault in the order of `NumFault`.
pub fn read_u64(bytes: &[u8]) -> Result<u64, NumFault>
    ensures { result ≡ number bytes.now }
{
    let digits = leading_number(bytes);
    if digits.len < bytes.len() {
        return read_long(bytes);
    }
    match bytes {
        [] => Err(NumFault::Empty),
        [b'0', _, ..] => Err(NumFault::LeadingZero),
        _ => Ok(digits.value),
    }
}

/// Reads bytes that are not all digits, or too many digits for one pass.
fn read_long(bytes: &[u8]) -> Result<u64, NumFault>
    requires { 0 < length bytes.now }
    ensures { result ≡ number bytes.now }
{
    match first_other(bytes) {
        Some(place) => Err(NumFault::NotDigit(place)),
        None => read_digits(bytes),
    }
}

/// The place of the first byte that is no digit.
fn first_other(bytes: &[u8]) -> Option<usize>
    ensures { result ≡ position (λ b. not (is_digit b)) bytes.now }
{
    bytes.iter().position(|byte| !byte.is_ascii_digit())
}

/// Reads digits that may be too many.
fn read_digits(bytes: &[u8]) -> Result<u64, NumFault>
    requires { IsTrue (list_all is_digit bytes.now) }
    ensures { result ≡ number_of_digits bytes.now }
{
    if let [b'0', _, ..] = bytes {
        return Err(NumFault::LeadingZero);
    }
    match value_of(bytes) {
        Some(value) => Ok(value),
        None => Err(NumFault::TooLarge),
    }
}

/// The value of digits, where a `u64` holds it.
fn value_of(bytes: &[u8]) -> Option<u64>
    requires { IsTrue (list_all is_digit bytes.now) }
    ensures { result
        ≡ (if nat_lt (value bytes.now) (2 ^ 64) then Some (value bytes.now) else None) }
{
    let mut value = 0u64;
    for byte in bytes {
        value = value.checked_mul(10)?.checked_add(u64::from(*byte - b'0'))?;
    }
    Some(value)
}
