//! Digits in a word of eight bytes, the first of them lowest.
ghost use Rattle.std.specs.Prelude.{◌≡◌, ℕ, ◌+◌, ◌-◌, ◌*◌, ◌%◌, ◌^◌, ◌<◌, ◌≤◌, List, length, nat_le, IfSome, IfNone};
ghost use Rattle.core.specs.Int.Digits.{number_from_digits};
ghost use Rattle.core.specs.Dec2flt.Digits.{IsEightDigits};
ghost use Rattle.core.specs.Slice.Scan.{little_endian, digits_from, flag_word};
ghost use lib.Lanes.{number_l};
ghost use Rattle.sd_sched.specs.Words.{BeginsWith, IsOfDigits};

/// In each byte what takes a digit to its value, and any other byte to 10 or more.
const ZEROS: u64 = 0x3030_3030_3030_3030;

/// Digits that a word begins with.
#[derive(Clone, Copy)]
pub struct Digits {
    /// How many they are.
    pub count: usize,
    /// The number that they write.
    pub number: u64,
}

/// The eight bytes from a place on.
#[inline(always)]
pub fn word_at(bytes: &[u8], at: usize) -> u64
    requires { at + 8 ≤ length bytes.now }
    ensures { result ≡ little_endian bytes.now at }
{
    u64::from_le_bytes([
        bytes[at],
        bytes[at + 1],
        bytes[at + 2],
        bytes[at + 3],
        bytes[at + 4],
        bytes[at + 5],
        bytes[at + 6],
        bytes[at + 7],
    ])
}

/// The digits that a word begins with, unless all of its bytes are digits.
#[inline(always)]
pub fn digits_in(word: u64) -> Option<Digits>
    ensures few { IfSome result (λ digits. digits.count < 8) }
    ensures digits { IfSome result (λ digits. BeginsWith word digits.count digits.number) }
    ensures all { IfNone result (IsOfDigits word) }
{
    let lanes = word ^ ZEROS;
    let others = flags_from_ten(lanes);
    if others == 0 {
        return None;
    }
    let count = others.trailing_zeros() / 8;
    Some(Digits {
        count: count as usize,
        number: value_of_eight(keep_first(lanes, count)),
    })
}

/// The number that a word of eight digits writes.
#[inline(always)]
pub fn number_in(word: u64) -> u64
    requires { IsOfDigits word }
    ensures { BeginsWith word 8 result }
{
    value_of_eight(word ^ ZEROS)
}

/// The number that eight digits write, a digit's value in each byte.
#[inline(always)]
fn value_of_eight(word: u64) -> u64
    ensures { (digits : List ℕ) → IsEightDigits digits → word ≡ number_l 256 digits
        → result ≡ number_from_digits 10 digits }
{
    let pairs = word.wrapping_mul(10).wrapping_add(word >> 8);
    let first = (pairs & 0x0000_00ff_0000_00ff).wrapping_mul(100 + (1_000_000 << 32));
    let second = ((pairs >> 16) & 0x0000_00ff_0000_00ff).wrapping_mul(1 + (10_000 << 32));
    first.wrapping_add(second) >> 32
}

/// The high bit of each byte that is 10 or more. No sum carries into the next byte.
#[inline(always)]
fn flags_from_ten(word: u64) -> u64
    ensures { (byte : ℕ → ℕ) → ((k : ℕ) → byte k < 256) → word ≡ digits_from byte 0 8
        → result ≡ flag_word (λ k. nat_le 10 (byte k)) }
{
    ((word & 0x7f7f_7f7f_7f7f_7f7f) + 0x7676_7676_7676_7676 | word) & 0x8080_8080_8080_8080
}

/// The word with this many of its first bytes moved up to its end.
#[inline(always)]
fn keep_first(word: u64, count: u32) -> u64
    requires { count < 8 }
    ensures { result ≡ word * 256 ^ (8 - count) % 2 ^ 64 }
{
    // two shifts, since a shift by 64 is not defined
    word << (56 - 8 * count) << 8
}
