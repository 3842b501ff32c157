//! A number at a place of a text, and the byte after it: its digits are read eight at a time, and
//! no limit is looked at, since so few digits make no number beyond it.
ghost use Rattle.std.specs.Prelude.{◌≡◌, ◌+◌, ◌*◌, ◌%◌, ◌^◌, ◌<◌, ◌≤◌, ℕ, List, length, take, drop, IfSome, IsTrue};
ghost use Rattle.std.specs.Str.Parse.{digits_value};
ghost use Rattle.std.specs.Float.Numeral.{digits_len};
ghost use Rattle.core.specs.Dec2flt.Digits.{IsEightBytes};
ghost use lib.Lanes.{number_l};
ghost use Rattle.sd_sched.specs.InPlace.{HasNumber, is_at};
ghost use Rattle.sd_sched.specs.Words.{IsOfDigits};

use crate::digits_by_eight::{Digits, digits_in, number_in, word_at};
use crate::fields::is_plain;
use core::dec2flt::ten_to;

/// A number that was read, and where it ends.
#[derive(Clone, Copy)]
pub struct Placed {
    pub number: u64,
    pub end: usize,
}

/// Reads the number at a place, if it has at most seven digits and this byte is after it.
#[inline(always)]
pub fn short_at(text: &[u8], from: usize, behind: u8) -> Option<Placed>
    requires { from + 8 ≤ length text.now }
    ensures number { IfSome result (λ placed. HasNumber 7 text.now from placed.end placed.number) }
    ensures behind { IfSome result (λ placed. IsTrue (is_at text.now placed.end behind)) }
    ensures short { IfSome result (λ placed. placed.end ≤ from + 7) }
{
    let digits = digits_in(word_at(text, from))?;
    ended(text, from, digits, behind)
}

/// Reads the number at a place, if it has at most fifteen digits and this byte is after it.
#[inline(always)]
pub fn number_at(text: &[u8], from: usize, behind: u8) -> Option<Placed>
    requires { from + 16 ≤ length text.now }
    ensures number { IfSome result (λ placed. HasNumber 15 text.now from placed.end placed.number) }
    ensures behind { IfSome result (λ placed. IsTrue (is_at text.now placed.end behind)) }
    ensures short { IfSome result (λ placed. placed.end ≤ from + 15) }
{
    let word = word_at(text, from);
    match digits_in(word) {
        Some(digits) => ended(text, from, digits, behind),
        None => {
            let more = digits_in(word_at(text, from + 8))?;
            ended(text, from, joined(word, more), behind)
        }
    }
}

/// Eight digits, and more after them.
#[inline(always)]
fn joined(word: u64, more: Digits) -> Digits
    requires digits { IsOfDigits word }
    requires few { more.count < 8 }
    ensures count { result.count ≡ 8 + more.count }
    ensures number { (bytes : List ℕ) → IsEightBytes bytes → word ≡ number_l 256 bytes
        → result.number ≡ (digits_value 10 bytes * 10 ^ more.count + more.number) % 2 ^ 64 }
{
    Digits {
        count: 8 + more.count,
        number: number_in(word)
            .wrapping_mul(ten_to(more.count as u64))
            .wrapping_add(more.number),
    }
}

/// The number of the digits at a place, if it is written as a number and this byte is after it.
#[inline(always)]
fn ended(text: &[u8], from: usize, digits: Digits, behind: u8) -> Option<Placed>
    requires inside { from + digits.count < length text.now }
    requires few { digits.count ≤ 15 }
    requires count { digits_len (drop from text.now) ≡ digits.count }
    requires number { digits_value 10 (take digits.count (drop from text.now)) ≡ digits.number }
    ensures number { IfSome result (λ placed. (most : ℕ) → digits.count ≤ most
        → HasNumber most text.now from placed.end placed.number) }
    ensures behind { IfSome result (λ placed. IsTrue (is_at text.now placed.end behind)) }
    ensures end { IfSome result (λ placed. placed.end ≡ from + digits.count) }
{
    let end = from + digits.count;
    if is_plain(&text[from..end]) && text[end] == behind {
        Some(Placed {
            number: digits.number,
            end,
        })
    } else {
        None
    }
}
