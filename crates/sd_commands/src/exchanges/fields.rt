//! The seven numbers after the word of an exchange, each read as it is found.
ghost use Rattle.std.specs.Prelude.{◌≡◌, ◌≤◌, ◌-◌, ◌^◌, Err, IfErr, IfOk, Ok, slice_index};
ghost use Rattle.sd_sched.specs.Reading.{fields_behind};
ghost use Rattle.sd_commands.specs.exchanges.Lines.{seven_numbers};
ghost use Rattle.sd_commands.specs.exchanges.Limits.{AreWithin};

use crate::exchanges::ExchangeLineFault;
use sd_sched::{behind_space, read_number};

/// How many fields stand after the word of an exchange.
pub const FIELDS: usize = 7;

/// The greatest number of each: the link, the side, the asymmetry in ps, and the four counters.
const LIMITS: [u64; FIELDS] = [
    (1 << 32) - 1,
    1,
    1_000_000_000_000,
    1 << 60,
    1 << 60,
    1 << 60,
    1 << 60,
];

/// The numbers of the fields, or the fault of the line. What is after the word is nothing, or a
/// space and the fields.
pub fn read_numbers(behind: &[u8]) -> Result<[u64; FIELDS], ExchangeLineFault>
    ensures numbers { IfOk result (λ ns. seven_numbers (fields_behind behind.now) ≡ Ok ns) }
    ensures fault { IfErr result (λ f. seven_numbers (fields_behind behind.now) ≡ Err f) }
    ensures within { IfOk result (λ ns. AreWithin ns) }
{
    let mut numbers = [0; FIELDS];
    let mut refused = None;
    let mut left = behind;
    for (place, most) in LIMITS.iter().enumerate() {
        let Some(bytes) = behind_space(left) else {
            return Err(ExchangeLineFault::FieldCount);
        };
        let found = read_number(bytes, *most);
        match found.number {
            Some(number) => numbers[place] = number,
            None => refused = Some(refused.unwrap_or(place as u8 + 1)),
        }
        left = found.left;
    }
    if !left.is_empty() {
        return Err(ExchangeLineFault::FieldCount);
    }
    match refused {
        None => Ok(numbers),
        Some(place) => Err(ExchangeLineFault::Number(place)),
    }
}
