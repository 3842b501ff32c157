//! A line of an exchanges text: its word and the numbers of its fields.
ghost use Rattle.std.specs.Prelude.{◌≡◌, false, codes, IfOk, IfSome, IfNone};
ghost use Rattle.sd_sched.specs.Reading.{fields_behind};
ghost use Rattle.sd_commands.specs.exchanges.Lines.{exchange_line, exchange_of as line_of, line_of_word};
ghost use Rattle.sd_commands.specs.exchanges.Limits.{AreWithin, IsWithin, is_word};
ghost use Rattle.sd_commands.specs.exchanges.Spelled.{spelled};

use crate::exchanges::fields::{FIELDS, read_numbers};
use crate::exchanges::{Exchange, ExchangeLine, ExchangeLineFault};
use sd_sched::first_field;

/// What a line without its newline says, or why it says nothing: `exchange LINK SIDE ASYM T1 T2 T3
/// T4` or `end`. The numbers are decimal, LINK to 2^32 - 1, SIDE to 1, ASYM to 10^12 ps and the
/// counters to 2^60 ps.
pub fn read_exchange(bytes: &[u8]) -> Result<ExchangeLine, ExchangeLineFault>
    ensures line { result ≡ exchange_line bytes.now }
    ensures within { IfOk result (λ line. IsWithin line) }
{
    let word = first_field(bytes);
    let behind = &bytes[word.len()..];
    match word_of(word) {
        Some(Word::Exchange) => {
            let numbers = read_numbers(behind)?;
            Ok(exchange_of(&numbers))
        }
        Some(Word::End) => read_end(behind),
        None => Err(ExchangeLineFault::UnknownWord),
    }
}

/// What a line begins with.
#[derive(Clone, Copy)]
enum Word {
    Exchange,
    End,
}

/// The word that a field spells.
#[tactic(auto, unfolding(crate::specs::exchanges::Limits::is_word))]
fn word_of(field: &[u8]) -> Option<Word>
    ensures known { IfSome result (λ word. field.now ≡ spelled word) }
    ensures unknown { IfNone result (is_word field.now ≡ false) }
{
    match field {
        b"exchange" => Some(Word::Exchange),
        b"end" => Some(Word::End),
        _ => None,
    }
}

/// What a line says that begins with `end`: nothing may stand after it.
fn read_end(behind: &[u8]) -> Result<ExchangeLine, ExchangeLineFault>
    ensures line { result ≡ line_of_word (codes "end") (fields_behind behind.now) }
    ensures within { IfOk result (λ line. IsWithin line) }
{
    if behind.is_empty() {
        Ok(ExchangeLine::End)
    } else {
        Err(ExchangeLineFault::FieldCount)
    }
}

/// The exchange of seven numbers.
fn exchange_of(numbers: &[u64; FIELDS]) -> ExchangeLine
    requires { AreWithin numbers.now }
    ensures line { result ≡ line_of numbers.now }
    ensures within { IsWithin result }
{
    ExchangeLine::Exchange {
        link: numbers[0] as u32,
        side: numbers[1] as u8,
        exchange: Exchange {
            asym: numbers[2],
            t1: numbers[3],
            t2: numbers[4],
            t3: numbers[5],
            t4: numbers[6],
        },
    }
}
