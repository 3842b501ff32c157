//! Why a line of exchanges is refused, as it is printed.
ghost use Rattle.std.specs.Prelude.{◌≡◌, ◌≤◌, length};
ghost use Rattle.sd_io.specs.outside.Printed.{printed};
ghost use Rattle.sd_commands.specs.twoway.Judged.{exchange_line_reason, reason, span_reason};

use crate::exchanges::{ExchangeFault, ExchangeLineFault};
use crate::twoway::TwowayFault;
use sd_io::outside::LineBuffer;

/// Prints why a line is refused.
pub fn print_reason(out: &mut LineBuffer, fault: TwowayFault)
    ensures text { printed out.new ≡ reason fault }
    ensures short { length (printed out.new) ≤ 64 }
{
    match fault {
        TwowayFault::Line(fault) => print_line_reason(out, fault),
        TwowayFault::AfterEnd => print_word(out, b"AfterEnd"),
        TwowayFault::UnknownLink => print_word(out, b"UnknownLink"),
        TwowayFault::Spanless(fault) => print_span_reason(out, fault),
    }
}

/// Prints why bytes are no line.
fn print_line_reason(out: &mut LineBuffer, fault: ExchangeLineFault)
    ensures text { printed out.new ≡ exchange_line_reason fault }
    ensures short { length (printed out.new) ≤ 64 }
{
    match fault {
        ExchangeLineFault::UnknownWord => print_word(out, b"UnknownWord"),
        ExchangeLineFault::FieldCount => print_word(out, b"FieldCount"),
        ExchangeLineFault::Number(field) => {
            print_word(out, b"Number ");
            out.push_number(u128::from(field));
        }
    }
}

/// Prints why an exchange has no span.
fn print_span_reason(out: &mut LineBuffer, fault: ExchangeFault)
    ensures text { printed out.new ≡ span_reason fault }
    ensures short { length (printed out.new) ≤ 64 }
{
    match fault {
        ExchangeFault::Backwards => print_word(out, b"Backwards"),
        ExchangeFault::Impossible => print_word(out, b"Impossible"),
        ExchangeFault::TooLarge => print_word(out, b"TooLarge"),
    }
}

/// Prints a word in place of what was printed before.
fn print_word(out: &mut LineBuffer, word: &[u8])
    requires { length word.now ≤ 24 }
    ensures { printed out.new ≡ word.now }
{
    out.clear();
    out.push(word);
}
