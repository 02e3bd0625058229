//! Numbers of a line.
ghost use Rattle.std.specs.Prelude.{◌≡◌, ◌<◌, option_map};
ghost use Rattle.audit_records.specs.Lines.{number_at, number_of};

use crate::cuts::around_byte;
use osq_value::digits_number;

/// The number of `least` to `most` digits before the first such byte, which is an ASCII byte, and the text behind it. None where
/// other bytes stand there, another number of them, or digits of 2^64 or more.
#[tactic(auto, unfolding(crate::specs::Lines::number_at))]
pub fn number_at(text: &str, least: usize, most: usize, end: u8) -> Option<(u64, &str)>
    requires { end < 128 }
    ensures { option_map (λ read. (read.0, read.1.now)) result ≡ number_at least most end text.now }
{
    let Some((digits, rest)) = around_byte(text, end) else {
        return None;
    };
    let Some(number) = number_of(digits.as_bytes(), least, most) else {
        return None;
    };
    Some((number, rest))
}

/// The number of `least` to `most` digits, where it is below 2^64.
#[tactic(auto, unfolding(crate::specs::Lines::number_of))]
fn number_of(digits: &[u8], least: usize, most: usize) -> Option<u64>
    ensures { result ≡ number_of least most digits.now }
{
    if digits.len() < least || most < digits.len() {
        None
    } else {
        digits_number(digits)
    }
}
