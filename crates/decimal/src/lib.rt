// Decimal digits: numbers read from them, and numbers and pieces of text written into a lent buffer.
#![tactic(auto)]

mod text;

ghost use Rattle.std.specs.Prelude.{◌≡◌};
ghost use Rattle.decimal.specs.Reading.{reading};

pub use text::{MOST_DIGITS, Text};

// Reads all of s as digits. None where s is empty, has another byte, or stands for 2^64 or more. (`parse` would take a
// sign before the digits.)
pub fn read(s: &[u8]) -> Option<u64>
    ensures { result ≡ reading s.now }
{
    if s.is_empty() {
        return None;
    }
    let mut value: u64 = 0;
    for b in s {
        let digit = match *b {
            b'0'..=b'9' => *b - b'0',
            _ => return None,
        };
        value = value.checked_mul(10)?.checked_add(u64::from(digit))?;
    }
    Some(value)
}
