// Lines of text for programs: a number read from a line, a number written with a byte behind it, and the line of a
// refusal.
#![tactic(auto)]

ghost use Rattle.std.specs.Prelude.{◌≡◌};
ghost use Rattle.decimal.specs.Inner.{Puts};
ghost use Rattle.lines.specs.Lines.{line_reading, field, refused_text};
ghost use Rattle.lines.specs.Inner.{longest_field, longest_refusal};

use decimal::Text;

// The most bytes that a number of 64 bits and the byte behind it are.
pub const LONGEST_FIELD: usize = 21;

// The most bytes that the line of a refusal is.
pub const LONGEST_REFUSAL: usize = 29;

// Reads a line as a number: 1 to `most` digits, leading zeros allowed, then one line feed and nothing more. None for
// any other bytes, and where the digits stand for 2^64 or more.
#[tactic(auto, using(crate::proofs::ReadLines::line_cases))]
pub fn read(line: &[u8], most: usize) -> Option<u64>
    ensures { result ≡ line_reading line.now most }
{
    let [digits @ .., b'\n'] = line else {
        return None;
    };
    if most < digits.len() {
        return None;
    }
    decimal::read(digits)
}

// Writes the digits of n and the byte `behind` after them, where LONGEST_FIELD bytes have room, and nothing where they
// have none.
pub fn put(text: &mut Text, n: u64, behind: u8)
    ensures written { Puts text.old longest_field (field n behind) text.new }
    ensures longest_field_value { LONGEST_FIELD ≡ longest_field }
{
    if !text.has_room(LONGEST_FIELD) {
        return;
    }
    text.put(n);
    text.put_text(&[behind]);
}

// Writes `refused`, a space, the number and a line feed, where LONGEST_REFUSAL bytes have room, and nothing where they
// have none.
pub fn put_refused(text: &mut Text, number: u64)
    ensures written { Puts text.old longest_refusal (refused_text number) text.new }
    ensures longest_refusal_value { LONGEST_REFUSAL ≡ longest_refusal }
{
    if !text.has_room(LONGEST_REFUSAL) {
        return;
    }
    text.put_text(b"refused ");
    put(text, number, b'\n');
}
