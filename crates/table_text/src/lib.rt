// The printed table of a precision, with two table guard bits, as text in a lent buffer.
#![tactic(auto)]

ghost use Rattle.std.specs.Prelude.{◌≡◌, true, ◌++◌, ◌^◌, ◌≤◌, length, IfSome, OnOk};
ghost use Rattle.std.specs.Io.KnownBytes.{Appends};
ghost use Rattle.decimal.specs.Inner.{Room, Wrote};
ghost use Rattle.precision.specs.Precision.{in_range};
ghost use Rattle.lines.specs.Lines.{line_feed, space, field};
ghost use Rattle.streams.specs.Streams.{AppendsFront};
ghost use Rattle.table_text.specs.TableText.{
  precision_of,
  precision_text,
  bytes_text,
  line as line_text,
  text_of,
  table_text,
  longest_text,
  printed,
  printed_length,
};

use decimal::Text;
use format::GuardBits;
use precision::Precision;
use std::io;
use std::io::{Read, Write};

// The bytes that a buffer must have: every text fits.
pub const LONGEST_TEXT: usize = 131136;

// The bytes of an input that settle which precision it requests: 9 digits, a line feed, and one byte more, which no
// request has.
const SETTLING: usize = 11;

// The precision that the input requests: 1 to 9 digits, then one line feed and no more. Other input counts as 0.
fn requested(input: &[u8]) -> Precision
    ensures { result.0 ≡ precision_of input.now }
{
    let k = lines::read(input, 9).unwrap_or(0);
    Precision(k as u32)
}

// Writes the first line: the precision, and the length of the plain image in bytes.
fn header(text: &mut Text, k: Precision, bytes: usize)
    requires { (in_range k.0 ≡ true) × Room text.old 58 }
    ensures { Wrote text.old (precision_text ++ field k.0 space ++ (bytes_text ++ field bytes line_feed)) text.new }
{
    text.put_text(b"precision ");
    lines::put(text, k.0 as u64, b' ');
    text.put_text(b"bytes ");
    lines::put(text, bytes as u64, b'\n');
}

// Writes the line of node j: its number, its value and its word, the lowest bits of the value. The last node has no
// word.
fn line(text: &mut Text, k: Precision, j: u32)
    requires { (in_range k.0 ≡ true) × (j ≤ 2 ^ k.0) × Room text.old 63 }
    ensures { Wrote text.old (line_text k.0 j) text.new }
{
    let c = nodes::value(k, j).unwrap().0;
    lines::put(text, j as u64, b' ');
    lines::put(text, c, b' ');
    if j < k.word_count().unwrap() {
        lines::put(
            text,
            bits::low(c, k.word_width(GuardBits::USUAL.table) as u32),
            b'\n',
        );
    } else {
        text.put_text(b"-\n");
    }
}

// Writes the table of k, or the refusal where k is no precision.
fn table(text: &mut Text, k: Precision)
    requires { Room text.old longest_text }
    ensures { Wrote text.old (text_of k.0) text.new }
{
    let Some(bytes) = k.image_length() else {
        lines::put_refused(text, 1);
        return;
    };
    header(text, k, bytes);
    for j in 0..=k.word_count().unwrap() {
        line(text, k, j);
    }
}

// Writes the printed table of the precision that the input requests at the front of `out`, and gives its length. The
// bytes after it stay as found; with fewer than LONGEST_TEXT bytes all do, and the length is 0.
pub fn print(input: &[u8], out: &mut [u8]) -> usize
    ensures value { result ≡ printed_length input.now out.old }
    ensures out_after { out.new ≡ printed input.now out.old }
    ensures longest_text_value { LONGEST_TEXT ≡ longest_text }
{
    if out.len() < LONGEST_TEXT {
        return 0;
    }
    let mut text = Text { out, at: 0 };
    table(&mut text, requested(input));
    text.at
}

// The printed table of the precision that the input requests, at the front of a buffer that has room for it.
fn answer<'a>(input: &[u8], out: &'a mut [u8]) -> &'a [u8]
    requires { longest_text ≤ length out.old }
    ensures { result.now ≡ table_text input.now }
{
    let length = print(input, out);
    &out[..length]
}

// Writes the printed table of the precision that the input requests, and nothing else. After an error the output has a
// front of it behind what was there; where the input could not be read, that front is empty.
pub fn run<R: Read, W: Write>(input: &mut R, output: &mut W) -> io::Result<()>
    ensures ok { OnOk result (IfSome (R.remaining input.old) (λ xs.
        Appends (W.contents output.old) (W.contents output.new) (table_text xs))) }
    ensures front { IfSome (R.remaining input.old) (λ xs.
        AppendsFront (W.contents output.old) (W.contents output.new) (table_text xs)) }
{
    let mut request = [0u8; SETTLING];
    let got = streams::read_front(input, &mut request)?;
    let mut text = [0u8; LONGEST_TEXT];
    streams::write_text(output, answer(&request[..got], &mut text))?;
    output.flush()
}
