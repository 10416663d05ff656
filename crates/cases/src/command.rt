// Reading the script: a command to a line, then its numbers, a space before each.

use format::{Format, FormatNumbers};
use operand::Operand;
use precision::Precision;
use std::ops::RangeInclusive;

// What a line asks for: to change the room, to build in it, or a call that only prints.
#[derive(Drop)]
pub(crate) enum Command<'a> {
    Fill { first: u8, step: u8 },
    Hex(&'a [u8]),
    Xor { place: usize, mask: u8 },
    Length(usize),
    Build(Format),
    Print(Call),
}

// A call that only prints, with the numbers that it is made with: precisions or nodes, from the first to the last, or
// operands. Where they are precisions, each takes the place of that of the format.
#[derive(Drop)]
pub(crate) enum Call {
    Precision(RangeInclusive<u32>, u32),
    Format(RangeInclusive<u32>, Format),
    Check(RangeInclusive<u32>, Format),
    Node(RangeInclusive<u32>, Format),
    Kept(RangeInclusive<u32>, Format),
    Word(RangeInclusive<u32>, Format),
    Rule(RangeInclusive<u32>, Precision),
    Eight(RangeInclusive<u32>),
    Invert(Operands),
    Around(Operands),
    Through(Operands),
    Show,
    Sum,
}

// The operands of a call on a table: the first one, how many there are, and how far each is above the one before it.
#[derive(Clone, Copy)]
pub(crate) struct Operands {
    pub(crate) format: Format,
    pub(crate) first: Operand,
    pub(crate) count: u32,
    pub(crate) step: u64,
}

impl<'a> Command<'a> {
    // The command of a line, and None where its first word, the bytes up to the first space or the end, is no command.
    pub(crate) fn parse(line: &'a [u8]) -> Option<Self> {
        let mut parts = line.splitn(2, |&b| b == b' ');
        let word = parts.next()?;
        let rest = parts.next().unwrap_or(&[]);
        let numbers = numbers(rest);
        let [a, b, ..] = numbers.map(or_0);
        Some(match word {
            b"fill" => Command::Fill {
                first: low_byte(a),
                step: low_byte(b),
            },
            b"hex" => Command::Hex(rest),
            b"xor" => Command::Xor {
                place: low_half(a) as usize,
                mask: low_byte(b),
            },
            b"length" => Command::Length(low_half(a) as usize),
            b"build" => {
                let [k, form, table, input, ..] = numbers;
                Command::Build(format_of([k, form, table, input]))
            }
            _ => Command::Print(Call::parse(word, numbers)?),
        })
    }
}

impl Call {
    fn parse(word: &[u8], numbers: [Option<u64>; 8]) -> Option<Self> {
        let [first, last, k, ..] = numbers.map(or_0).map(low_half);
        let span = first..=last.max(first);
        let [_, _, third, fourth, fifth, sixth, ..] = numbers;
        let format = format_of([third, fourth, fifth, sixth]);
        let of_each = format_of([None, third, fourth, fifth]);
        Some(match word {
            b"precision" => Call::Precision(span, low_half(third.unwrap_or(2))),
            b"format" => Call::Format(span, of_each),
            b"check" => Call::Check(span, of_each),
            b"node" => Call::Node(span, format),
            b"kept" => Call::Kept(span, format),
            b"word" => Call::Word(span, format),
            b"rule" => Call::Rule(span, Precision(k)),
            b"eight" => Call::Eight(span),
            b"invert" => Call::Invert(Operands::from(numbers)),
            b"around" => Call::Around(Operands::from(numbers)),
            b"through" => Call::Through(Operands::from(numbers)),
            b"show" => Call::Show,
            b"sum" => Call::Sum,
            _ => return None,
        })
    }
}

impl From<[Option<u64>; 8]> for Operands {
    fn from(numbers: [Option<u64>; 8]) -> Self {
        let [k, _, _, _, _, form, table, input] = numbers;
        let [_, n, x, count, step, ..] = numbers.map(or_0);
        Operands {
            format: format_of([k, form, table, input]),
            first: Operand { n: low_half(n), x },
            count: low_half(count),
            step,
        }
    }
}

// The format of four numbers of a line: precision, form, table guard bits and input guard bits.
fn format_of(numbers: [Option<u64>; 4]) -> Format {
    let [precision, form, table, input] = numbers;
    Format::from(FormatNumbers {
        precision: low_half(or_0(precision)),
        form: low_half(or_0(form)),
        table_guard_bits: low_half(table.unwrap_or(2)),
        input_guard_bits: low_half(input.unwrap_or(3)),
    })
}

// The numbers of a line, None where there is none. No command has more than eight.
fn numbers(text: &[u8]) -> [Option<u64>; 8] {
    let mut numbers = [None; 8];
    for (number, word) in numbers.iter_mut().zip(text.split(|&b| b == b' ')) {
        *number = Some(word.iter().fold(0, |v, &b| with_digit(v, b)));
    }
    numbers
}

// A number, 0 where there is none.
fn or_0(n: Option<u64>) -> u64 {
    n.unwrap_or(0)
}

// v with a digit after it, or as it is where that is too long or b is no digit.
fn with_digit(v: u64, b: u8) -> u64 {
    match (b, v.checked_mul(10)) {
        (b'0'..=b'9', Some(tens)) => tens.wrapping_add(u64::from(b - b'0')),
        _ => v,
    }
}

// A number modulo 2^32.
fn low_half(n: u64) -> u32 {
    (n & 0xffff_ffff) as u32
}

// A number modulo 2^8.
fn low_byte(n: u64) -> u8 {
    (n & 0xff) as u8
}
