// The calls: each is made with every number that its line asks for, and what it answers is printed.

use crate::command::{Call, Operands};
use answers::Refused;
use format::{Format, GuardBits};
use operand::Operand;
use precision::Precision;
use std::io;
use std::ops::RangeInclusive;
use units::Ulps;

// Builds an image in the lent bytes.
pub(crate) fn build(rt: &impl Print, format: Format, image: &mut [u8]) -> io::Result<()> {
    answer(rt, building::build(format, image).map(|()| 0))
}

// Makes the calls of a line that only prints.
pub(crate) fn run(rt: &impl Print, call: Call, image: &[u8]) -> io::Result<()> {
    match call {
        Call::Precision(ks, table) => each(rt, ks, |k| limits(rt, Precision(k), table)),
        Call::Format(ks, format) => each(rt, ks, |k| sizes(rt, of(k, format))),
        Call::Check(ks, format) => each(rt, ks, |k| {
            answer(rt, checking::check(of(k, format), image).map(|()| 0))
        }),
        Call::Node(js, format) => each(rt, js, |j| {
            answer(rt, reading::node(format, image, j).map(|c| c.0))
        }),
        Call::Kept(js, format) => each(rt, js, |j| {
            answer(rt, binding::bound_node(format, image, j).map(|c| c.0))
        }),
        Call::Word(js, format) => each(rt, js, |j| {
            bytes(rt, reading::word_bytes(format, image, j))
        }),
        Call::Rule(js, k) => each(rt, js, |j| {
            println!(rt; " {}", nodes::value(k, j).map_or(0, |c| c.0))
        }),
        Call::Eight(js) => each(rt, js, |j| eight(rt, j)),
        Call::Invert(xs) => each_operand(xs, |x| {
            reciprocal(rt, x, inverting::reciprocal(xs.format, image, x))
        }),
        Call::Around(xs) => each_operand(xs, |x| {
            for x in around(x) {
                reciprocal(rt, x, inverting::reciprocal(xs.format, image, x))?;
            }
            Ok(())
        }),
        Call::Through(xs) => each_operand(xs, |x| {
            reciprocal(rt, x, binding::bound_reciprocal(xs.format, image, x))
        }),
        Call::Show => bytes(rt, image),
        Call::Sum => println!(rt; " {}", sum(image)),
    }
}

// Makes a call with each number, which is printed first.
fn each<F: Fn(u32) -> io::Result<()>>(
    rt: &impl Print,
    numbers: RangeInclusive<u32>,
    call: F,
) -> io::Result<()>
    requires { F.IsAlwaysCallable call }
{
    for n in numbers {
        print!(rt; " {n}")?;
        call(n)?;
    }
    Ok(())
}

// Makes a call with each operand, and with the first one where the line counts none.
fn each_operand<F: Fn(Operand) -> io::Result<()>>(operands: Operands, call: F) -> io::Result<()>
    requires { F.IsAlwaysCallable call }
{
    let Operand { n, mut x } = operands.first;
    for _ in 0..operands.count.max(1) {
        call(Operand { n, x })?;
        x = x.wrapping_add(operands.step);
    }
    Ok(())
}

// An operand between its neighbours, modulo 2^64.
fn around(operand: Operand) -> [Operand; 3] {
    let Operand { n, x } = operand;
    [x.wrapping_sub(1), x, x.wrapping_add(1)].map(|x| Operand { n, x })
}

// What a precision says of itself, of its words those with some table guard bits; the limits that are named with it,
// and the fewest and the most fraction bits of an operand.
fn limits(rt: &impl Print, k: Precision, table_guard_bits: u32) -> io::Result<()> {
    println!(rt;
        " {} {} {} {} {} {} {} {} {}",
        u8::from(k.in_range()),
        k.word_width(table_guard_bits),
        k.word_count().unwrap_or(0),
        k.image_length().unwrap_or(0),
        Precision::LEAST,
        Precision::GREATEST,
        Precision::LONGEST_IMAGE,
        operand::LEAST_BITS,
        operand::MOST_BITS
    )
}

// A format with precision k in the place of its own.
fn of(k: u32, format: Format) -> Format {
    Format {
        precision: Precision(k),
        form: format.form,
        guard_bits: format.guard_bits,
    }
}

// What a format says of itself and of its guard bits; the longest image of each form with two table guard bits, and the
// longest of all; and the limits of the guard bits.
fn sizes(rt: &impl Print, format: Format) -> io::Result<()> {
    println!(rt;
        " {} {} {} {} {} {} {} {} {} {} {}",
        format.word_width(),
        format.word_count().unwrap_or(0),
        format.image_length().unwrap_or(0),
        u8::from(format.guard_bits.in_range()),
        Format::LONGEST_PLAIN,
        Format::LONGEST_FULL,
        Format::LONGEST,
        GuardBits::LEAST_TABLE,
        GuardBits::GREATEST_TABLE,
        GuardBits::LEAST_INPUT,
        GuardBits::GREATEST_INPUT
    )
}

// Node j of precision 8: what the call gives, and the entry of the constant list, 0 where there is none.
fn eight(rt: &impl Print, j: u32) -> io::Result<()> {
    let entry = nodes::NODES_8.get(j as usize).copied();
    println!(rt;
        " {} {}",
        nodes::node_8(j).map_or(0, |c| c.0),
        entry.unwrap_or(0)
    )
}

// An operand, and what a call answers to it.
fn reciprocal(rt: &impl Print, operand: Operand, given: Result<Ulps, Refused>) -> io::Result<()> {
    print!(rt; " {}", operand.x)?;
    answer(rt, given.map(|r| r.0))
}

// What a call answers: the number of a refusal or 0, its place, and the value of a served call.
fn answer(rt: &impl Print, given: Result<u64, Refused>) -> io::Result<()> {
    match given {
        Ok(value) => println!(rt; " 0 0 {value}"),
        Err(why) => println!(rt; " {} {} 0", why.number(), why.place()),
    }
}

// The 64-bit FNV-1a hash of bytes.
fn sum(s: &[u8]) -> u64 {
    s.iter().fold(0xcbf2_9ce4_8422_2325, |h, &b| {
        (h ^ u64::from(b)).wrapping_mul(0x0100_0000_01b3)
    })
}

// Bytes in hex, with a line feed after each 32nd and at the end.
fn bytes(rt: &impl Print, s: &[u8]) -> io::Result<()> {
    for (i, b) in s.iter().enumerate() {
        print!(rt; " {b:02x}")?;
        if i % 32 == 31 {
            println!(rt)?;
        }
    }
    println!(rt)
}
