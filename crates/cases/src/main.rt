// Runs the open calls as a script on standard input asks. crates/cases/stdin has the cases; crates/cases/stdout is
// written by another program, tests/reference.py.
//
// There is a room of 16384 bytes, of which the front is lent to each call. A line of the script is a command, a word,
// and its numbers, a space before each. It is printed as it stands. A number that is left out is 0, but for the guard
// bits. FORM is 0 for plain words and anything else for full ones. Behind it stand A and B, table guard bits and input
// guard bits, 2 and 3 where they are left out. To make the lent bytes:
//     fill B D      byte i of the room is B + D × i modulo 256; without D every byte is B
//     hex HH HH ..  these bytes stand at the front, and are what is lent
//     xor I B       the bits of B are changed in byte I
//     length N      the first N bytes are lent
// To print them in hex, or the 64-bit FNV-1a hash of them:
//     show
//     sum
// Calls, each made with every number from FIRST to LAST, or with FIRST alone where there is no LAST above it. Each time
// a line is printed: the number, and the numbers that the call answered.
//     precision FIRST LAST A (precisions; A as above)
//     format FIRST LAST FORM A B, check FIRST LAST FORM A B (precisions)
//     node FIRST LAST K FORM A B, word FIRST LAST K FORM A B (nodes)
//     kept FIRST LAST K FORM A B (the same as `node`, through a bound table)
//     rule FIRST LAST K, eight FIRST LAST (nodes, of no image; `eight` has those of precision 8)
// One call is made with a single number, and its answer is printed alone:
//     build K FORM A B
// A call is made with COUNT operands of N fraction bits, or with one where there is no COUNT. The first is X, and each
// other is STEP above the one before it, modulo 2^64. Each time a line is printed: the operand, and the numbers that
// the call answered.
//     invert K N X COUNT STEP FORM A B
//     around K N X COUNT STEP FORM A B (the same with both neighbours of each operand: one less, itself, one more)
//     through K N X COUNT STEP FORM A B (the same as `invert`, through a bound table)
// A line whose first word is no command, such as one that begins with '#', is printed alone.
#![tactic(auto)]

mod calls;
mod command;
mod room;

use command::Command;
use room::Room;
use std::io;

fn main(rt: HostRuntime) -> io::Result<()> {
    let mut input = [0; 262144];
    let n = streams::read_front(&mut rt.stdin(), &mut input)?;
    run(&rt, &input[..n])
}

// Prints and runs each line that a line feed ends.
fn run(rt: &impl Print, script: &[u8]) -> io::Result<()> {
    let mut room = Room::new();
    for line in script.split_inclusive(|&b| b == b'\n') {
        let Some(text) = line.strip_suffix(b"\n") else {
            break;
        };
        rt.write_all(line)?;
        if let Some(command) = Command::parse(text) {
            obey(rt, &mut room, command)?;
        }
    }
    Ok(())
}

// Runs a command. No call is made where more bytes are lent than the room has.
fn obey(rt: &impl Print, room: &mut Room, command: Command) -> io::Result<()> {
    match command {
        Command::Fill { first, step } => room.fill(first, step),
        Command::Hex(pairs) => room.put_hex(pairs),
        Command::Xor { place, mask } => room.flip(place, mask),
        Command::Length(n) => room.lend(n),
        Command::Build(format) => {
            if let Some(image) = room.lent_mut() {
                calls::build(rt, format, image)?;
            }
        }
        Command::Print(call) => {
            if let Some(image) = room.lent() {
                calls::run(rt, call, image)?;
            }
        }
    }
    Ok(())
}
