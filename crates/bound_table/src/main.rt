// Makes one bound table and uses it for two operands and a node: with the plain image of precision 2, with a byte too
// few, and with a wrong word.
#![tactic(auto)]

ghost use Rattle.std.specs.Prelude.{◌≡◌};
ghost use Rattle.answers.specs.Answer.{outcome_of_node, outcome_of_reciprocal};
ghost use Rattle.image.specs.Calls.{node_outcome};
ghost use Rattle.interpolation.specs.Calls.{reciprocal_outcome};

use answers::Refused;
use binding::BoundTable;
use format::Format;
use operand::Operand;
use precision::Precision;
use std::io;
use units::{TableUnits, Ulps};

// What one table answers to two operands and the number of a node.
#[derive(Clone, Copy)]
struct Answers {
    first: Result<Ulps, Refused>,
    second: Result<Ulps, Refused>,
    node: Result<TableUnits, Refused>,
}

// Binds the image once, and asks the table for the reciprocals of x and y and for node j.
fn ask(format: Format, image: &[u8], x: Operand, y: Operand, j: u32) -> Answers
    ensures first { outcome_of_reciprocal result.first ≡ reciprocal_outcome format image.now x.n x.x }
    ensures second { outcome_of_reciprocal result.second ≡ reciprocal_outcome format image.now y.n y.x }
    ensures node { outcome_of_node result.node ≡ node_outcome format image.now j }
{
    let table = BoundTable::new(format, image);
    Answers {
        first: table.reciprocal(x),
        second: table.reciprocal(y),
        node: table.node(j),
    }
}

// A line: the number of a refusal or 0, the place, and the value. The program `cases` has a space before each: one
// function for both would be the longer.
fn line(rt: &impl Print, answer: Result<u64, Refused>) -> io::Result<()> {
    match answer {
        Ok(value) => println!(rt; "0 0 {value}"),
        Err(why) => println!(rt; "{} {} 0", why.number(), why.place()),
    }
}

// The operands 1 1/4 and 1 3/4, of 7 fraction bits, and node 3 by the image as one of precision 2.
fn show(rt: &impl Print, image: &[u8]) -> io::Result<()> {
    let answers = ask(
        Format::plain(Precision(2)),
        image,
        Operand { n: 7, x: 160 },
        Operand { n: 7, x: 224 },
        3,
    );
    line(rt, answers.first.map(|r| r.0))?;
    line(rt, answers.second.map(|r| r.0))?;
    line(rt, answers.node.map(|c| c.0))
}

fn main(rt: HostRuntime) -> io::Result<()> {
    let mut image = [0u8; 3];
    let _ = building::build(Format::plain(Precision(2)), &mut image);
    show(&rt, &image)?;
    show(&rt, &image[..2])?;
    image[0] = 0;
    show(&rt, &image)
}
