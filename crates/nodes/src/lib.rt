// The nodes of a table: their values, the numbers by which their words are made and judged, and what a word stands for.
#![tactic(auto)]

mod eight;

ghost use Rattle.std.specs.Prelude.{◌≡◌, IfOk};
ghost use Rattle.answers.specs.Refusal.{outcome};
ghost use Rattle.answers.specs.Answer.{outcome_of};
ghost use Rattle.nodes.specs.Nodes.{node_in_table, decode_under};
ghost use Rattle.nodes.specs.Refusals.{table_refusals};
ghost use Rattle.nodes.specs.Inner.{quotients_of};

use answers::Refused;
pub use eight::{NODES_8, node_8};
use format::{Form, Format};
use precision::Precision;
use units::TableUnits;

// The remainder by this is the lowest 32 bits.
const TWO_TO_32: u64 = 1 << 32;

// A table of words in the numbers by which code makes and judges them: `count` words of `width` bits, word j being
// numerator / (first + j) rounded up, modulo 2^width. Decoding puts the leading one `lead` back; it is 0 where words
// keep it.
#[derive(Clone, Copy, PartialEq, Eq, Debug)]
pub struct Quotients {
    pub count: u32,
    pub width: u32,
    pub numerator: u64,
    pub first: u32,
    pub lead: u32,
}

impl Quotients {
    ghost use Rattle.nodes.specs.Inner.{judged_word};

    // What the word at node j stands for, where a product tells that it is the node, and None where it is wrong. Of the
    // divisor and of the value the lowest 32 bits count, so that nothing is asked of j and of the word.
    pub fn judged(self, j: u32, word: u32) -> Option<TableUnits>
        ensures { result ≡ judged_word self j word }
    {
        let c = decoded(self.lead, j, word);
        if !quotient::rounds_up(
            self.numerator,
            self.first.wrapping_add(j),
            (c.0 % TWO_TO_32) as u32,
        ) {
            return None;
        }
        Some(c)
    }
}

// The numbers of the table of a format; where there is no such table, the first of refusals 1 and 18 that applies. What
// `Format` says of width and count of its words stands here once more, in the arms: asked for there, they make the code
// of a node a tenth longer.
pub fn table(format: Format) -> Result<Quotients, Refused>
    ensures refusals { outcome_of (λ _. 0) result ≡ outcome (table_refusals format) 0 }
    ensures numbers { IfOk result (λ t. t ≡ quotients_of format) }
{
    if !format.precision.in_range() {
        return Err(Refused::Precision);
    }
    if !format.guard_bits.in_range() {
        return Err(Refused::GuardBits);
    }
    let k = format.precision.0;
    let plain = 2 * k + format.guard_bits.table;
    let first = 1 << k;
    let numerator = bits::power(3 * k + format.guard_bits.table + 1);
    Ok(match format.form {
        Form::Plain => Quotients {
            count: first,
            width: plain,
            numerator,
            first,
            lead: 1 << plain,
        },
        Form::Full => Quotients {
            count: first + 1,
            width: plain + 2,
            numerator,
            first,
            lead: 0,
        },
    })
}

// c(j) at precision k with two table guard bits, None where there is no such node.
pub fn value(k: Precision, j: u32) -> Option<TableUnits>
    ensures { result ≡ node_in_table k.0 j }
{
    let last = k.word_count()?;
    if last < j {
        return None;
    }
    Some(TableUnits(quotient::rounded_up(bits::power(3 * k.0 + 3), last + j)))
}

// What a word at node j stands for under a leading one; a zero word at node 0 means twice that. Whether the value is
// the node's, `judged` tells. The compiler makes one test of both numbers: a check is a seventh faster so than by two.
pub fn decoded(lead: u32, j: u32, word: u32) -> TableUnits
    ensures { result.0 ≡ decode_under lead j word }
{
    if j == 0 && word == 0 {
        return TableUnits(2 * (lead as u64));
    }
    TableUnits(lead as u64 + word as u64)
}
