// What a call answers: a value, or why it is turned back. A refusal has a number and a place, and C has an answer as
// number, place and value.
#![tactic(auto)]

ghost use Rattle.std.specs.Prelude.{◌≡◌};
ghost use Rattle.answers.specs.Answer.{number_of, place_of};
ghost use Rattle.answers.specs.Answer.{outcome_of_done, outcome_of_node, outcome_of_reciprocal};
ghost use Rattle.answers.specs.Answer.{done, node_read, reciprocal_given};

use units::{TableUnits, Ulps};

// Why a call is turned back: the refusals 1, 18 and 2 to 7, in this order. Where a word or a byte is the reason, it is
// named.
#[derive(Clone, Copy, PartialEq, Eq, Debug)]
pub enum Refused {
    // The precision is below 1 or above 12.
    Precision,
    // The table guard bits are not 2 to 4, or the input guard bits not 3 to 5.
    GuardBits,
    // The buffer is shorter than the image.
    Length,
    // The node number is above 2^k.
    Node,
    // The number of fraction bits is below 1 or above 63.
    FractionBits,
    // The operand is not normalised.
    Operand,
    // The word of this node is not the construction's.
    Word(u32),
    // This byte has a one behind the last word.
    Tail(usize),
}

impl Refused {
    // Its number.
    pub fn number(self) -> u32
        ensures { result ≡ number_of self }
    {
        match self {
            Refused::Precision => 1,
            Refused::GuardBits => 18,
            Refused::Length => 2,
            Refused::Node => 3,
            Refused::FractionBits => 4,
            Refused::Operand => 5,
            Refused::Word(_) => 6,
            Refused::Tail(_) => 7,
        }
    }

    // Its place: the node or the byte that is named, and else 0.
    pub fn place(self) -> u64
        ensures { result ≡ place_of self }
    {
        match self {
            Refused::Word(j) => j as u64,
            Refused::Tail(at) => at as u64,
            _ => 0,
        }
    }
}

// The answers as C has them: number 0 where the call is served, else the refusal's, with its place and the value 0.
// They are three structs: what is exported to C has no type parameters. Each `From` has a `match` of its own: a
// generic function that gives number, place and value makes the three no shorter.

// The answer of the builder and of the check, whose value is always 0.
#[repr(C)]
#[derive(Clone, Copy)]
pub struct Done {
    pub number: u32,
    pub place: u64,
    pub value: u64,
}

// The answer of reading a node.
#[repr(C)]
#[derive(Clone, Copy)]
pub struct NodeRead {
    pub number: u32,
    pub place: u64,
    pub value: TableUnits,
}

// The answer of the reciprocal.
#[repr(C)]
#[derive(Clone, Copy)]
pub struct ReciprocalGiven {
    pub number: u32,
    pub place: u64,
    pub value: Ulps,
}

impl From<Result<(), Refused>> for Done {
    ghost from_gives = { λ answer c. c ≡ done (outcome_of_done answer) };

    fn from(answer: Result<(), Refused>) -> Done {
        match answer {
            Ok(()) => Done {
                number: 0,
                place: 0,
                value: 0,
            },
            Err(why) => Done {
                number: why.number(),
                place: why.place(),
                value: 0,
            },
        }
    }
}

impl From<Result<TableUnits, Refused>> for NodeRead {
    ghost from_gives = { λ answer c. c ≡ node_read (outcome_of_node answer) };

    fn from(answer: Result<TableUnits, Refused>) -> NodeRead {
        match answer {
            Ok(value) => NodeRead {
                number: 0,
                place: 0,
                value,
            },
            Err(why) => NodeRead {
                number: why.number(),
                place: why.place(),
                value: TableUnits(0),
            },
        }
    }
}

impl From<Result<Ulps, Refused>> for ReciprocalGiven {
    ghost from_gives = { λ answer c. c ≡ reciprocal_given (outcome_of_reciprocal answer) };

    fn from(answer: Result<Ulps, Refused>) -> ReciprocalGiven {
        match answer {
            Ok(value) => ReciprocalGiven {
                number: 0,
                place: 0,
                value,
            },
            Err(why) => ReciprocalGiven {
                number: why.number(),
                place: why.place(),
                value: Ulps(0),
            },
        }
    }
}

// Where a part of the caller's image stands: `count` bytes from byte `offset` on.
#[repr(C)]
#[derive(Clone, Copy)]
pub struct Part {
    pub offset: usize,
    pub count: usize,
}
