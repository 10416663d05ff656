// An operand X with n fraction bits: the limits that it must keep, and how it is cut for the table.
#![tactic(auto)]

ghost use Rattle.std.specs.Prelude.{◌≡◌};
ghost use Rattle.answers.specs.Refusal.{outcome};
ghost use Rattle.answers.specs.Answer.{outcome_of_done};
ghost use Rattle.operand.specs.Operand.{least_bits, most_bits};
ghost use Rattle.operand.specs.Refusals.{operand_refusals};
ghost use Rattle.operand.specs.Inner.{cut_fraction};

use answers::Refused;

// The fewest fraction bits of an operand.
pub const LEAST_BITS: u32 = 1;

// The most fraction bits of an operand: with its leading one it has 64.
pub const MOST_BITS: u32 = 63;

// An operand as it is handed over: X, and how many of its bits are fraction bits. Any two numbers can be asked for;
// those that keep the limits are served.
#[derive(Clone, Copy, PartialEq, Eq, Debug)]
pub struct Operand {
    pub n: u32,
    pub x: u64,
}

impl Operand {
    // Whether n is a number of fraction bits and X is normalised; else the first of both refusals that applies.
    pub fn limits(self) -> Result<(), Refused>
        ensures value { outcome_of_done result ≡ outcome (operand_refusals self.n self.x) 0 }
        ensures least_bits_value { LEAST_BITS ≡ least_bits }
        ensures most_bits_value { MOST_BITS ≡ most_bits }
    {
        if self.n < LEAST_BITS || MOST_BITS < self.n {
            return Err(Refused::FractionBits);
        }
        if bits::high(self.x, self.n) != 1 {
            return Err(Refused::Operand);
        }
        Ok(())
    }

    // The first s fraction bits: what X has beyond is cut off, and what it lacks is padded with zeros. They are shifted
    // to the top of 64 bits, where the leading one falls off, and down again, so that neither side is a case of its
    // own. Where n or s is above MOST_BITS, which no caller asks for, it gives 0: an Option would only be taken apart.
    pub fn cut(self, s: u32) -> u64
        ensures { result ≡ cut_fraction s self.n self.x }
    {
        if MOST_BITS < self.n || MOST_BITS < s {
            return 0;
        }
        bits::high(bits::padded(self.x, 64 - self.n), 64 - s)
    }
}
