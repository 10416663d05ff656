// Guard bits: how far a node is exact beyond an ulp, and how much of an operand is looked at.

ghost use Rattle.std.specs.Prelude.{◌≡◌};
ghost use Rattle.format.specs.GuardBits.{least_table, greatest_table, least_input, greatest_input};
ghost use Rattle.format.specs.GuardBits.{guard_bits, guards_in, are_usual};

// Guard bits as they are asked for: `table` of a node, and `input` of an operand. Any numbers can be asked for; 2 to 4
// and 3 to 5 are served.
#[derive(Clone, Copy, PartialEq, Eq, Debug)]
pub struct GuardBits {
    pub table: u32,
    pub input: u32,
}

// What a number of 32 bits counts above another in one number of 64 bits.
const TWO_TO_32: u64 = 1 << 32;

// The usual guard bits as one number of 64 bits, those of the input above those of the table: 3 × 2^32 + 2.
const USUAL_AS_ONE: u64 = 3 * TWO_TO_32 + 2;

impl GuardBits {
    // The least and the greatest number of table guard bits.
    pub const LEAST_TABLE: u32 = 2;

    pub const GREATEST_TABLE: u32 = 4;
    // The least and the greatest number of input guard bits.
    pub const LEAST_INPUT: u32 = 3;

    pub const GREATEST_INPUT: u32 = 5;
    // Those of a table for which none are ordered.
    pub const USUAL: GuardBits = GuardBits { table: 2, input: 3 };

    // Whether both numbers are in their ranges.
    pub fn in_range(self) -> bool
        ensures value { result ≡ guards_in self }
        ensures least_table { GuardBits.LEAST_TABLE ≡ least_table }
        ensures greatest_table { GuardBits.GREATEST_TABLE ≡ greatest_table }
        ensures least_input { GuardBits.LEAST_INPUT ≡ least_input }
        ensures greatest_input { GuardBits.GREATEST_INPUT ≡ greatest_input }
    {
        (GuardBits::LEAST_TABLE..=GuardBits::GREATEST_TABLE).contains(&self.table)
            && (GuardBits::LEAST_INPUT..=GuardBits::GREATEST_INPUT).contains(&self.input)
    }

    // Whether they are those of a table for which none are ordered. Code that is written for these alone asks by this,
    // by one comparison: of two the compiler makes seven instructions.
    pub fn are_usual(self) -> bool
        ensures value { result ≡ are_usual self }
        ensures usual { GuardBits.USUAL ≡ guard_bits 2 3 }
    {
        (self.table as u64) + (self.input as u64) * TWO_TO_32 == USUAL_AS_ONE
    }
}
