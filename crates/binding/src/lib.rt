// A bound table: a lent image and its format, kept together for many operands.
#![tactic(auto)]

ghost use Rattle.std.specs.Prelude.{◌≡◌, IfOk};
ghost use Rattle.answers.specs.Answer.{outcome_of_node, outcome_of_reciprocal};
ghost use Rattle.format.specs.Format.{precision_of, table_bits, input_bits};
ghost use Rattle.nodes.specs.Nodes.{node};
ghost use Rattle.image.specs.Calls.{node_outcome};
ghost use Rattle.interpolation.specs.Reciprocal.{reciprocal, IsWithinUlp};
ghost use Rattle.interpolation.specs.Calls.{reciprocal_outcome};
ghost use Rattle.binding.specs.Bound.{bound};

use answers::Refused;
use format::Format;
use operand::Operand;
use units::{TableUnits, Ulps};

// An image and its format, of which nothing is asked: each call through the table judges both.
#[derive(Clone, Copy)]
pub struct BoundTable<'a> {
    pub format: Format,
    pub image: &'a [u8],
}

impl<'a> BoundTable<'a> {
    // The bound table of a format and an image, any two.
    pub fn new(format: Format, image: &'a [u8]) -> BoundTable<'a>
        ensures { result ≡ bound format image.entry }
    {
        BoundTable { format, image }
    }

    // The value of node j, as `reading::node` gives it.
    pub fn node(self, j: u32) -> Result<TableUnits, Refused>
        ensures outcome { outcome_of_node result ≡ node_outcome self.entry.format self.entry.image.now j }
        ensures value { let format = self.entry.format in IfOk result
            (λ c. c.0 ≡ node (precision_of format) (table_bits format) j) }
    {
        reading::node(self.format, self.image, j)
    }

    // The reciprocal of an operand, as `inverting::reciprocal` gives it.
    pub fn reciprocal(self, operand: Operand) -> Result<Ulps, Refused>
        ensures outcome { outcome_of_reciprocal result
            ≡ reciprocal_outcome self.entry.format self.entry.image.now operand.n operand.x }
        ensures value { let format = self.entry.format in IfOk result
            (λ R. R.0 ≡ reciprocal (precision_of format) (table_bits format) (input_bits format) operand.n operand.x) }
        ensures within_ulp { IfOk result (λ R. IsWithinUlp (precision_of self.entry.format) operand.n operand.x R.0) }
    {
        inverting::reciprocal(self.format, self.image, operand)
    }
}

// The value of node j through a bound table, for callers that have a format and an image, as C has.
pub fn bound_node(format: Format, image: &[u8], j: u32) -> Result<TableUnits, Refused>
    ensures outcome { outcome_of_node result ≡ node_outcome format image.now j }
    ensures value { IfOk result (λ c. c.0 ≡ node (precision_of format) (table_bits format) j) }
{
    BoundTable::new(format, image).node(j)
}

// The reciprocal of an operand through a bound table, for callers that have a format and an image, as C has.
pub fn bound_reciprocal(format: Format, image: &[u8], operand: Operand) -> Result<Ulps, Refused>
    ensures outcome { outcome_of_reciprocal result ≡ reciprocal_outcome format image.now operand.n operand.x }
    ensures value { IfOk result
        (λ R. R.0 ≡ reciprocal (precision_of format) (table_bits format) (input_bits format) operand.n operand.x) }
    ensures within_ulp { IfOk result (λ R. IsWithinUlp (precision_of format) operand.n operand.x R.0) }
{
    BoundTable::new(format, image).reciprocal(operand)
}
