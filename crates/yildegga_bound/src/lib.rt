// The calls through a bound table for C, so that what they compile to can be compared and measured. They stand apart
// from the calls on an image: in a library of their own the compiler has one caller of each call, and makes it one
// piece with the call beneath.
#![tactic(auto)]

ghost use Rattle.std.specs.Prelude.{◌≡◌};
ghost use Rattle.answers.specs.Answer.{node_read, reciprocal_given};
ghost use Rattle.format.specs.Format.{format_of, precision_of, table_bits, input_bits};
ghost use Rattle.nodes.specs.Nodes.{node};
ghost use Rattle.image.specs.Calls.{node_outcome};
ghost use Rattle.interpolation.specs.Reciprocal.{reciprocal, IsWithinUlp};
ghost use Rattle.interpolation.specs.Calls.{reciprocal_outcome};

use answers::{NodeRead, ReciprocalGiven};
use format::FormatNumbers;
use operand::Operand;

// The value of node j through a bound table.
#[unsafe(no_mangle)]
pub extern "C" fn yildegga_bound_node(format: FormatNumbers, image: &[u8], j: u32) -> NodeRead
    ensures outcome { result ≡ node_read (node_outcome (format_of format) image.now j) }
    ensures value { let F = format_of format in
        result.number ≡ 0 → result.value.0 ≡ node (precision_of F) (table_bits F) j }
{
    binding::bound_node(format.into(), image, j).into()
}

// The reciprocal of the operand x through a bound table.
#[unsafe(no_mangle)]
pub extern "C" fn yildegga_bound_reciprocal(
    format: FormatNumbers,
    image: &[u8],
    n: u32,
    x: u64,
) -> ReciprocalGiven
    ensures outcome { result ≡ reciprocal_given (reciprocal_outcome (format_of format) image.now n x) }
    ensures value { let F = format_of format in
        result.number ≡ 0 → result.value.0 ≡ reciprocal (precision_of F) (table_bits F) (input_bits F) n x }
    ensures within_ulp { result.number ≡ 0 → IsWithinUlp (precision_of (format_of format)) n x result.value.0 }
{
    binding::bound_reciprocal(format.into(), image, Operand { n, x }).into()
}
