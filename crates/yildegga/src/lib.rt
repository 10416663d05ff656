// The library for C and Rust: its calls under one prefix, over plain numbers and lent bytes. Each promises of its
// answer and of the lent bytes what the call beneath it does. A table is asked for by the numbers of its format. C
// has no Option: where there is no image and no node, 0 is handed out.
#![tactic(auto)]

ghost use Rattle.std.specs.Prelude.{◌≡◌, ◌↔◌};
ghost use Rattle.answers.specs.Refusal.{served};
ghost use Rattle.answers.specs.Answer.{done, node_read, reciprocal_given, part};
ghost use Rattle.format.specs.Format.{format_of, length_or_0, precision_of, table_bits, input_bits};
ghost use Rattle.nodes.specs.Nodes.{node, node_or_0};
ghost use Rattle.image.specs.Calls.{
  build_outcome,
  build_leaves,
  check_outcome,
  node_outcome,
  IsFullRom,
  shown_from,
  shown_count,
};
ghost use Rattle.interpolation.specs.Reciprocal.{reciprocal, IsWithinUlp};
ghost use Rattle.interpolation.specs.Calls.{reciprocal_outcome};

use answers::{Done, NodeRead, Part, ReciprocalGiven};
use format::{Format, FormatNumbers};
use operand::Operand;
use units::TableUnits;

// The bytes of the image of a format, 0 where there is no such table.
#[unsafe(no_mangle)]
pub extern "C" fn yildegga_image_length(format: FormatNumbers) -> usize
    ensures { result ≡ length_or_0 (format_of format) }
{
    Format::from(format).image_length().unwrap_or(0)
}

// Writes the image of a format at the front of the buffer, and zeros behind it to the end.
#[unsafe(no_mangle)]
pub extern "C" fn yildegga_build(format: FormatNumbers, image: &mut [u8]) -> Done
    ensures value { result ≡ done (build_outcome (format_of format) image.old) }
    ensures image_after { image.new ≡ build_leaves (format_of format) image.old }
    ensures passes { result.number ≡ 0 → check_outcome (format_of format) image.new ≡ served 0 }
{
    building::build(format.into(), image).into()
}

// Whether every word of the image is the construction's and all bits behind the last one are zero. The place of
// refusal 6 is the lowest node of a wrong word, that of refusal 7 the lowest byte with a one behind the last word.
#[unsafe(no_mangle)]
pub extern "C" fn yildegga_check(format: FormatNumbers, image: &[u8]) -> Done
    ensures outcome { result ≡ done (check_outcome (format_of format) image.now) }
    ensures passes { (result.number ≡ 0) ↔ IsFullRom (format_of format) image.now }
{
    checking::check(format.into(), image).into()
}

// The value of node j.
#[unsafe(no_mangle)]
pub extern "C" fn yildegga_node(format: FormatNumbers, image: &[u8], j: u32) -> NodeRead
    ensures outcome { result ≡ node_read (node_outcome (format_of format) image.now j) }
    ensures value { let F = format_of format in
        result.number ≡ 0 → result.value.0 ≡ node (precision_of F) (table_bits F) j }
{
    reading::node(format.into(), image, j).into()
}

// Node j of precision 8 with two table guard bits by the constant list, with no image lent, 0 where j is above 256.
#[unsafe(no_mangle)]
pub extern "C" fn yildegga_node_8(j: u32) -> TableUnits
    ensures { result.0 ≡ node_or_0 8 j }
{
    nodes::node_8(j).unwrap_or(TableUnits(0))
}

// Where in the image the bytes stand that hold the word of node j, by the place of the first and their number.
#[unsafe(no_mangle)]
pub extern "C" fn yildegga_word_bytes(format: FormatNumbers, image: &[u8], j: u32) -> Part
    ensures { result ≡ part (shown_from (format_of format) image.now j) (shown_count (format_of format) image.now j) }
{
    reading::word_part(format.into(), image, j)
}

// The reciprocal of the operand x, which has n fraction bits.
#[unsafe(no_mangle)]
pub extern "C" fn yildegga_reciprocal(
    format: FormatNumbers,
    image: &[u8],
    n: u32,
    x: u64,
) -> ReciprocalGiven
    ensures outcome { result ≡ reciprocal_given (reciprocal_outcome (format_of format) image.now n x) }
    ensures value { let F = format_of format in
        result.number ≡ 0 → result.value.0 ≡ reciprocal (precision_of F) (table_bits F) (input_bits F) n x }
    ensures within_ulp { result.number ≡ 0 → IsWithinUlp (precision_of (format_of format)) n x result.value.0 }
{
    inverting::reciprocal(format.into(), image, Operand { n, x }).into()
}
