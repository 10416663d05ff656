// Reading an image: the value of one node, and the bytes that hold one word.
#![tactic(auto)]

ghost use Rattle.std.specs.Prelude.{◌≡◌, ◌+◌, IfOk};
ghost use Rattle.format.specs.Format.{precision_of, table_bits};
ghost use Rattle.nodes.specs.Nodes.{node};
ghost use Rattle.answers.specs.Answer.{outcome_of_node, part};
ghost use Rattle.image.specs.Calls.{node_outcome, shown_part, shown_from, shown_count};

use answers::{Part, Refused};
use format::{Form, Format};
use units::TableUnits;

// The value of node j; its own word alone is read, and none where it has none.
#[inline(always)]
fn by_word(format: Format, image: &[u8], j: u32) -> Result<TableUnits, Refused>
    ensures { outcome_of_node result ≡ node_outcome format image.now j }
{
    let table = image::table(format, image.len())?;
    if table.first < j {
        return Err(Refused::Node);
    }
    image::node(table, image::own_bytes(table, image), j).ok_or(Refused::Word(j))
}

// The same for each form by code of its own, in which the compiler knows it, and with the usual guard bits knows these
// too. `checking` and `inverting` choose so too: one function for the three would take the call as a closure and ask
// that it may be called, and no open function here asks anything of its caller.
pub fn node(format: Format, image: &[u8], j: u32) -> Result<TableUnits, Refused>
    ensures outcome { outcome_of_node result ≡ node_outcome format image.now j }
    ensures value { IfOk result (λ c. c.0 ≡ node (precision_of format) (table_bits format) j) }
{
    if format.guard_bits.are_usual() {
        return match format.form {
            Form::Plain => by_word(Format::plain(format.precision), image, j),
            Form::Full => by_word(Format::full(format.precision), image, j),
        };
    }
    match format.form {
        Form::Plain => by_word(format.in_form(Form::Plain), image, j),
        Form::Full => by_word(format.in_form(Form::Full), image, j),
    }
}

// Where in the image the bytes stand that hold the word of node j; none, at the front, where there is no such word. The
// word is not judged. The last byte is counted as `packing::byte_count` does, without `div_ceil`.
pub fn word_part(format: Format, image: &[u8], j: u32) -> Part
    ensures { result ≡ part (shown_from format image.now j) (shown_count format image.now j) }
{
    match image::table(format, image.len()) {
        Ok(table) if j < table.count => {
            let width = table.width as u64;
            let bit = (j as u64) * width;
            let first = (bit / 8) as usize;
            let past = ((bit + width + 7) / 8) as usize;
            Part {
                offset: first,
                count: past - first,
            }
        }
        _ => Part {
            offset: 0,
            count: 0,
        },
    }
}

// The bytes of the image that hold the word of node j, or an empty part. The word is not judged. The promise has the
// bytes, and where in the caller's image they stand: its memory, and the first byte's place in it.
pub fn word_bytes(format: Format, image: &[u8], j: u32) -> &[u8]
    ensures bytes { result.now ≡ shown_part format image.now j }
    ensures same_buffer { result.ref_ptr.0 ≡ image.entry.ref_ptr.0 }
    ensures at_place { result.ref_ptr.1 ≡ shown_from format image.now j + image.entry.ref_ptr.1 }
{
    let part = word_part(format, image, j);
    let first = part.offset;
    let past = first + part.count;
    &image[first..past]
}
