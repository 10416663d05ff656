// The image of a format: what it is stands in specs/. Here are the limits that every call on an image tests first, the
// image's own bytes in a buffer, and the node that they give. Every call on an image takes the format and the buffer as
// two parameters; the bound table (crate `binding`) is where they are kept together.
#![tactic(auto)]

ghost use Rattle.std.specs.Prelude.{◌≡◌, IfOk};
ghost use Rattle.answers.specs.Refusal.{outcome};
ghost use Rattle.answers.specs.Answer.{outcome_of};
ghost use Rattle.nodes.specs.Inner.{quotients_of};
ghost use Rattle.image.specs.Refusals.{limits};
ghost use Rattle.image.specs.Inner.{front_of, node_in_bytes};

use answers::Refused;
use format::Format;
use nodes::Quotients;
use units::TableUnits;

// The numbers of the table of a format, where a buffer of `length` bytes has room for its image; else the first of
// refusals 1, 18 and 2 that applies. The bytes of the image are computed and not looked up: indexing the list of
// lengths rebuilds it.
pub fn table(format: Format, length: usize) -> Result<Quotients, Refused>
    ensures refusals { outcome_of (λ _. 0) result ≡ outcome (limits format length) 0 }
    ensures numbers { IfOk result (λ t. t ≡ quotients_of format) }
{
    let table = nodes::table(format)?;
    if (length as u64) < packing::byte_count(table.width, table.count) {
        return Err(Refused::Length);
    }
    Ok(table)
}

// The image's own bytes, the front of the buffer; all of it where that is shorter, which no caller has. Words are read
// from these alone, so that no byte past the image is taken for a part of one; only the check looks at what follows, by
// the crate `tail`. The promise has the bytes, and that they stand where the buffer does.
pub fn own_bytes(table: Quotients, image: &[u8]) -> &[u8]
    ensures bytes { result.now ≡ front_of table image.now }
    ensures same_buffer { result.ref_ptr.0 ≡ image.entry.ref_ptr.0 }
    ensures same_place { result.ref_ptr.1 ≡ image.entry.ref_ptr.1 }
{
    let past = packing::byte_count(table.width, table.count);
    if (image.len() as u64) < past {
        return image;
    }
    &image[..past as usize]
}

// The remainder by this is the lowest 32 bits, in which every word has its place.
const TWO_TO_32: u64 = 1 << 32;

// The value of node j of a table by the image's own bytes, None where its word is wrong; its own word alone is read.
// The node behind the last word, which is node 2^k in plain words, has none: it is the leading one, whatever stands
// there.
#[inline(always)]
pub fn node(table: Quotients, own: &[u8], j: u32) -> Option<TableUnits>
    ensures { result ≡ node_in_bytes table own.now j }
{
    if j == table.count {
        return Some(TableUnits(table.lead as u64));
    }
    table.judged(j, (packing::word(own, table.width, j) % TWO_TO_32) as u32)
}
