// Checking an image against the construction, and what stands behind it.
#![tactic(auto)]

ghost use Rattle.std.specs.Prelude.{◌≡◌, ◌+◌, ◌*◌, ◌/◌, ◌<◌, ◌≤◌, ◌↔◌, length, IsOk};
ghost use Rattle.packing.specs.Inner.{window_at};
ghost use Rattle.layout.specs.Layout.{length_of};
ghost use Rattle.answers.specs.Answer.{outcome_of_done};
ghost use Rattle.image.specs.Calls.{check_outcome, IsFullRom};
ghost use Rattle.image.specs.Inner.{layout_of};
ghost use Rattle.checking.specs.Inner.{AreWords, AreRight, wrong_of_two, wrong_word};

use answers::Refused;
use format::{Form, Format};
use nodes::Quotients;

// The lowest wrong one of a pair of words, which are had in one reading, None where both are right. The first bit of a
// pair has an even place: so 58 bits lie within 64 from the start of its byte on, and 60 do, as that place is then a
// multiple of 4.
#[inline(always)]
fn wrong_of_two(image: &[u8], table: Quotients, pair: u32) -> Option<u32>
    requires { AreWords table × (pair < table.count / 2) }
    ensures { result ≡ wrong_of_two (layout_of table) image.now (2 * pair) }
{
    let width = table.width;
    let j = 2 * pair;
    let bit = (j as u64) * (width as u64);
    let both = bits::high(packing::window(image, bit), 64 - 2 * width);
    if table.judged(j, bits::high(both, width) as u32).is_none() {
        return Some(j);
    }
    if table.judged(j + 1, bits::low(both, width) as u32).is_none() {
        return Some(j + 1);
    }
    None
}

// The bits from bit `from` on, at the top of 64, as `packing::window` has them, where eight bytes are there: nothing is
// tested. The compiler makes one reading of the eight.
fn window(image: &[u8], from: u64) -> u64
    requires { from / 8 + 8 ≤ length image.now }
    ensures { result ≡ window_at image.now from }
{
    let at = (from / 8) as usize;
    let eight = u64::from_be_bytes([
        image[at],
        image[at + 1],
        image[at + 2],
        image[at + 3],
        image[at + 4],
        image[at + 5],
        image[at + 6],
        image[at + 7],
    ]);
    eight << (from % 8)
}

// How many words, or one more, are left behind those that are passed: they have 64 bits or more, as a word has 4 or
// more, so that before them eight bytes are there.
const LAST_WORDS: u32 = 16;

// Passes pairs of right words behind the first one and before the last words, so that eight bytes are there and nothing
// has to be tested for that; gives up to which pair all are right. It stops at a pair with a wrong word. The bit place
// runs beside the words: a product in each turn makes the check 13% slower.
#[inline(always)]
fn passed(image: &[u8], table: Quotients) -> u32
    requires words { AreWords table × AreRight (layout_of table) image.now 2 }
    requires long { length_of (layout_of table) ≤ length image.now }
    ensures { (2 * result ≤ table.count) × AreRight (layout_of table) image.now (2 * result) }
{
    let width = table.width;
    let pairs = (table.count.saturating_sub(LAST_WORDS) / 2).max(1);
    let mut bit = 2 * (width as u64);
    for pair in 1..pairs {
        let j = 2 * pair;
        let both = bits::high(window(image, bit), 64 - 2 * width);
        let first = table.judged(j, bits::high(both, width) as u32).is_none();
        let second = table.judged(j + 1, bits::low(both, width) as u32).is_none();
        if first | second {
            return pair;
        }
        bit += 2 * (width as u64);
    }
    pairs
}

// The lowest word of a table that is wrong in the image, None where none is. The first pair is judged by itself, so
// that behind it no word can be that of node 0, which is decoded in a way of its own; so are the pairs behind those
// that are passed, at the end and from one with a wrong word on, and the last word where their number is odd.
#[inline(always)]
fn first_wrong(image: &[u8], table: Quotients) -> Option<u32>
    requires words { AreWords table }
    requires long { length_of (layout_of table) ≤ length image.now }
    ensures { result ≡ wrong_word (layout_of table) image.now }
{
    if let Some(j) = wrong_of_two(image, table, 0) {
        return Some(j);
    }
    for pair in passed(image, table)..table.count / 2 {
        if let Some(j) = wrong_of_two(image, table, pair) {
            return Some(j);
        }
    }
    if table.count % 2 == 0 {
        return None;
    }
    let last = table.count - 1;
    let word = packing::word(image, table.width, last);
    if table.judged(last, word as u32).is_none() {
        return Some(last);
    }
    None
}

// Whether every word of the image is the construction's and nothing but zeros stands behind the last one, to the
// buffer's end. Where a word is wrong, the place is the lowest node of a wrong word; where the words are right and a
// bit behind them is one, it is the lowest byte with such a bit.
#[inline(always)]
fn by_words(format: Format, image: &[u8]) -> Result<(), Refused>
    ensures { outcome_of_done result ≡ check_outcome format image.now }
{
    let table = image::table(format, image.len())?;
    if let Some(j) = first_wrong(image::own_bytes(table, image), table) {
        return Err(Refused::Word(j));
    }
    let end = (table.count as u64) * (table.width as u64);
    if let Some(past) = tail::first_one(image, end) {
        return Err(Refused::Tail(past));
    }
    Ok(())
}

// The same for each form with the usual guard bits by code of its own, in which the compiler knows all but the
// precision. `reading` and `inverting` choose so too: one function for the three would take the call as a closure and
// ask that it may be called, and no open function here asks anything of its caller.
pub fn check(format: Format, image: &[u8]) -> Result<(), Refused>
    ensures outcome { outcome_of_done result ≡ check_outcome format image.now }
    ensures passes { IsOk result ↔ IsFullRom format image.now }
{
    if !format.guard_bits.are_usual() {
        return by_words(format, image);
    }
    match format.form {
        Form::Plain => by_words(Format::plain(format.precision), image),
        Form::Full => by_words(Format::full(format.precision), image),
    }
}
