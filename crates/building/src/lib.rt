// Building the image of a format in a lent buffer, with zeros to its end.
#![tactic(auto)]

ghost use Rattle.std.specs.Prelude.{◌≡◌, not, ◌+◌, ◌-◌, ◌*◌, T, length, OnOk};
ghost use Rattle.std.specs.Float.Ieee.{is_nan};
ghost use Rattle.std.specs.Float.Ieee.Positive.{positive};
ghost use Rattle.answers.specs.Answer.{outcome_of_done};
ghost use Rattle.packing.specs.Writing.{taken_in, put_bytes, writer_before, bytes_before};
ghost use Rattle.quotient.specs.Quotient.{rounded_up};
ghost use Rattle.answers.specs.Refusal.{served};
ghost use Rattle.image.specs.Calls.{build_outcome, build_leaves, check_outcome};
ghost use Rattle.image.specs.Inner.{quotients};
ghost use Rattle.building.specs.Inner.{CanFill, IsDivisor};

use answers::Refused;
use format::Format;
use nodes::Quotients;
use packing::Writer;

// A guess has 20 bits behind its point, which a division by this drops.
const BEHIND_THE_POINT: u64 = 1 << 20;

// The remainder by this is the lowest 32 bits.
const TWO_TO_32: u64 = 1 << 32;

// A guess at dividend / divisor rounded up. Added to 2^32 + 1 - 2^-20 the quotient leaves 20 bits behind the point, and
// the lowest 32 before the point are the quotient rounded up: in every rounding mode, for a quotient below 2^31 of two
// whole numbers that doubles hold, the divisor below 2^18. Nothing of this is promised, since each guess is judged.
fn guess(dividend: f64, divisor: f64) -> u32
    requires { T (positive dividend) × T (not (is_nan divisor)) }
{
    let raised = dividend / divisor + 4294967296.99999904632568359375;
    (f64::to_bits(raised) / BEHIND_THE_POINT % TWO_TO_32) as u32
}

// Puts word j of a table, which is that of the divisor i = first + j. The bit place is j × width before it and (j + 1)
// × width behind it.
fn put_word(image: &mut [u8], w: Writer, table: Quotients, i: u32, guess: u32) -> Writer
    requires can_fill { CanFill table (length image.old) × IsDivisor table i }
    requires place_before { w.place ≡ (i - table.first) * table.width }
    ensures writer { result ≡ taken_in w table.width (rounded_up table.numerator i) }
    ensures image_after { image.new ≡ put_bytes image.old w table.width (rounded_up table.numerator i) }
    ensures place_after { result.place ≡ (i + 1 - table.first) * table.width }
{
    w.put(
        image,
        table.width,
        quotient::settled(table.numerator, i, guess),
    )
}

// Puts the words of a table, from bit place 0 on: numerator / i rounded up, its lowest bits, for each i from `first`
// on. The divisor runs beside i as a double, for the guesses: a conversion in each turn makes the builder a tenth
// slower. The bit place is count × width at the end, and what waits then is left to `finish`.
fn fill(image: &mut [u8], table: Quotients) -> Writer
    requires { CanFill table (length image.old) }
    ensures writer { result ≡ writer_before table.width (quotients table) table.count }
    ensures bytes { image.new ≡ bytes_before table.width (quotients table) image.old table.count }
    ensures place_after { result.place ≡ table.count * table.width }
{
    let dividend = table.numerator as f64;
    let mut divisor = table.first as f64;
    let mut w = Writer::start();
    for i in table.first..table.first + table.count {
        w = put_word(image, w, table, i, guess(dividend, divisor));
        divisor += 1.0;
    }
    w
}

// Writes the image of a format at the front of the buffer, and zeros behind it to the end; on a refusal every byte
// stays as found.
pub fn build(format: Format, image: &mut [u8]) -> Result<(), Refused>
    ensures value { outcome_of_done result ≡ build_outcome format image.old }
    ensures image_after { image.new ≡ build_leaves format image.old }
    ensures passes { OnOk result (check_outcome format image.new ≡ served 0) }
{
    let table = image::table(format, image.len())?;
    let w = fill(image, table);
    let past = w.finish(image);
    tail::clear(image, past as usize);
    Ok(())
}
