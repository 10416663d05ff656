// The reciprocal of an operand by an image.
#![tactic(auto)]

ghost use Rattle.std.specs.Prelude.{◌≡◌, ◌+◌, ◌/◌, ◌%◌, ◌^◌, IfOk};
ghost use Rattle.answers.specs.Answer.{outcome_of_reciprocal};
ghost use Rattle.format.specs.Format.{usual, plain_of, precision_of, table_bits, input_bits};
ghost use Rattle.nodes.specs.Inner.{quotients_of};
ghost use Rattle.interpolation.specs.Algorithm.{sum_over};
ghost use Rattle.interpolation.specs.Reciprocal.{reciprocal, IsWithinUlp};
ghost use Rattle.interpolation.specs.Calls.{reciprocal_outcome};
ghost use Rattle.interpolation.specs.Inner.{cut_of, cut_outcome};
ghost use Rattle.inverting.specs.Inner.{IsCut, IsPiece, IsPieceOf, both_in, ends_outcome};

use answers::Refused;
use format::{Form, Format};
use nodes::Quotients;
use operand::Operand;
use precision::Precision;
use units::{TableUnits, Ulps};

// R between the nodes lower and upper. The fraction of their piece is f, of `fraction_bits` bits, and `chopped_bits`
// bits of P are chopped off.
fn interpolated(
    lower: TableUnits,
    upper: TableUnits,
    f: u64,
    fraction_bits: u32,
    chopped_bits: u32,
) -> Ulps
    requires { IsPiece lower.0 upper.0 f fraction_bits }
    ensures { result.0 ≡ sum_over (2 ^ fraction_bits) lower.0 upper.0 f / 2 ^ chopped_bits }
{
    let sum = lower.0 * bits::power(fraction_bits) - (lower.0 - upper.0) * f;
    Ulps(bits::high(sum, chopped_bits))
}

// The reciprocal of a cut operand, with the usual guard bits, by the words of both ends of its piece, which begins at
// node j. They stand at the top of the window, and are judged, the lower end first. Of the kept fraction bits the
// last k + 3 are looked at, which are f.
#[inline(always)]
fn by_ends(form: Form, k: Precision, j: u32, window: u64, kept: u64) -> Result<Ulps, Refused>
    requires { IsPieceOf k.0 j }
    ensures { let F = usual form k.0 in
        outcome_of_reciprocal result ≡ ends_outcome F (both_in F window) j (kept % 2 ^ (k.0 + 3)) }
{
    let table = nodes::table(Format::usual(form, k))?;
    let both = bits::high(window, 64 - 2 * table.width);
    let Some(lower) = table.judged(j, bits::high(both, table.width) as u32) else {
        return Err(Refused::Word(j));
    };
    let Some(upper) = table.judged(j + 1, bits::low(both, table.width) as u32) else {
        return Err(Refused::Word(j + 1));
    };
    let fraction_bits = k.0 + 3;
    Ok(interpolated(
        lower,
        upper,
        bits::low(kept, fraction_bits),
        fraction_bits,
        k.0 + 5,
    ))
}

// The same in plain words, for each precision by code of its own, in which the compiler has constants to shift by.
// So the calls stand here one by one, and each takes what this takes. The last arm is for no precision, which `by_ends`
// turns back and no caller hands on.
fn by_precision(k: Precision, j: u32, window: u64, kept: u64) -> Result<Ulps, Refused>
    requires { IsPieceOf k.0 j }
    ensures { let F = plain_of k.0 in
        outcome_of_reciprocal result ≡ ends_outcome F (both_in F window) j (kept % 2 ^ (k.0 + 3)) }
{
    match k.0 {
        1 => by_ends(Form::Plain, Precision(1), j, window, kept),
        2 => by_ends(Form::Plain, Precision(2), j, window, kept),
        3 => by_ends(Form::Plain, Precision(3), j, window, kept),
        4 => by_ends(Form::Plain, Precision(4), j, window, kept),
        5 => by_ends(Form::Plain, Precision(5), j, window, kept),
        6 => by_ends(Form::Plain, Precision(6), j, window, kept),
        7 => by_ends(Form::Plain, Precision(7), j, window, kept),
        8 => by_ends(Form::Plain, Precision(8), j, window, kept),
        9 => by_ends(Form::Plain, Precision(9), j, window, kept),
        10 => by_ends(Form::Plain, Precision(10), j, window, kept),
        11 => by_ends(Form::Plain, Precision(11), j, window, kept),
        12 => by_ends(Form::Plain, Precision(12), j, window, kept),
        _ => by_ends(Form::Plain, k, j, window, kept),
    }
}

// The same in each form: full words have one code for all precisions.
#[inline(always)]
fn by_form(form: Form, k: Precision, j: u32, window: u64, kept: u64) -> Result<Ulps, Refused>
    requires { IsPieceOf k.0 j }
    ensures { let F = usual form k.0 in
        outcome_of_reciprocal result ≡ ends_outcome F (both_in F window) j (kept % 2 ^ (k.0 + 3)) }
{
    match form {
        Form::Plain => by_precision(k, j, window, kept),
        Form::Full => by_ends(Form::Full, k, j, window, kept),
    }
}

// The reciprocal of the cut operand of which these 2k + 3 fraction bits were kept, where precision and image keep
// their limits. The first k of them are j. The words at both ends of its piece are had in one reading.
// Plain words have none of node 2^k. Behind the last of them, which fill their bytes, zero bits are read, which are
// judged to be that node.
#[inline(always)]
fn of_cut(
    form: Form,
    k: Precision,
    table: Quotients,
    image: &[u8],
    kept: u64,
) -> Result<Ulps, Refused>
    requires cut { IsCut form k.0 image.now kept }
    requires numbers { table ≡ quotients_of (usual form k.0) }
    ensures { outcome_of_reciprocal result ≡ cut_outcome (usual form k.0) image.now (cut_of k.0 3 kept) }
{
    let j = bits::high(kept, k.0 + 3) as u32;
    let bit = (j as u64) * (table.width as u64);
    let window = packing::window(image::own_bytes(table, image), bit);
    by_form(form, k, j, window, kept)
}

// The reciprocal of an operand by a table with the usual guard bits: its first 2k + 3 fraction bits decide, zeros
// where it has fewer.
#[inline(always)]
fn of_operand(form: Form, k: Precision, image: &[u8], operand: Operand) -> Result<Ulps, Refused>
    ensures { outcome_of_reciprocal result ≡ reciprocal_outcome (usual form k.0) image.now operand.n operand.x }
{
    let table = image::table(Format::usual(form, k), image.len())?;
    operand.limits()?;
    of_cut(form, k, table, image, operand.cut(2 * k.0 + 3))
}

// The reciprocal of an operand by any table: one code for all guard bits and precisions, of which each form has its
// own copy. Both words are read by themselves, since two full words can have 60 bits, and what stands behind the last
// plain word can be filling bits.
#[inline(always)]
fn by_nodes(format: Format, image: &[u8], operand: Operand) -> Result<Ulps, Refused>
    ensures { outcome_of_reciprocal result ≡ reciprocal_outcome format image.now operand.n operand.x }
{
    let table = image::table(format, image.len())?;
    operand.limits()?;
    let k = format.precision.0;
    let fraction_bits = k + format.guard_bits.input;
    let kept = operand.cut(k + fraction_bits);
    let own = image::own_bytes(table, image);
    let j = bits::high(kept, fraction_bits) as u32;
    let Some(lower) = image::node(table, own, j) else {
        return Err(Refused::Word(j));
    };
    let Some(upper) = image::node(table, own, j + 1) else {
        return Err(Refused::Word(j + 1));
    };
    Ok(interpolated(
        lower,
        upper,
        bits::low(kept, fraction_bits),
        fraction_bits,
        fraction_bits + format.guard_bits.table,
    ))
}

// The reciprocal of an operand. Where one is given it is R, and R is within an ulp.
// Each form has code of its own, in which the compiler knows it, and with the usual guard bits knows these too.
// The choice stands here as in `reading` and `checking`. A function that they share would take the call as a closure,
// and be open only with a `requires` that this may be called, which no open call here has.
pub fn reciprocal(format: Format, image: &[u8], operand: Operand) -> Result<Ulps, Refused>
    ensures outcome { outcome_of_reciprocal result ≡ reciprocal_outcome format image.now operand.n operand.x }
    ensures value { IfOk result
        (λ R. R.0 ≡ reciprocal (precision_of format) (table_bits format) (input_bits format) operand.n operand.x) }
    ensures within_ulp { IfOk result (λ R. IsWithinUlp (precision_of format) operand.n operand.x R.0) }
{
    if format.guard_bits.are_usual() {
        return match format.form {
            Form::Plain => of_operand(Form::Plain, format.precision, image, operand),
            Form::Full => of_operand(Form::Full, format.precision, image, operand),
        };
    }
    match format.form {
        Form::Plain => by_nodes(format.in_form(Form::Plain), image, operand),
        Form::Full => by_nodes(format.in_form(Form::Full), image, operand),
    }
}
