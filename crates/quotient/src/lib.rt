// A quotient rounded up to a whole number, a test of one by a product alone, and the quotient by way of a guess.
#![tactic(auto)]

ghost use Rattle.std.specs.Prelude.{◌≡◌};
ghost use Rattle.quotient.specs.Quotient.{rounded_up};
ghost use Rattle.quotient.specs.Inner.{numerator_bits, rounds_up};

// The remainder by this is the lowest 63 bits.
const TWO_TO_63: u64 = 1 << 63;

// numerator / divisor rounded up, 0 where the divisor is 0, which no table has: an Option would only be taken apart at
// each call.
pub fn rounded_up(numerator: u64, divisor: u32) -> u64
    ensures { result ≡ rounded_up numerator divisor }
{
    if divisor == 0 {
        return 0;
    }
    numerator.div_ceil(divisor as u64)
}

// Whether value is the quotient rounded up, by a product and one comparison: where the product does not reach the
// numerator, the difference wraps to a number that is not below the divisor. Never where the divisor is 0. Of the
// numerator the lowest 63 bits count, so that this holds of every input and a loop has nothing to test.
pub fn rounds_up(numerator: u64, divisor: u32, value: u32) -> bool
    ensures { result ≡ rounds_up (numerator_bits numerator) divisor value }
{
    let product = (value as u64) * (divisor as u64);
    product.wrapping_sub(numerator % TWO_TO_63) < divisor as u64
}

// The quotient rounded up by way of a guess: where the product shows that the guess is right, it is given, and else a
// division is made. Whatever is guessed, the answer is the same. Of the numerator the lowest 63 bits count, as above.
pub fn settled(numerator: u64, divisor: u32, guess: u32) -> u64
    ensures { result ≡ rounded_up (numerator_bits numerator) divisor }
{
    if rounds_up(numerator, divisor, guess) {
        return guess as u64;
    }
    rounded_up(numerator % TWO_TO_63, divisor)
}
