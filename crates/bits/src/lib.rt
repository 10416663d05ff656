// Shifts in plain arithmetic, for any count of bits.
#![tactic(auto)]

ghost use Rattle.std.specs.Prelude.{◌≡◌};
ghost use Rattle.bits.specs.Inner.{high_bits, low_bits, padded_bits, power_or_0};

// x without its lowest `count` bits.
pub fn high(x: u64, count: u32) -> u64
    ensures { result ≡ high_bits x count }
{
    if 64 <= count {
        return 0;
    }
    x >> count
}

// The lowest `count` bits of x.
pub fn low(x: u64, count: u32) -> u64
    ensures { result ≡ low_bits x count }
{
    if 64 <= count {
        return x;
    }
    x - ((x >> count) << count)
}

// The lowest 64 bits of x with `count` zero bits written to its right.
pub fn padded(x: u64, count: u32) -> u64
    ensures { result ≡ padded_bits x count }
{
    if 64 <= count {
        return 0;
    }
    x << count
}

// 2 to the power of `exponent`, 0 where it has no place in 64 bits, which no caller asks for: an Option would only be
// taken apart at each call.
pub fn power(exponent: u32) -> u64
    ensures { result ≡ power_or_0 exponent }
{
    if 64 <= exponent {
        return 0;
    }
    1 << exponent
}
