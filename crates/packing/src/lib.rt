// Words of any width packed into bytes: how many they take, any bits of them read back, eight bytes at a time, and, in
// `writing`, words written.
#![tactic(auto)]

mod writing;

ghost use Rattle.std.specs.Prelude.{◌≡◌, ◌+◌, ◌-◌, ◌/◌, ◌<◌, ◌≤◌, length};
ghost use Rattle.packing.specs.Packing.{bytes_value, byte_count};
ghost use Rattle.packing.specs.Inner.{window_at, field_read, word_read, widest};

pub use writing::{WIDEST_PUT, Writer};

// The most bits that are read at once wherever they begin: with up to 7 bits before them they lie within 8 bytes.
pub const WIDEST: u32 = 57;

// The bytes that `count` words of `width` bits take, with the bits that fill the last one. With `div_ceil` a node and a
// reciprocal take four instructions more.
pub fn byte_count(width: u32, count: u32) -> u64
    ensures { result ≡ byte_count width count }
{
    ((count as u64) * (width as u64) + 7) / 8
}

// Eight bytes as one number, most significant first. The compiler makes one reading of this.
fn eight(s: &[u8], at: usize) -> u64
    requires { at + 8 ≤ length s.now }
    ensures { result ≡ bytes_value s.now at 8 }
{
    u64::from_be_bytes(*s[at..].first_chunk().unwrap())
}

// The number that the bytes from first up to past make, most significant first. The loop names them by their place:
// over `&s[first..past]` the calls take as many instructions, but lie otherwise: a node takes 9% more time at k = 8 and
// at k = 12, the check 11% less.
fn gather(s: &[u8], first: usize, past: usize) -> u64
    requires { (first ≤ past) × (past ≤ length s.now) × (past - first ≤ 8) }
    ensures { result ≡ bytes_value s.now first (past - first) }
{
    let mut value = 0;
    for at in first..past {
        value = value * 256 + s[at] as u64;
    }
    value
}

// The bits from bit `from` on where not all of eight bytes are there: those past the end count as 0. The last eight are
// read, and of them those before the first that counts fall off at the top. It stands apart: in line it takes registers
// from what is done with each word.
#[inline(never)]
fn window_at_the_end(s: &[u8], from: u64) -> u64
    requires { length s.now < from / 8 + 8 }
    ensures { result ≡ window_at s.now from }
{
    let first = (from / 8) as usize;
    let before = from % 8;
    if s.len() <= first {
        return 0;
    }
    if 8 <= s.len() {
        let last = s.len() - 8;
        return eight(s, last) << (8 * ((first - last) as u64) + before);
    }
    let there = (s.len() - first) as u64;
    gather(s, first, s.len()) << (8 * (8 - there) + before)
}

// The bits from bit `from` on, at the top of 64: 57 of them or more, and zeros below them.
// Bytes past the end count as 0.
#[inline(always)]
pub fn window(s: &[u8], from: u64) -> u64
    ensures { result ≡ window_at s.now from }
{
    let first = (from / 8) as usize;
    if first + 8 <= s.len() {
        return eight(s, first) << (from % 8);
    }
    window_at_the_end(s, from)
}

// The number that the `width` bits from bit `from` on make. Bytes past the end count as 0. Where the bits are more than
// WIDEST, which no table asks for, it is 0: an Option would only be taken apart at each word.
#[inline(always)]
pub fn field(s: &[u8], from: u64, width: u32) -> u64
    ensures value { result ≡ field_read s.now from width }
    ensures widest_value { WIDEST ≡ widest }
{
    if WIDEST < width {
        return 0;
    }
    bits::high(window(s, from), 64 - width)
}

// The word at j of a list of words of `width` bits, 0, as above, where the width is above WIDEST.
#[inline(always)]
pub fn word(s: &[u8], width: u32, j: u32) -> u64
    ensures { result ≡ word_read width s.now j }
{
    field(s, (j as u64) * (width as u64), width)
}
