// The tail of a buffer, what stands behind the words of an image: zeros written there, and the lowest byte found there
// that has a one.
#![tactic(auto)]

ghost use Rattle.std.specs.Prelude.{◌≡◌, ◌↔◌, ◌+◌, ◌*◌, ◌≤◌, length, IsTrue};
ghost use Rattle.tail.specs.Tail.{first_one_in};
ghost use Rattle.tail.specs.Inner.{cleared_from, IsZero, Passed};

// Writes zeros from byte `from` on to the end. It is a loop and no `fill`, which stores the last byte by itself: with
// that, building at precision 1 takes a tenth longer.
#[tactic(auto, using(crate::proofs::Zeros::zeros_next))]
pub fn clear(s: &mut [u8], from: usize)
    ensures { s.new ≡ cleared_from from s.old }
{
    if from < s.len() {
        for byte in &mut s[from..] {
            *byte = 0;
        }
    }
}

// Whether each byte of a block is 0. They are or-ed one to the other: where the number of bytes is a constant the
// compiler makes a few readings of them, without a branch.
fn is_zero(block: &[u8]) -> bool
    ensures { IsTrue result ↔ IsZero block.now 0 (length block.now) }
{
    let mut all = 0;
    for byte in block {
        all |= *byte;
    }
    all == 0
}

// Passes blocks of `size` bytes from `from` on, as long as they are zero: gives where the next one begins, which is not
// zero or not there. The place runs beside the blocks: it is what is asked for.
fn passed(s: &[u8], from: usize, size: usize) -> usize
    requires { (1 ≤ size) × (from ≤ length s.now) }
    ensures { Passed s.now from size result }
{
    let mut at = from;
    for block in s[from..].chunks_exact(size) {
        if !is_zero(block) {
            return at;
        }
        at += size;
    }
    at
}

// The lowest byte from `from` on that is not 0, and None where there is none. Large blocks are passed first, since a
// ROM's tail is long, and small ones next, so that few bytes go one by one.
fn first_set(s: &[u8], from: usize) -> Option<usize>
    ensures { result ≡ first_one_in (8 * from) s.now }
{
    if s.len() <= from {
        return None;
    }
    let large = passed(s, from, 64);
    let small = passed(s, large, 8);
    for at in small..s.len() {
        if s[at] != 0 {
            return Some(at);
        }
    }
    None
}

// The lowest byte with a one at bit `bit` or later, and None where there is none. A bit inside a byte leaves the lowest
// bits of that byte, which is then looked at by itself.
pub fn first_one(s: &[u8], bit: u64) -> Option<usize>
    ensures { result ≡ first_one_in bit s.now }
{
    let first = (bit / 8) as usize;
    if bit % 8 == 0 {
        return first_set(s, first);
    }
    let byte = *s.get(first)?;
    if bits::low(byte as u64, (8 - bit % 8) as u32) != 0 {
        return Some(first);
    }
    first_set(s, first + 1)
}
