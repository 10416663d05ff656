// A text that is written into a lent buffer, piece by piece.
ghost use Rattle.std.specs.Prelude.{◌≡◌, length, decimal};
ghost use Rattle.decimal.specs.Inner.{has_room, Puts};
ghost use Rattle.decimal.specs.Decimal.{most_digits};

use itoa::Buffer;

// The most digits that a number of 64 bits has.
pub const MOST_DIGITS: usize = 20;

// A lent buffer, and the place in it where the next piece of text is written. It is no `fmt::Write`: `write!` promises
// its text only where it answers Ok, and nothing promises that it does, so no table could be promised by it.
#[derive(Drop)]
pub struct Text<'a> {
    pub out: &'a mut [u8],
    pub at: usize,
}

impl<'a> Text<'a> {
    // Whether n bytes more lie within the buffer.
    pub fn has_room(&self, n: usize) -> bool
        ensures { result ≡ has_room self.now n }
    {
        if self.out.len() < n {
            return false;
        }
        self.at <= self.out.len() - n
    }

    // Writes t, where it fits, and nothing where it does not.
    pub fn put_text(&mut self, t: &[u8])
        ensures { Puts self.old (length t.now) t.now self.new }
    {
        if !self.has_room(t.len()) {
            return;
        }
        let end = self.at + t.len();
        self.out[self.at..end].copy_from_slice(t);
        self.at = end;
    }

    // Writes the digits of n, where MOST_DIGITS bytes have room, and nothing where they have none.
    pub fn put(&mut self, n: u64)
        ensures written { Puts self.old most_digits (decimal n) self.new }
        ensures most_digits_value { MOST_DIGITS ≡ most_digits }
    {
        if !self.has_room(MOST_DIGITS) {
            return;
        }
        let mut buffer = Buffer::new();
        let digits = buffer.format(n);
        self.put_text(digits.as_bytes());
    }
}
