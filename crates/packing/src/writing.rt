// Words written into bytes one behind the other, by a writer that keeps the bit place of the next word.
ghost use Rattle.std.specs.Prelude.{◌≡◌, ◌+◌, ◌≤◌, length};
ghost use Rattle.packing.specs.Packing.{bytes_taken};
ghost use Rattle.packing.specs.Writing.{started, put_writer, put_leaves, finish_leaves, stored, widest_put};

// The most bits that are put at once.
pub const WIDEST_PUT: u32 = 32;

// A writer that has taken `place` bits in, which is where the next word goes. They are stored eight bytes at a time:
// place % 64 of them wait for their bytes, as the lowest bits of `waiting`. The bits above those do not count.
#[derive(Clone, Copy)]
pub struct Writer {
    pub waiting: u64,
    pub place: u64,
}

// Stores a number as eight bytes from `at` on, the highest first. The compiler makes one store of this.
fn store_eight(image: &mut [u8], at: usize, eight: u64)
    requires { at + 8 ≤ length image.old }
    ensures { image.new ≡ stored image.old at 8 eight }
{
    image[at..at + 8].copy_from_slice(&eight.to_be_bytes());
}

impl Writer {
    // A writer that has taken nothing in.
    pub fn start() -> Writer
        ensures { result ≡ started }
    {
        Writer {
            waiting: 0,
            place: 0,
        }
    }

    // Takes the lowest `width` bits of `word` in behind those that wait, and stores eight bytes where that makes 64
    // bits. A width above WIDEST_PUT, or no room for the eight bytes, gives the writer back and leaves the buffer: so a
    // loop has nothing to test. The buffer is lent to each put and not kept in the writer, which is so two numbers that
    // registers carry, handed on by value.
    pub fn put(self, image: &mut [u8], width: u32, word: u64) -> Writer
        ensures value { result ≡ put_writer image.old self width word }
        ensures image_after { image.new ≡ put_leaves image.old self width word }
        ensures widest_put_value { WIDEST_PUT ≡ widest_put }
    {
        if WIDEST_PUT < width {
            return self;
        }
        let taken = bits::low(word, width);
        let place = self.place.wrapping_add(width as u64);
        let over = (place % 64) as u32;
        if width <= over {
            let waiting = bits::padded(self.waiting, width) + taken;
            return Writer { waiting, place };
        }
        let group = self.place / 64;
        if (image.len() as u64) / 8 <= group {
            return self;
        }
        store_eight(
            image,
            (8 * group) as usize,
            bits::padded(self.waiting, width - over) + bits::high(taken, over),
        );
        Writer {
            waiting: taken,
            place,
        }
    }

    // Stores what still waits, with zero bits to the byte's end, and tells how many bytes all that was taken in has.
    // Where the buffer is shorter, it is left. The bytes are written one by one: to copy them, whose number is no
    // constant, calls `memcpy`, and to zip them with an array goes through the stack.
    pub fn finish(self, image: &mut [u8]) -> u64
        ensures value { result ≡ bytes_taken self.place }
        ensures image_after { image.new ≡ finish_leaves image.old self }
    {
        let waits = (self.place % 64) as u32;
        let first = self.place / 64 * 8;
        let past = first + waits.div_ceil(8) as u64;
        if (image.len() as u64) < past {
            return past;
        }
        let mut rest = bits::padded(self.waiting, 64 - waits);
        for byte in &mut image[first as usize..past as usize] {
            *byte = (rest >> 56) as u8;
            rest = rest << 8;
        }
        past
    }
}
