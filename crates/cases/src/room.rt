// The room, whose front the calls are lent.
ghost use Rattle.std.specs.Prelude.{◌<◌};

#[derive(Drop)]
pub(crate) struct Room {
    // What is not lent stays as it is, for a later line that lends more: so `lent` is a number beside the bytes, and
    // not their length.
    bytes: [u8; 16384],
    // How many bytes at the front are lent. It may be more than there are.
    lent: usize,
}

impl Room {
    pub(crate) fn new() -> Self {
        Room {
            bytes: [0; 16384],
            lent: 0,
        }
    }

    // The lent bytes, and None where more are lent than there are.
    pub(crate) fn lent(&self) -> Option<&[u8]> {
        self.bytes.get(..self.lent)
    }

    pub(crate) fn lent_mut(&mut self) -> Option<&mut [u8]> {
        let lent = self.lent;
        self.bytes.get_mut(..lent)
    }

    pub(crate) fn lend(&mut self, n: usize) {
        self.lent = n;
    }

    // Sets each byte: the first one, and what is added from one to the next.
    pub(crate) fn fill(&mut self, first: u8, step: u8) {
        let mut next = first;
        for byte in self.bytes.iter_mut() {
            *byte = next;
            next = next.wrapping_add(step);
        }
    }

    // Changes the bits of a byte that `mask` has, where there is such a byte.
    pub(crate) fn flip(&mut self, place: usize, mask: u8) {
        if let Some(byte) = self.bytes.get_mut(place) {
            *byte ^= mask;
        }
    }

    // Puts the bytes of `HH HH ..` at the front, as many as there is room for, and lends them.
    pub(crate) fn put_hex(&mut self, pairs: &[u8]) {
        self.lent = 0;
        for (n, (byte, pair)) in self.bytes.iter_mut().zip(pairs.chunks(3)).enumerate() {
            let [high, low, ..] = pair else {
                break;
            };
            *byte = 16 * digit(*high) + digit(*low);
            self.lent = n + 1;
        }
    }
}

// The worth of a hex digit in capitals, and 0 for another byte.
fn digit(b: u8) -> u8
    ensures { result < 16 }
{
    match b {
        b'0'..=b'9' => b - b'0',
        b'A'..=b'F' => b - b'A' + 10,
        _ => 0,
    }
}
