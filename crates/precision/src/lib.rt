// The notion of a precision: its limits, the width of a plain word and the length of a plain image with two table guard
// bits.
#![tactic(auto)]

ghost use Rattle.std.specs.Prelude.{◌≡◌, if◌then◌else◌};
ghost use Rattle.precision.specs.Precision.{least, greatest, in_range, word_width, word_count};
ghost use Rattle.precision.specs.Precision.{image_length, image_lengths, longest_image};

// A precision as it is asked for. Any number can be asked for; 1 to 12 are served.
#[derive(Clone, Copy, PartialEq, Eq, Debug)]
pub struct Precision(pub u32);

// The lengths of the plain images of precisions 1 to 12 with two table guard bits, at k - 1: the product holds them as
// a constant list.
const IMAGE_LENGTHS: [usize; 12] = [1, 3, 8, 20, 48, 112, 256, 576, 1280, 2816, 6144, 13312];

impl Precision {
    // The least precision.
    pub const LEAST: u32 = 1;
    // The greatest precision.
    pub const GREATEST: u32 = 12;
    // The bytes of the longest plain image with two table guard bits, that of the greatest precision.
    pub const LONGEST_IMAGE: usize = 13312;

    // Whether this is a precision, from LEAST to GREATEST.
    pub fn in_range(self) -> bool
        ensures value { result ≡ in_range self.0 }
        ensures least { Precision.LEAST ≡ least }
        ensures greatest { Precision.GREATEST ≡ greatest }
    {
        (Precision::LEAST..=Precision::GREATEST).contains(&self.0)
    }

    // The bits of one plain word with a table guard bits, 2k + a, of any numbers k and a.
    pub fn word_width(self, table_guard_bits: u32) -> u64
        ensures { result ≡ word_width self.0 table_guard_bits }
    {
        2 * (self.0 as u64) + (table_guard_bits as u64)
    }

    // The words of the plain image, 2^k, and None where this is no precision.
    pub fn word_count(self) -> Option<u32>
        ensures { result ≡ (if in_range self.0 then Some (word_count self.0) else None) }
    {
        if !self.in_range() {
            return None;
        }
        Some(1 << self.0)
    }

    // The bytes of the plain image with two table guard bits, None where this is no precision.
    pub fn image_length(self) -> Option<usize>
        ensures value { result ≡ (if in_range self.0 then Some (image_length self.0) else None) }
        ensures list { IMAGE_LENGTHS ≡ image_lengths }
        ensures longest { Precision.LONGEST_IMAGE ≡ longest_image }
    {
        if !self.in_range() {
            return None;
        }
        Some(IMAGE_LENGTHS[(self.0 - 1) as usize])
    }
}
