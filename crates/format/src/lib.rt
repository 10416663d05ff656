// The description of the table that a call is asked for: its precision, the form of its words and its guard bits; and
// what follows from it, the width and the number of the words and the length of the image.
#![tactic(auto)]

mod guard_bits;

ghost use Rattle.std.specs.Prelude.{◌≡◌, if◌then◌else◌};
ghost use Rattle.precision.specs.Precision.{greatest, in_range};
ghost use Rattle.format.specs.GuardBits.{greatest_table, least_input};
ghost use Rattle.format.specs.declared.Form.TheVariants.{Full};
ghost use Rattle.format.specs.Format.{asked, usual, plain_of, full_of, guarded, formed, form_of, format_of};
ghost use Rattle.format.specs.Format.{precision_of, is_offered, word_width, word_count, image_length};

pub use guard_bits::GuardBits;
use precision::Precision;

// How the words of an image hold the nodes.
#[derive(Clone, Copy, PartialEq, Eq, Debug)]
pub enum Form {
    // Words of 2k + a bits, which leave the leading one out, for the nodes below 2^k.
    Plain,
    // Words of 2k + a + 2 bits, which hold the node itself, for every node.
    Full,
}

// A table as it is asked for. Any precision and any guard bits can be asked for; those in their ranges are served.
#[derive(Clone, Copy, PartialEq, Eq, Debug)]
pub struct Format {
    pub precision: Precision,
    pub form: Form,
    pub guard_bits: GuardBits,
}

// The same as C hands it over: form 0 is plain, and any other number is full. It is a struct of plain numbers: C has
// no enum of Rattle's and may hand over any number.
#[repr(C)]
#[derive(Clone, Copy)]
pub struct FormatNumbers {
    pub precision: u32,
    pub form: u32,
    pub table_guard_bits: u32,
    pub input_guard_bits: u32,
}

impl Format {
    // The bytes of the longest image of plain words with two table guard bits, that of the greatest precision.
    pub const LONGEST_PLAIN: usize = Precision::LONGEST_IMAGE;
    // The bytes of the longest image of full words with two table guard bits.
    pub const LONGEST_FULL: usize = 14340;
    // The bytes of the longest image of all, that of full words with the most table guard bits.
    pub const LONGEST: usize = 15364;

    // A form and a precision with two table guard bits and three input guard bits.
    pub fn usual(form: Form, k: Precision) -> Format
        ensures { result ≡ usual form k.0 }
    {
        Format {
            precision: k,
            form,
            guard_bits: GuardBits::USUAL,
        }
    }

    // Plain words with these.
    pub fn plain(k: Precision) -> Format
        ensures { result ≡ plain_of k.0 }
    {
        Format::usual(Form::Plain, k)
    }

    // Full words with these.
    pub fn full(k: Precision) -> Format
        ensures { result ≡ full_of k.0 }
    {
        Format::usual(Form::Full, k)
    }

    // The same precision and form with other guard bits, any two numbers.
    pub fn with_guard_bits(self, table: u32, input: u32) -> Format
        ensures { result ≡ guarded self table input }
    {
        Format {
            precision: self.precision,
            form: self.form,
            guard_bits: GuardBits { table, input },
        }
    }

    // The same precision and guard bits in a form. A call hands this on to its code for that form, in which the
    // compiler then knows it.
    pub fn in_form(self, form: Form) -> Format
        ensures { result ≡ formed self form }
    {
        Format {
            precision: self.precision,
            form,
            guard_bits: self.guard_bits,
        }
    }

    // Whether precision and guard bits are in their ranges, so that there is such a table.
    pub fn is_offered(self) -> bool
        ensures { result ≡ is_offered self }
    {
        self.precision.in_range() && self.guard_bits.in_range()
    }

    // The bits of one word, of any numbers k and a: 2k + a plain, 2k + a + 2 full.
    pub fn word_width(self) -> u64
        ensures { result ≡ word_width self }
    {
        let plain = self.precision.word_width(self.guard_bits.table);
        match self.form {
            Form::Plain => plain,
            Form::Full => plain + 2,
        }
    }

    // The words of the image, 2^k plain and 2^k + 1 full, and None where the precision is none.
    pub fn word_count(self) -> Option<u32>
        ensures { result ≡ (if in_range (precision_of self) then Some (word_count self) else None) }
    {
        let plain = self.precision.word_count()?;
        Some(match self.form {
            Form::Plain => plain,
            Form::Full => plain + 1,
        })
    }

    // The bytes of the image, None where there is no such table.
    pub fn image_length(self) -> Option<usize>
        ensures value { result ≡ (if is_offered self then Some (image_length self) else None) }
        ensures longest_plain { Format.LONGEST_PLAIN ≡ image_length (plain_of greatest) }
        ensures longest_full { Format.LONGEST_FULL ≡ image_length (full_of greatest) }
        ensures longest { Format.LONGEST ≡ image_length (asked Full greatest greatest_table least_input) }
    {
        if !self.is_offered() {
            return None;
        }
        let count = self.word_count()?;
        Some(packing::byte_count(self.word_width() as u32, count) as usize)
    }
}

// The form that a number of C stands for.
impl From<u32> for Form {
    ghost from_gives = { λ n f. f ≡ form_of n };

    fn from(number: u32) -> Form {
        match number {
            0 => Form::Plain,
            _ => Form::Full,
        }
    }
}

// The format that the numbers of C stand for.
impl From<FormatNumbers> for Format {
    ghost from_gives = { λ n f. f ≡ format_of n };

    fn from(numbers: FormatNumbers) -> Format {
        Format {
            precision: Precision(numbers.precision),
            form: Form::from(numbers.form),
            guard_bits: GuardBits {
                table: numbers.table_guard_bits,
                input: numbers.input_guard_bits,
            },
        }
    }
}
