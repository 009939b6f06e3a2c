// A word of bits.
ghost use Rattle.std.specs.Prelude.{◌≡◌, ◌+◌, ◌*◌, ◌/◌, ◌%◌, ◌^◌, ◌<◌};
ghost use Rattle.codes.specs.Words.{half_range};
ghost use Rattle.codes.specs.Halves.{with_bit};

// A value is kept as two numbers of 16 bits, its high and its low half; so many numbers have 16 bits.
const HALF_RANGE: u32 = 65536;

// The bits of a word are the `len` low bits of `value`, the high bit first. A number and a length, and no list of bits: words are
// made by arithmetic, and rows keep them as numbers.
#[derive(Clone, Copy, PartialEq, Eq, Debug)]
pub struct Word {
    pub value: u32,
    pub len: u8,
}

impl Word {
    // The high 16 bits of its value.
    pub fn high(self) -> u16
        ensures { result ≡ self.value / half_range }
    {
        (self.value / HALF_RANGE) as u16
    }

    // The low 16 bits of its value.
    pub fn low(self) -> u16
        ensures { result ≡ self.value % half_range }
    {
        (self.value % HALF_RANGE) as u16
    }

    // The word with one bit more at its end.
    #[tactic(auto, using(crate::specs::Splits::push_small))]
    pub(crate) fn with_bit(self, bit: bool) -> Word
        requires small { self.value < 2 ^ self.len }
        requires room { self.len < 32 }
        ensures told { result ≡ with_bit self bit }
        ensures small { result.value < 2 ^ result.len }
    {
        Word {
            value: 2 * self.value + u32::from(bit),
            len: self.len + 1,
        }
    }
}

// The value that has these high and these low 16 bits.
pub fn joined(high: u16, low: u16) -> u32
    ensures { result ≡ high * half_range + low }
{
    u32::from(high) * HALF_RANGE + u32::from(low)
}
