// A field of a tag: it borrows the bytes that it touches.
ghost use Rattle.std.specs.Prelude.{◌≡◌, ℕ, ◌+◌, ◌%◌};
ghost use Rattle.tags.specs.Views.{held, len_in, bit_answer, bit_in};

use crate::layout::bit as bit_of;

// The word of a field, in the bytes that it touches: `first_bit` is its first bit in the body, `len` its length in bits.
#[derive(Clone, Copy)]
pub struct FieldWord<'a> {
    pub bytes: &'a [u8],
    pub first_bit: usize,
    pub len: usize,
}

impl FieldWord<'_> {
    // Bit `t`, counted from the word's start; none at or past its length.
    pub fn bit(&self, t: usize) -> Option<bool>
        ensures { result ≡ bit_in self.now t }
    {
        (t < self.len).then_some(bit_of(self.bytes, self.first_bit, t))
    }
}

// A path field has a word and a depth, a branch field a word.
#[derive(Clone, Copy)]
pub enum Field<'a> {
    Path { word: FieldWord<'a>, depth: u16 },
    Branch { word: FieldWord<'a> },
}

impl<'a> Field<'a> {
    // The field's word.
    pub fn word(&self) -> FieldWord<'a>
        ensures { result ≡ held self.now }
    {
        match *self {
            Field::Path { word, .. } | Field::Branch { word } => word,
        }
    }

    // How long the field's word is, in bits.
    pub fn len(&self) -> usize
        ensures { result ≡ len_in self.now }
    {
        self.word().len
    }

    // Bit `t` of the field's word, counted from the field's start; none at or past its length.
    pub fn bit(&self, t: usize) -> Option<bool>
        ensures { result ≡ bit_answer self.now t }
    {
        self.word().bit(t)
    }
}
