// Bits in bytes, the high bit of a byte first.
ghost use Rattle.std.specs.Prelude.{◌≡◌, ℕ, ◌+◌, ◌*◌, ◌^◌, ◌<◌, ◌≤◌, true, false, length, slice_index_or, slice_set};
ghost use Rattle.codes.specs.Words.{bits};
ghost use Rattle.writing.specs.Bits.{unpacked};
ghost use Rattle.writing.specs.Writes.{Wrote};

use codes::word::Word;
use formats::layout::BYTE_BITS;

const HIGH_BIT: u8 = 128;

// Sets a bit.
#[tactic(auto, using(crate::proofs::Packing::set_at_bit))]
fn set_bit(out: &mut [u8], j: usize)
    requires { j < 8 * length out.old }
    ensures { unpacked out.new ≡ slice_set (unpacked out.old) j true }
{
    out[j / BYTE_BITS] |= HIGH_BIT >> (j % BYTE_BITS);
}

// Writes the bits of a word from the bit `at` on, where all is clear. A word may begin within a byte, so it gets no part of the output
// to itself.
#[tactic(auto, using(crate::proofs::Packing::length_unpacked, crate::proofs::Puts::wrote_nil))]
pub fn put_word(out: &mut [u8], at: usize, word: Word)
    requires room { at + word.len ≤ 8 * length out.old }
    requires short { word.len ≤ 32 }
    requires long { length out.old < 2 ^ 60 }
    requires clear { (j : ℕ) → at ≤ j → slice_index_or (unpacked out.old) j false ≡ false }
    ensures { Wrote at (bits word) (unpacked out.old) (unpacked out.new) }
{
    // The i-th bit from the front is the i-th last of the value: one number for both is plainer than two iterators. The library has no test
    // of a bit, so it is shifted to the end.
    for i in 0..word.len {
        if (word.value >> (word.len - 1 - i)) % 2 == 1 {
            set_bit(out, at + i as usize);
        }
    }
}
