// The code of Gilbert and Moore: a word is the front of the binary fraction in the middle of its item's part of the whole.
ghost use Rattle.std.specs.Prelude.{◌≡◌, ◌+◌, ◌≤◌};
ghost use Rattle.codes.specs.Weighing.{most_weight};
ghost use Rattle.codes.specs.Coding.{answer, Balanced};
ghost use Rattle.codes.specs.Gilbert.{mid_word, gilbert_moore};
ghost use Rattle.codes.specs.Theorems.{SmallestShift, AtMost16};
ghost use Rattle.codes.specs.Laws.{gilbert_lawful};

use crate::code::{Code, CodeRefusal};
use crate::item::Item;
use crate::word::Word;

// The word of an item from the sum of the weights before it, its own weight and the sum of all.
#[tactic(auto, using(crate::proofs::Shifts::scaled_word))]
fn middle(before: u32, weight: u32, total: u32) -> Word
    requires some { 1 ≤ weight }
    requires within { before + weight ≤ total }
    requires bounded { total ≤ most_weight }
    ensures { result ≡ mid_word total before weight }
{
    // The smallest power of two that takes the weight to the whole sum.
    let scale = total.div_ceil(weight).next_power_of_two();
    Word {
        value: (2 * before + weight) * scale / total,
        len: scale.ilog2() as u8 + 1,
    }
}

#[derive(Clone, Copy)]
pub struct GilbertMoore;

impl Code for GilbertMoore {
    ghost words = { λ _. gilbert_moore };

    ghost laws = { λ _. gilbert_lawful };

    #[tactic(auto, using(crate::specs::Midpoints::shift_reaches, crate::proofs::Shifts::shift_least, crate::proofs::Shifts::gilbert_balanced, crate::specs::Laws::gilbert_short))]
    fn word(&self, item: &Item) -> Result<Word, CodeRefusal>
        ensures told { result ≡ answer gilbert_moore item.now.weights.now item.now.index }
        ensures smallest { SmallestShift }
        ensures balanced { Balanced gilbert_moore }
        ensures short { AtMost16 gilbert_moore }
    {
        // A yes or no, and no option: this code reads the item's sums, the other one its place alone.
        if !item.accepted() {
            return Err(CodeRefusal::NotAccepted);
        }
        Ok(middle(item.before(), item.weight(), item.total()))
    }
}
