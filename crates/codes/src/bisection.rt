// The code by bisection: a word says, split by split, in which half of the list its item stands.
ghost use Rattle.std.specs.Prelude.{◌≡◌, ◌+◌, ◌^◌, ◌<◌, ◌≤◌, length};
ghost use Rattle.codes.specs.Weighing.{most_weight};
ghost use Rattle.codes.specs.Coding.{answer};
ghost use Rattle.codes.specs.Halves.{path, word_of, split_word, bisection};
ghost use Rattle.codes.specs.Theorems.{Halving};
ghost use Rattle.codes.specs.Laws.{bisection_lawful};

use crate::code::{Code, CodeRefusal};
use crate::item::Item;
use crate::word::Word;

// The word that goes on, after the bits of `word`, with those of item `i` of a range of `n` items: at most 15 bits in all, since
// 15 halvings leave one item of a longest list.
#[tactic(auto, using(crate::proofs::Descents::left_word, crate::proofs::Descents::right_word))]
fn descend(word: Word, n: usize, i: usize) -> Word
    requires inside { i < n }
    requires few { n ≤ most_weight }
    requires small { word.value < 2 ^ word.len }
    requires room { word.len + length (path n n i) ≤ 15 }
    ensures { result ≡ word_of word.value word.len (path n n i) }
{
    if n <= 1 {
        return word;
    }
    let half = n.div_ceil(2);
    if i < half {
        descend(word.with_bit(false), half, i)
    } else {
        descend(word.with_bit(true), n - half, i - half)
    }
}

// The word of item `index` of `count`; a lone item has the word 0.
#[tactic(auto, using(crate::specs::Splits::path_short))]
fn split(count: usize, index: usize) -> Word
    requires inside { index < count }
    requires few { count ≤ most_weight }
    ensures { result ≡ split_word count index }
{
    if count == 1 {
        Word { value: 0, len: 1 }
    } else {
        descend(Word { value: 0, len: 0 }, count, index)
    }
}

#[derive(Clone, Copy)]
pub struct Bisection;

impl Code for Bisection {
    ghost words = { λ _. bisection };

    ghost laws = { λ _. bisection_lawful };

    #[tactic(auto, using(crate::proofs::Descents::halving, crate::specs::Sums::count_le_sum))]
    fn word(&self, item: &Item) -> Result<Word, CodeRefusal>
        ensures told { result ≡ answer bisection item.now.weights.now item.now.index }
        ensures halves { Halving }
    {
        // A yes or no, and no option: this code reads the item's place alone, the other one its sums.
        if !item.accepted() {
            return Err(CodeRefusal::NotAccepted);
        }
        Ok(split(item.weights().len(), item.index()))
    }
}
