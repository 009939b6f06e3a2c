// What a code is, and what it answers.
ghost use Rattle.std.specs.Prelude.{◌≡◌, ℕ, ◌<◌, List, IfOk};
ghost use Rattle.codes.specs.Words.{bits, Before, Fit};
ghost use Rattle.codes.specs.Coding.{refusal_number, answer, pair_answer, Lawful};
ghost use Rattle.codes.specs.declared.word.Word.{Word};

use crate::item::Item;
use crate::word::Word;

// Why a code gives no word.
#[derive(Clone, Copy, PartialEq, Eq, Debug)]
pub enum CodeRefusal {
    // The list is not one that codes take, or the index is past its end.
    NotAccepted = 24,
}

impl CodeRefusal {
    // The number under which a refusal is told.
    pub fn number(self) -> u8
        ensures { result ≡ refusal_number self }
    {
        self as u8
    }
}

// A code: its words, for each list of weights and each index, and that they keep the law of codes.
pub trait Code {
    ghost words: { Self → List ℕ → ℕ → Word };

    ghost laws: { (c : Self) → Lawful (words c) };

    // The word of an item, or the refusal. No default with the test of the item: each code's own `word` promises more than this.
    fn word(&self, item: &Item) -> Result<Word, CodeRefusal>
        ensures told { result ≡ answer (words self.now) item.now.weights.now item.now.index };
}

// The word of one item of a list, by any code. Code and list are no struct, here and in what follows: any code takes any list.
#[tactic(auto, using(crate::proofs::Answering::answer_fit))]
pub fn word_at<C: Code>(code: &C, weights: &[u16], index: usize) -> Result<Word, CodeRefusal>
    ensures told { result ≡ answer (C.words code.now) weights.now index }
    ensures fit { IfOk result Fit }
{
    code.word(&Item::at(weights, index))
}

// The words of two items of a list, by any code. Where the first item stands before the second, so does its word.
#[tactic(auto, using(crate::proofs::Answering::answer_ok, crate::proofs::Answering::pair_before))]
pub fn two_words<C: Code>(
    code: &C,
    weights: &[u16],
    first: usize,
    second: usize,
) -> Result<(Word, Word), CodeRefusal>
    ensures told { result ≡ pair_answer (C.words code.now) weights.now first second }
    ensures ordered { first < second → IfOk result (λ p. Before (bits p.0) (bits p.1)) }
{
    let a = word_at(code, weights, first)?;
    let b = word_at(code, weights, second)?;
    Ok((a, b))
}
