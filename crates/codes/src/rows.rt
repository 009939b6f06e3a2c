// The words of a whole list, in rows.
ghost use Rattle.std.specs.Prelude.{◌≡◌, ◌/◌, ◌%◌, length, is_ok, if◌then◌else◌, slice_set};
ghost use Rattle.codes.specs.Words.{half_range};
ghost use Rattle.codes.specs.Rows.{encode_answer, Encoded, SameRows};

use crate::code::Code;
use crate::item::Item;
use crate::word::Word;

// Why no words were written.
#[derive(Clone, Copy, PartialEq, Eq, Debug)]
pub enum EncodeRefusal {
    // Codes don't take the list. Found by the item's own test before any word is asked for, so there is no `CodeRefusal` to convert.
    NotAccepted,
    // The list is one that codes take, and some row is shorter than it.
    RowTooShort,
}

// Rows that hold words, one at each place: the high and the low 16 bits of its value, and its length.
#[derive(Drop)]
pub struct WordRows<'a> {
    pub high: &'a mut [u16],
    pub low: &'a mut [u16],
    pub len: &'a mut [u16],
}

// Writes a number at a place of a row, if the row has it. By `get_mut` its proof did not close: no number of the row is known then.
fn put_at(row: &mut [u16], place: usize, number: u16)
    ensures { row.new ≡ slice_set row.old place number }
{
    if place < row.len() {
        row[place] = number;
    }
}

impl WordRows<'_> {
    // Writes a word at a place, each part of it where its row has the place.
    pub fn put(&mut self, place: usize, word: Word)
        ensures high { self.new.high.now ≡ slice_set self.old.high.now place (word.value / half_range) }
        ensures low { self.new.low.now ≡ slice_set self.old.low.now place (word.value % half_range) }
        ensures len { self.new.len.now ≡ slice_set self.old.len.now place word.len }
        ensures same { SameRows self.old self.new }
    {
        put_at(self.high, place, word.high());
        put_at(self.low, place, word.low());
        put_at(self.len, place, u16::from(word.len));
    }
}

// Writes the words of all items of a list, by any code, in one pass: the high and the low half of each value and its length, item
// by item, each into a row of its own. What a row has past the list's length stays, and on refusal all stays.
#[tactic(auto, using(crate::proofs::Accepting::accepts_index, crate::proofs::Accepting::next_more, crate::proofs::Answering::answer_ok, crate::proofs::Encoding::encoded_more))]
pub fn encode<C: Code>(code: &C, weights: &[u16], rows: &mut WordRows) -> Result<(), EncodeRefusal>
    ensures told { result ≡ encode_answer weights.now (length rows.old.high.now) (length rows.old.low.now) (length rows.old.len.now) }
    ensures rows { Encoded (C.words code.now weights.now) (if is_ok result then length weights.now else 0) rows.old.high.now rows.old.low.now rows.old.len.now rows.new.high.now rows.new.low.now rows.new.len.now }
    ensures same { SameRows rows.old rows.new }
{
    let mut item = Item::at(weights, 0);
    // A refusal of the list writes nothing, so it is found before the first word.
    if !item.accepted() {
        return Err(EncodeRefusal::NotAccepted);
    }
    let n = weights.len();
    if rows.high.len() < n || rows.low.len() < n || rows.len.len() < n {
        return Err(EncodeRefusal::RowTooShort);
    }
    // The list is accepted, so each item has a word, up to its end.
    while let Ok(word) = code.word(&item) {
        rows.put(item.index(), word);
        item = item.next();
    }
    Ok(())
}
