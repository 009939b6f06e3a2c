// Both codes, items and rows, run on examples.
use crate::bisection::Bisection;
use crate::code::{CodeRefusal, word_at};
use crate::gilbert_moore::GilbertMoore;
use crate::item::Item;
use crate::rows::{EncodeRefusal, WordRows, encode};
use crate::word::Word;
use std::test::Fail;

const THREE: [u16; 3] = [3, 2, 1];

// The longest list that codes take: a number of its own, so that the tests fail where the limit is another.
const LONGEST: usize = 32767;

fn word(value: u32, len: u8) -> Result<Word, CodeRefusal> {
    Ok(Word { value, len })
}

// What an item shows: index, sum before, weight, sum of all.
fn shown(item: Item) -> (usize, u32, u32, u32) {
    (item.index(), item.before(), item.weight(), item.total())
}

#[test]
fn small_lists(rt: HostRuntime) {
    assert_eq!(rt; word_at(&GilbertMoore, &THREE, 0), word(0b01, 2));
    assert_eq!(rt; word_at(&GilbertMoore, &THREE, 1), word(0b101, 3));
    assert_eq!(rt; word_at(&GilbertMoore, &THREE, 2), word(0b1110, 4));
    assert_eq!(rt; word_at(&GilbertMoore, &[7], 0), word(1, 1));
    assert_eq!(rt; word_at(&Bisection, &THREE, 0), word(0b00, 2));
    assert_eq!(rt; word_at(&Bisection, &THREE, 1), word(0b01, 2));
    assert_eq!(rt; word_at(&Bisection, &THREE, 2), word(1, 1));
    assert_eq!(rt; word_at(&Bisection, &[7], 0), word(0, 1));
}

#[test]
fn refusals(rt: HostRuntime) {
    let refused = Err(CodeRefusal::NotAccepted);
    assert_eq!(rt; CodeRefusal::NotAccepted.number(), 24);
    assert_eq!(rt; word_at(&Bisection, &[], 0), refused);
    assert_eq!(rt; word_at(&Bisection, &[3, 0, 1], 0), refused);
    assert_eq!(rt; word_at(&Bisection, &THREE, 3), refused);
    assert_eq!(rt; word_at(&GilbertMoore, &[16384, 16384], 0), refused);
    assert_eq!(rt; word_at(&GilbertMoore, &[32768], 0), refused);
    assert_eq!(rt; word_at(&GilbertMoore, &[32767], 0), word(1, 1));
    assert_eq!(rt; word_at(&GilbertMoore, &[16384, 16383], 1), word(0b110, 3));
}

#[test]
fn moves(rt: HostRuntime) {
    let second = Item::at(&THREE, 1);
    assert_eq!(rt; shown(second), (1, 3, 2, 6));
    assert_eq!(rt; shown(second.next()), (2, 5, 1, 6));
    assert_eq!(rt; shown(second.previous()), (0, 0, 3, 6));
    assert_eq!(rt; shown(second.next().next().next()), (3, 6, 0, 6));
    assert_eq!(rt; shown(second.previous().previous()), (0, 0, 3, 6));
    assert_eq!(rt; shown(Item::at(&[3, 0, 1], 1).next()), (2, 0, 1, 0));
}

#[test]
fn longest_list(rt: HostRuntime) {
    let ones = [1u16; LONGEST];
    let last = LONGEST - 1;
    assert_eq!(rt; word_at(&GilbertMoore, &ones, 0), word(1, 16));
    assert_eq!(rt; word_at(&GilbertMoore, &ones, last), word(65534, 16));
    assert_eq!(rt; word_at(&Bisection, &ones, 0), word(0, 15));
    assert_eq!(rt; word_at(&Bisection, &ones, last), word(16383, 14));
}

#[test]
fn rows(rt: HostRuntime) -> Result<(), Fail> {
    let mut high = [9u16; 4];
    let mut low = [9u16; 4];
    let mut len = [9u16; 4];
    let mut rows = WordRows {
        high: &mut high,
        low: &mut low,
        len: &mut len,
    };
    assert_eq!(rt;
        encode(&GilbertMoore, &[3, 0], &mut rows),
        Err(EncodeRefusal::NotAccepted)
    );
    assert_eq!(rt;
        encode(&GilbertMoore, &[1; 5], &mut rows),
        Err(EncodeRefusal::RowTooShort)
    );
    assert_eq!(rt; &*rows.low, [9, 9, 9, 9].as_slice());
    encode(&GilbertMoore, &THREE, &mut rows)?;
    assert_eq!(rt; high, [0, 0, 0, 9]);
    assert_eq!(rt; low, [1, 5, 14, 9]);
    assert_eq!(rt; len, [2, 3, 4, 9]);
    Ok(())
}
