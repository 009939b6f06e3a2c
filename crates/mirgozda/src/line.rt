// The words of a line, and the numbers, bytes and tags that they stand for.
ghost use Rattle.std.specs.Prelude.{◌<◌, IfOk};

use crate::refusal::Refusal;
use std::alloc::{AllocError, Global};
use std::fmt;
use tags::limits::MOST_TAG_BYTES;
use texts::number;

// The greatest number that a script may write: how many numbers or bytes are to be handed in.
const MOST_NUMBER: u32 = 1_000_000_000;

// Whether a line is passed over: it is empty, has spaces only, or begins with `#`.
pub fn is_passed_over(line: &[u8]) -> bool {
    matches!(line, [b'#', ..]) || line.iter().all(|b| *b == b' ')
}

// The words of a line, which one or more spaces separate.
pub fn split_words<'a>(heap: Global, line: &'a str) -> Result<Vec<&'a str>, AllocError> {
    line.split(' ')
        .filter(|word| !word.is_empty())
        .collect(heap)
}

// A number in decimal digits, as far as its type goes and no more than a script may write.
pub fn number_of<T: TryFrom<u32>>(word: &str) -> Result<T, Refusal>
where
    T::Error: Drop,
{
    number(word.as_bytes(), MOST_NUMBER)
        .and_then(|n| T::try_from(n).ok())
        .ok_or(Refusal::NotUnderstood)
}

// The number of a place: a rack says itself which places it has.
pub fn place_of(word: &str) -> Result<usize, Refusal> {
    let place: u8 = number_of(word)?;
    Ok(usize::from(place))
}

// Numbers of at most 65,535. A loop, since how many there are is known: `try_collect` begins with room for none, and grows.
pub fn numbers_of(heap: Global, words: &[&str]) -> Result<Vec<u16>, Refusal> {
    let mut numbers = Vec::with_capacity(heap, words.len())?;
    for word in words {
        numbers.push(number_of(word)?)?;
    }
    Ok(numbers)
}

// The words in front of `room N`, and N; or all words, and as many bytes as any tag can need.
pub fn room_of<'w, 'a>(words: &'w [&'a str]) -> Result<(&'w [&'a str], usize), Refusal> {
    match words {
        [front @ .., "room", room] => {
            let room: u16 = number_of(room)?;
            Ok((front, usize::from(room)))
        }
        _ => Ok((words, MOST_TAG_BYTES)),
    }
}

// The value of a hexadecimal digit. A match, since the library's forms take capital ones too, which a script has not.
fn digit_of(b: u8) -> Result<u8, Refusal>
    ensures { IfOk result (λ digit. digit < 16) }
{
    match b {
        b'0'..=b'9' => Ok(b - b'0'),
        b'a'..=b'f' => Ok(b - b'a' + 10),
        _ => Err(Refusal::NotUnderstood),
    }
}

// The byte that two hexadecimal digits write.
fn byte_of(pair: &[u8]) -> Result<u8, Refusal> {
    match pair {
        [high, low] => Ok(digit_of(*high)? * 16 + digit_of(*low)?),
        _ => Err(Refusal::NotUnderstood),
    }
}

// A tag as a script writes it: its bytes, or a node of the present sheet.
#[derive(Drop)]
pub enum TagWord {
    Bytes(Vec<u8>),
    Node(u16),
}

// A word that stands for a tag: hexadecimal, or `@` and a node number.
pub fn tag_word(heap: Global, word: &str) -> Result<TagWord, Refusal> {
    if let Some(node) = word.strip_prefix('@') {
        return Ok(TagWord::Node(number_of(node)?));
    }
    // An odd number of digits is told before any memory is asked for.
    if word.len() % 2 != 0 {
        return Err(Refusal::NotUnderstood);
    }
    // As in `numbers_of`.
    let mut bytes = Vec::with_capacity(heap, word.len() / 2)?;
    for pair in word.as_bytes().chunks(2) {
        bytes.push(byte_of(pair)?)?;
    }
    Ok(TagWord::Bytes(bytes))
}

// Bytes, printed as hexadecimal digits.
#[derive(Clone, Copy)]
pub struct Hex<'a>(pub &'a [u8]);

impl fmt::Display for Hex<'_> {
    fn fmt<W: fmt::Write>(&self, f: &mut fmt::Formatter<W>) -> fmt::Result {
        for b in self.0 {
            write!(f, "{b:02x}")?;
        }
        Ok(())
    }
}
