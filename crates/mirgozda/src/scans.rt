// The commands on tags, as a scanner gives them.
use crate::line::{Hex, number_of, room_of, tag_word};
use crate::refusal::Refusal;
use crate::state::State;
use formats::fault::PairRefusal;
use std::fmt;
use std::io::Write;
use tags::cut::cut;
use tags::field::{Field, FieldWord};
use tags::tag::Tag;

// Adds the bits of a field's word as 0 and 1. They go to the output itself: through a formatter each would be a write of its own.
fn add_word(word: &FieldWord, out: &mut Vec<u8>) -> Result<(), Refusal> {
    let digits = (0..word.len).map(|t| if word.bit(t) == Some(true) {
        b'1'
    } else {
        b'0'
    });
    Ok(out.extend(digits)?)
}

fn say_field(field: Field, out: &mut Vec<u8>) -> Result<(), Refusal> {
    let word = field.word();
    match field {
        Field::Path { depth, .. } => {
            write!(out, "path {} ", word.first_bit)?;
            add_word(&word, out)?;
            writeln!(out, " depth {depth}")?;
        }
        Field::Branch { .. } => {
            write!(out, "branch {} ", word.first_bit)?;
            add_word(&word, out)?;
            writeln!(out)?;
        }
    }
    Ok(())
}

pub fn read(state: &State, rest: &[&str], out: &mut Vec<u8>) -> Result<(), Refusal> {
    let [word] = rest else {
        return Err(Refusal::NotUnderstood);
    };
    let bytes = state.tag(tag_word(state.heap, word)?)?;
    let tag = Tag::read(bytes.as_slice())?;
    let number = tag.tree_number();
    let count = tag.count();
    let depth = tag.last_depth();
    writeln!(out, "tree {number} fields {count} depth {depth}")?;
    for field in (0..usize::from(count)).filter_map(|i| tag.field(i)) {
        say_field(field, out)?;
    }
    Ok(())
}

pub fn cutting(state: &State, rest: &[&str], out: &mut Vec<u8>) -> Result<(), Refusal> {
    let (words, room) = room_of(rest)?;
    let [fields, word] = words else {
        return Err(Refusal::NotUnderstood);
    };
    let fields: u16 = number_of(fields)?;
    let bytes = state.tag(tag_word(state.heap, word)?)?;
    let mut space = vec![in state.heap; 0u8; room]?;
    let n = cut(bytes.as_slice(), usize::from(fields), space.as_mut_slice())?;
    space.truncate(n);
    let tag = Hex(space.as_slice());
    writeln!(out, "tag {tag}")?;
    Ok(())
}

// Asks a query of two tags.
pub fn on_two<T: fmt::Display + Drop, F: Fn(&[u8], &[u8]) -> Result<T, PairRefusal>>(
    state: &State,
    rest: &[&str],
    out: &mut Vec<u8>,
    query: F,
) -> Result<(), Refusal>
    requires { F.IsAlwaysCallable query }
{
    let [first, second] = rest else {
        return Err(Refusal::NotUnderstood);
    };
    let first = tag_word(state.heap, first)?;
    let second = tag_word(state.heap, second)?;
    let first = state.tag(first)?;
    let second = state.tag(second)?;
    let answer = query(first.as_slice(), second.as_slice())?;
    writeln!(out, "{answer}")?;
    Ok(())
}
