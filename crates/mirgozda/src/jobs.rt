// The commands on a rack.
use crate::bench::Bench;
use crate::line::{Hex, number_of, place_of, room_of, tag_word};
use crate::refusal::Refusal;
use crate::state::State;
use racks::rack::Rack;
use std::io;
use std::io::Write;

pub fn rack(state: &mut State, rest: &[&str], out: &mut Vec<u8>) -> Result<(), Refusal> {
    let [number, tree] = rest else {
        return Err(Refusal::NotUnderstood);
    };
    let number = number_of(number)?;
    let tree = number_of(tree)?;
    state.bench.set_rack(Rack::new(number, tree));
    writeln!(out, "rack {number} for tree {tree}")?;
    Ok(())
}

pub fn open(state: &mut State, rest: &[&str], out: &mut Vec<u8>) -> Result<(), Refusal> {
    let [place] = rest else {
        return Err(Refusal::NotUnderstood);
    };
    let place = place_of(place)?;
    state.bench.open(place)?;
    writeln!(out, "opened {place}")?;
    Ok(())
}

// Brings a tag to a place, and says what was done with it.
pub fn bring<F: FnOnce(&mut Bench, usize, &[u8]) -> Result<(), Refusal>>(
    state: &mut State,
    rest: &[&str],
    out: &mut Vec<u8>,
    call: F,
    done: &str,
) -> Result<(), Refusal>
    requires { F.IsAlwaysCallable call }
{
    let [place, tag] = rest else {
        return Err(Refusal::NotUnderstood);
    };
    let place = place_of(place)?;
    let tag = state.tag(tag_word(state.heap, tag)?)?;
    call(&mut state.bench, place, tag.as_slice())?;
    writeln!(out, "{done} {place}")?;
    Ok(())
}

// Writes what a place holds, and prints it under a name.
pub fn write_held<F: FnOnce(&mut Bench, usize, &mut [u8]) -> Result<usize, Refusal>>(
    state: &mut State,
    rest: &[&str],
    out: &mut Vec<u8>,
    call: F,
    name: &str,
) -> Result<(), Refusal>
    requires { F.IsAlwaysCallable call }
{
    let (words, room) = room_of(rest)?;
    let [place] = words else {
        return Err(Refusal::NotUnderstood);
    };
    let place = place_of(place)?;
    let mut space = vec![in state.heap; 0u8; room]?;
    let n = call(&mut state.bench, place, space.as_mut_slice())?;
    space.truncate(n);
    let tag = Hex(space.as_slice());
    writeln!(out, "{name} {tag}")?;
    Ok(())
}

pub fn compare(state: &State, rest: &[&str], out: &mut Vec<u8>) -> Result<(), Refusal> {
    let [first, second] = rest else {
        return Err(Refusal::NotUnderstood);
    };
    let first = place_of(first)?;
    let second = place_of(second)?;
    let related = state.bench.compare(first, second)?;
    writeln!(out, "{related}")?;
    Ok(())
}

// Says what became of a place whose ticket is abandoned.
pub fn say_abandoned(place: usize, emptied: bool, out: &mut Vec<u8>) -> io::Result<()> {
    let what = if emptied { "emptied" } else { "kept" };
    writeln!(out, "abandoned {place}, place {what}")
}

pub fn abandon(state: &mut State, rest: &[&str], out: &mut Vec<u8>) -> Result<(), Refusal> {
    let [place] = rest else {
        return Err(Refusal::NotUnderstood);
    };
    let place = place_of(place)?;
    let Some(emptied) = state.bench.abandon(place) else {
        return Err(Refusal::NoTicket { place });
    };
    say_abandoned(place, emptied, out)?;
    Ok(())
}
