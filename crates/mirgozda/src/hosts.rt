// The commands on hosts: they make one the present host, or ask it.
use crate::any_host::Source;
use crate::line::{number_of, numbers_of};
use crate::parts::levels_of_text;
use crate::refusal::Refusal;
use crate::state::State;
use std::alloc::Global;
use std::fs;
use std::io::Write;
use trees::climb::meet;
use trees::host::Host;
use trees::rule::{RuleHost, Shape};

// Makes an indented list the present host.
fn take_levels(state: &mut State, levels: Vec<u16>, out: &mut Vec<u8>) -> Result<(), Refusal> {
    let n = levels.len();
    state.source = Some(Source::Levels(levels));
    writeln!(out, "host: indented list, {n} lines")?;
    Ok(())
}

pub fn levels(state: &mut State, rest: &[&str], out: &mut Vec<u8>) -> Result<(), Refusal> {
    let levels = numbers_of(state.heap, rest)?;
    take_levels(state, levels, out)
}

// The refusal of a file. Its name is copied: with a borrowed one, what each command answers would have a lifetime.
fn cannot_read(heap: Global, file: &str) -> Refusal {
    match String::from_str(heap, file) {
        Ok(name) => Refusal::CannotRead(name),
        Err(error) => Refusal::from(error),
    }
}

// The bytes of a file.
pub fn read_file(rt: &HostRuntime, heap: Global, file: &str) -> Result<Vec<u8>, Refusal> {
    fs::read(rt, file).map_err(|_| cannot_read(heap, file))
}

pub fn list(
    rt: &HostRuntime,
    state: &mut State,
    rest: &[&str],
    out: &mut Vec<u8>,
) -> Result<(), Refusal> {
    let [file] = rest else {
        return Err(Refusal::NotUnderstood);
    };
    let text = read_file(rt, state.heap, file)?;
    let Some(levels) = levels_of_text(state.heap, text.as_slice())? else {
        return Err(cannot_read(state.heap, file));
    };
    take_levels(state, levels, out)
}

pub fn rule(
    state: &mut State,
    shape: Shape,
    rest: &[&str],
    out: &mut Vec<u8>,
) -> Result<(), Refusal> {
    let [count] = rest else {
        return Err(Refusal::NotUnderstood);
    };
    let count = number_of(count)?;
    state.source = Some(Source::Rule(RuleHost { shape, count }));
    writeln!(out, "host: {shape}, {count}")?;
    Ok(())
}

pub fn verdict(state: &State, rest: &[&str], out: &mut Vec<u8>) -> Result<(), Refusal> {
    if !rest.is_empty() {
        return Err(Refusal::NotUnderstood);
    }
    let n = state.host()?.verdict()?;
    writeln!(out, "{n} nodes")?;
    Ok(())
}

pub fn parent(state: &State, rest: &[&str], out: &mut Vec<u8>) -> Result<(), Refusal> {
    let [v] = rest else {
        return Err(Refusal::NotUnderstood);
    };
    let v = number_of(v)?;
    match state.host()?.parent(v) {
        Some(u) => writeln!(out, "parent {u}")?,
        None => writeln!(out, "no parent")?,
    }
    Ok(())
}

pub fn meeting(state: &State, rest: &[&str], out: &mut Vec<u8>) -> Result<(), Refusal> {
    let nodes = numbers_of(state.heap, rest)?;
    let [first, others @ ..] = nodes.as_slice() else {
        return Err(Refusal::NotUnderstood);
    };
    let assembly = meet(&state.host()?, *first, others)?;
    writeln!(out, "meet {assembly}")?;
    Ok(())
}
